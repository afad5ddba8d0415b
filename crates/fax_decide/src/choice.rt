//! Which job a modem is given: a modem asks for work.

ghost use Rattle.std.specs.Prelude.{◌≡◌, ◌&&◌, ℕ, List, [], false, true, IfOk, IsErr, IsTrue, OnOk, Ok, None, Some, is_some};
ghost use Rattle.std.specs.List.{list_any};
ghost use Rattle.std.specs.Option.{option_map};
ghost use Rattle.std.specs.Str.{bytes_eq};
ghost use Rattle.std.specs.Vec.Iter.{into_iter_items};
ghost use Rattle.fax_ask.specs.Answer.{grant_told};
ghost use Rattle.fax_ask.specs.Response.{refused_response};
ghost use Rattle.fax_core.specs.Ageing.{aged};
ghost use Rattle.fax_core.specs.Best.{best};
ghost use Rattle.fax_core.specs.Change.{decided_with};
ghost use Rattle.fax_core.specs.Decisions.{grant as granted_if};
ghost use Rattle.fax_core.specs.Job.{job_of};
ghost use Rattle.fax_core.specs.Fits.{fits};
ghost use Rattle.fax_core.specs.Machine.{dial_of, given, given_best, given_to, handed, held_by};
ghost use Rattle.fax_core.specs.Queue.{Queue, job_numbered};
ghost use Rattle.fax_core.specs.Reply.{HeldGrant};
ghost use Rattle.fax_core.specs.Settings.{Settings};
ghost use Rattle.fax_core.specs.Sound.{Sound};
ghost use Rattle.fax_core.specs.State.{calls_to};
ghost use Rattle.fax_core.specs.Times.{has_ended};
ghost use Rattle.fax_core.specs.declared.grants.Grant.{Grant as OneGrant};
ghost use Rattle.fax_job.specs.declared.job.Phase.TheVariants.{Waiting};
ghost use Rattle.fax_job.specs.declared.refusal.Refusal.TheVariants.{ModemBusy};
ghost use Rattle.fax_tables.specs.Grant.{as_hold};
ghost use Rattle.fax_store.specs.Candidates.{StandsAt};
ghost use Rattle.fax_dest.specs.Setup.{admits};
ghost use Rattle.fax_hours.specs.Zone.{week_minute_at};
ghost use Rattle.fax_dest.specs.Finder.{IsFinderOf};
ghost use Rattle.fax_decide.specs.Choice.{HasLearned, IsBusy, IsBusyModem, IsFirst, IsFirstAsked, IsGrantOf, with_number};
ghost use Rattle.fax_decide.specs.Decision.{Decides};
ghost use Rattle.fax_decide.specs.Fault.{OrNoAnswer};
ghost use Rattle.fax_decide.specs.Looking.{Consults};
ghost use Rattle.fax_decide.specs.Records.{KeepsRecord};
ghost use Rattle.fax_decide.specs.Settings.{settings_of};
ghost use Rattle.fax_decide.specs.State.{may_call};

use crate::decision::{Decision, answered, applied, take};
use crate::effect::Effect;
use crate::fault::Fault;
use crate::held::held_grant;
use crate::office::{Office, WeekMinute};
use fax_ask::{Answer, Detail, Handed, Reply};
use fax_core::{Change, Grant, fits, grant};
use fax_dest::Finder;
use fax_job::limits::LAST_JOB;
use fax_job::{Dial, Job, Moment, Name, Refusal};
use fax_store::{Candidates, Hold, Store};
use fax_tables::Prospect;
use sqlite::Alter;
use std::alloc::{AllocError, Global};

/// How many numbers to which no call may begin one look for work remembers.
const MOST_KNOWN: usize = 16;

/// What one look for work learns of numbers.
#[derive(Drop)]
struct Learned<'a> {
    /// When it looks.
    minute: WeekMinute,
    /// Has searched for the rules of some.
    finder: Finder<'a>,
    /// To these no call may begin.
    busy: Vec<Dial>,
}

/// Decides at `t` what a modem gets that asks for work. `next_grant` is the number of its grant.
pub(crate) fn decide_next<S: Alter>(
    store: &mut Store<S>,
    office: &Office,
    alloc: Global,
    modem: Name,
    next_grant: u32,
    t: Moment,
) -> Result<Decision, Fault>
    ensures { Consults S.Store store.old store.new result (λ m. Sound m → next_grant ≡ m.next_grant
        → OrNoAnswer result (Decides
        (given_to (settings_of office.now.setup office.now.controls) (aged t m) t modem) m t)) }
{
    if !office.setup.has_modem(modem.as_str()) {
        return Ok(Decision::Refused(Reply::refused(Refusal::NoModem)));
    }
    if store.is_down(modem.as_str())? {
        return Ok(Decision::Refused(Reply::refused(Refusal::ModemDown)));
    }
    match store.hold_of(modem.as_str())? {
        Some(hold) => busy(store, alloc, hold, &modem),
        None => decide_free(store, office, alloc, modem, next_grant, t),
    }
}

/// A modem that holds a grant gets no other, and is told which it holds. Where the grant or its job isn't there, as in
/// no sound queue, nothing is decided: whatever the rows say, no other refusal is.
fn busy<S: Alter>(
    store: &mut Store<S>,
    alloc: Global,
    hold: Hold,
    modem: &Name,
) -> Result<Decision, Fault>
    ensures found { Consults S.Store store.old store.new result (λ m. (t : ℕ) (g : OneGrant) → Sound m
        → held_by modem.now m ≡ Some g → hold ≡ as_hold g → OrNoAnswer result (λ decision. decision
        ≡ Decision.Refused (refused_response ModemBusy (HeldGrant (is_some g.call) (handed g (aged t m)))))) }
    ensures misfit { IfOk result IsBusyModem }
{
    let (grant, job) = held_grant(store, hold, modem.as_str())?;
    let detail = Detail::Held {
        called: grant.call.is_some(),
        handed: handed(&grant, &job),
    };
    Ok(Decision::Refused(Reply::refused_with(alloc, &detail)?))
}

/// A modem that holds no grant gets the best job that may go to it.
fn decide_free<S: Alter>(
    store: &mut Store<S>,
    office: &Office,
    alloc: Global,
    modem: Name,
    next_grant: u32,
    t: Moment,
) -> Result<Decision, Fault>
    ensures { Consults S.Store store.old store.new result (λ m. Sound m → next_grant ≡ m.next_grant
        → OrNoAnswer result (Decides (given_best (settings_of office.now.setup office.now.controls) (aged t m) modem
        (best (settings_of office.now.setup office.now.controls) (aged t m) t modem)) m t)) }
{
    let number = first(store, office, alloc, &modem, t)?;
    match best(store, number)? {
        Some(job) => give(office, alloc, job, modem, next_grant),
        None => take(Effect::Nothing, answered(alloc, &Answer::NoneToSend)),
    }
}

/// The best of the waiting jobs, which has the number of the first that may go; or none, where none may. Where the job
/// isn't there, as in no sound queue, nothing is decided: whatever the rows say, a number has a job.
fn best<S: Alter>(store: &mut Store<S>, number: Option<u32>) -> Result<Option<Job>, Fault>
    ensures found { Consults S.Store store.old store.new result (λ m. (s : Settings) (t : ℕ) (modem : List ℕ)
        → Sound m → IsFirst s m t modem number → OrNoAnswer result (λ found.
        option_map (λ f. job_of f) found ≡ best s (aged t m) t modem)) }
    ensures misfit { IfOk result (λ found. is_some found ≡ is_some number) }
{
    let Some(number) = number else {
        return Ok(None);
    };
    match store.job(number)? {
        Some(job) => Ok(Some(job)),
        None => Err(Fault::Strange),
    }
}

/// The number of the first of the waiting jobs, in the order of the choice, that may go to the modem at `t`. Where one
/// of them is to a number to which no call may begin, the store passes over all others to that number.
fn first<S: Alter>(
    store: &mut Store<S>,
    office: &Office,
    alloc: Global,
    modem: &Name,
    t: Moment,
) -> Result<Option<u32>, Fault>
    ensures { Consults S.Store store.old store.new result (λ m. Sound m
        → OrNoAnswer result (IsFirst (settings_of office.now.setup office.now.controls) m t modem.now)) }
{
    let mut learned = Learned {
        minute: office.minute_at(t)?,
        finder: office.controls.finder(alloc),
        busy: Vec::new(alloc),
    };
    let found = first_or_busy(store, office, alloc, &mut learned, modem, t)?;
    match learned.busy.pop() {
        None => Ok(found),
        Some(dial) => first_but(store, office, alloc, &mut learned, dial, modem, t),
    }
}

/// The number of the first of the waiting jobs that may go to the modem at `t`; or `busy` of `learned` gets the first
/// number that is found to which no call may begin.
fn first_or_busy<S: Alter>(
    store: &mut Store<S>,
    office: &Office,
    alloc: Global,
    learned: &mut Learned<'_>,
    modem: &Name,
    t: Moment,
) -> Result<Option<u32>, Fault>
    ensures { Consults S.Store store.old store.new result (λ m. Sound m → HasLearned office.now m t learned.old
        → OrNoAnswer result (λ found. HasLearned office.now m t learned.new
        × (learned.new.busy.items ≡ [] → IsFirst (settings_of office.now.setup office.now.controls) m t modem.now found))) }
{
    let mut candidates = store.candidates(t);
    first_of(&mut candidates, office, alloc, learned, true, modem, t)
}

/// The number of the first of the waiting jobs that may go to the modem at `t`, where no call to that number may begin.
fn first_but<S: Alter>(
    store: &mut Store<S>,
    office: &Office,
    alloc: Global,
    learned: &mut Learned<'_>,
    busy: Dial,
    modem: &Name,
    t: Moment,
) -> Result<Option<u32>, Fault>
    ensures { Consults S.Store store.old store.new result (λ m. Sound m → HasLearned office.now m t learned.old
        → IsBusy (settings_of office.now.setup office.now.controls) m t (Some busy)
        → OrNoAnswer result (IsFirst (settings_of office.now.setup office.now.controls) m t modem.now)) }
{
    let mut candidates = store.candidates_but(t, busy);
    first_of(&mut candidates, office, alloc, learned, false, modem, t)
}

/// The number of the first of the candidates that may go to the modem at `t`, the moment that they were asked for. If
/// `ends_at_busy`, the look ends as soon as a number is learned to which no call may begin.
fn first_of<S: Alter>(
    candidates: &mut Candidates<'_, S>,
    office: &Office,
    alloc: Global,
    learned: &mut Learned<'_>,
    ends_at_busy: bool,
    modem: &Name,
    t: Moment,
) -> Result<Option<u32>, Fault>
    ensures same_reference { candidates.new.store.ghost_name ≡ candidates.old.store.ghost_name }
    ensures consults { Consults S.Store candidates.old.store.now candidates.new.store.now result (λ m. Sound m
        → candidates.old.asked.t ≡ t
        → StandsAt candidates.old.asked m [] (into_iter_items candidates.old.page) candidates.old.front candidates.old.most
        → HasLearned office.now m t learned.old → OrNoAnswer result (λ found. HasLearned office.now m t learned.new
        × ((IsTrue ends_at_busy → learned.new.busy.items ≡ [])
        → IsFirstAsked (settings_of office.now.setup office.now.controls) candidates.old.asked m modem.now found))) }
{
    // Each job has a number of its own, so no sound queue has more.
    for _ in 0..LAST_JOB + 1 {
        let Some(prospect) = candidates.prospect()? else {
            return Ok(None);
        };
        let job = prospect.job;
        if goes(candidates, office, alloc, prospect, learned, modem, t)? {
            return Ok(Some(job));
        }
        if ends_at_busy && !learned.busy.as_slice().is_empty() {
            return Ok(None);
        }
    }
    Err(Fault::Strange)
}

/// Whether a job that is due may go to the modem at `t`: a call to its number may begin, and its modem value admits the
/// modem. A number that is known as busy isn't looked up, and one to which no call may begin is learned. So many jobs to
/// a few busy numbers cost a few look-ups.
fn goes<S: Alter>(
    candidates: &mut Candidates<'_, S>,
    office: &Office,
    alloc: Global,
    prospect: Prospect,
    learned: &mut Learned<'_>,
    modem: &Name,
    t: Moment,
) -> Result<bool, Fault>
    ensures same_reference { candidates.new.store.ghost_name ≡ candidates.old.store.ghost_name }
    ensures same { (candidates.new.asked ≡ candidates.old.asked) × (candidates.new.page ≡ candidates.old.page)
        × (candidates.new.front ≡ candidates.old.front) × (candidates.new.most ≡ candidates.old.most) }
    ensures consults { Consults S.Store candidates.old.store.now candidates.new.store.now result (λ m.
        HasLearned office.now m t learned.old
        → OrNoAnswer result (λ goes. (goes ≡ (may_call (settings_of office.now.setup office.now.controls) prospect.dial
        (calls_to prospect.dial m) t && admits office.now.setup prospect.modem modem.now))
        × HasLearned office.now m t learned.new)) }
{
    let Prospect {
        job: _,
        dial,
        modem: value,
        priority: _,
        tts: _,
    } = prospect;
    if is_known(&learned.busy, &dial) {
        return Ok(false);
    }
    if !may_call(
        candidates,
        office,
        alloc,
        &mut learned.finder,
        &dial,
        &learned.minute,
    )? {
        remember(&mut learned.busy, dial)?;
        return Ok(false);
    }
    Ok(office.setup.admits(alloc, value.as_str(), modem.as_str())?)
}

/// Whether a call to that number may begin at that minute of the week. The store is asked for its calls only if its hours have the minute.
fn may_call<S: Alter>(
    candidates: &mut Candidates<'_, S>,
    office: &Office,
    alloc: Global,
    finder: &mut Finder<'_>,
    dial: &Dial,
    minute: &WeekMinute,
) -> Result<bool, Fault>
    ensures same_reference { candidates.new.store.ghost_name ≡ candidates.old.store.ghost_name }
    ensures same { (candidates.new.asked ≡ candidates.old.asked) × (candidates.new.page ≡ candidates.old.page)
        × (candidates.new.front ≡ candidates.old.front) × (candidates.new.most ≡ candidates.old.most) }
    ensures consults { Consults S.Store candidates.old.store.now candidates.new.store.now result (λ m.
        (t : ℕ) → minute.now ≡ week_minute_at office.now.setup.zone t → IsFinderOf office.now.controls finder.old
        → OrNoAnswer result (λ may. (may ≡ may_call (settings_of office.now.setup office.now.controls) dial.now
        (calls_to dial.now m) t) × IsFinderOf office.now.controls finder.new)) }
{
    let rule = office.rule_by(finder, alloc, dial)?;
    if !minute.is_in_hours(rule) {
        return Ok(false);
    }
    let calls = candidates.active_to(dial)?;
    Ok(calls < u64::from(rule.calls))
}

/// Whether this number is one of those.
fn is_known(numbers: &[Dial], dial: &Dial) -> bool
    ensures { result ≡ list_any (bytes_eq dial.now) numbers.now }
{
    numbers.iter().any(|number| dial.text() == number.text())
}

/// Adds a number, unless there are 16.
fn remember(numbers: &mut Vec<Dial>, dial: Dial) -> Result<(), AllocError>
    ensures { OnOk result (numbers.new.items ≡ with_number numbers.old.items dial) }
{
    if numbers.len() < MOST_KNOWN {
        numbers.push(dial)?;
    }
    Ok(())
}

/// The job goes to the modem with the pages that it has left. Where it doesn't fit to be granted, as in no sound
/// queue, nothing is decided.
fn give(
    office: &Office,
    alloc: Global,
    job: Job,
    modem: Name,
    next_grant: u32,
) -> Result<Decision, Fault>
    ensures decided { (m : Queue) (t : ℕ) → Sound m → job_numbered job.job (aged t m) ≡ Some (job_of job)
        → next_grant ≡ m.next_grant → job.phase ≡ Waiting → OrNoAnswer result (Decides
        (given (aged t m) (granted_if (job_of job) modem next_grant office.now.setup.max_grants)) m t) }
    ensures misfit { fits job None ≡ false → IsErr result }
{
    if !fits(&job, None) {
        return Err(Fault::Strange);
    }
    match grant(&job, next_grant, office.setup.max_grants()) {
        Ok(change) => {
            let grant = Grant::new(&job, modem, next_grant);
            given(alloc, job, change, grant)
        }
        Err(refusal) => Ok(Decision::Refused(Reply::refused(refusal))),
    }
}

/// The job is changed, and the modem is told of its grant.
fn given(alloc: Global, job: Job, change: Change, grant: Grant) -> Result<Decision, Fault>
    ensures { (m : Queue) (t : ℕ) → Sound m → job_numbered job.job (aged t m) ≡ Some (job_of job)
        → grant.number ≡ m.next_grant → has_ended job.phase ≡ false → IsGrantOf job grant → KeepsRecord change job
        → OrNoAnswer result (Decides (given (aged t m) (decided_with grant (job_of job) (Ok change))) m t) }
{
    let job = applied(change, job)?;
    let reply = answered(alloc, &Answer::Given(handed(&grant, &job)));
    take(Effect::NewGrant { job, grant }, reply)
}

/// A grant of a job, as it is told to a worker.
fn handed<'a>(grant: &Grant, job: &'a Job) -> Handed<'a>
    ensures { (m : Queue) → dial_of (job_numbered grant.now.job m) ≡ job.now.dial
        → grant_told result ≡ handed grant.now m }
{
    Handed {
        grant: grant.number,
        job: grant.job,
        number: job.fields().dial.text(),
        from: grant.first_page,
        to: grant.last_page,
    }
}
