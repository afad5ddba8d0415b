//! What a worker's commands do.

ghost use Rattle.std.specs.Prelude.{◌≡◌, ◌⊎◌, ℕ, MatchResult, Option, Some, false};
ghost use Rattle.fax_journal.specs.Calls.{shown};
ghost use Rattle.fax_journal.specs.Entry.{Entry as Stored};
ghost use Rattle.fax_journal.specs.Journal.{Answers, Rests, TablesMean};
ghost use Rattle.fax_worker.specs.Answer.{answer_of};
ghost use Rattle.fax_worker.specs.Acting.{HasBegun};
ghost use Rattle.fax_worker.specs.Worker.{IsAnswered, Pending as Request, Worker as Record};
ghost use Rattle.fax_client.specs.Course.{Events, Follows, IsAt, IsBefore, Start};
ghost use Rattle.fax_client.specs.Saved.{HasWorker, IsBetween, IsKept};
ghost use Rattle.fax_client.specs.Step.{is_show};
ghost use Rattle.fax_client.specs.Working.{Concludes, Ends, GivesUp, GivesUpRefused, Move, Works, concluded, is_refused, shown_of, workers};

use crate::asking::{TRIES, ask_until_answered};
use crate::line::Line;
use crate::number::{Ticks, is_in_later_window, next_number};
use crate::saved::{load, save};
use crate::shown::Shown;
use crate::step::Step;
use crate::stop::Stop;
use fax_job::{Refusal, RequestNumber};
use fax_journal::Journal;
use fax_worker::{Action, Answer, Look, Worker};
use sqlite::Alter;
use std::alloc::Global;

/// What an answer says beside what the worker holds then.
#[derive(Clone, Copy)]
enum Conclusion {
    Nothing,
    /// Whether the call is to stop.
    Goes { stop: bool },
    /// The grant's job, and its state.
    Ended { job: u32, state: u8 },
    Refused(Refusal),
}

/// Finishes the request that isn't answered yet, and does the step. A step whose request is the unanswered one is done with
/// its answer.
///
/// # Errors
///
/// `NotNow`, before anything else of the step is done; `Refused` by the queue; `Later` if an answer didn't come in time: the
/// request stays in the journal, and `next` goes on from it. `Journal` and `NoMemory` leave it as it was, or after a step.
pub fn work<S: Alter + Drop, L: Line<Journal<S>>>(
    alloc: Global,
    journal: &mut Journal<S>,
    line: &mut L,
    now: Ticks,
    step: Step,
) -> Result<Shown, Stop>
    ensures { (entry : Option Stored) (kept : Answers) → Rests (TablesMean entry kept) (shown S.Store journal.old)
        → Works S.Store L.carries L.pauses kept entry step line.old line.new journal.old journal.new result }
{
    let worker = load(alloc, journal, step.modem())?;
    if step.is_show() {
        return Ok(Shown::Journal(worker));
    }
    if !step.is_of(&worker) {
        return Err(Stop::NotNow);
    }
    let is_begun = step.is_begun(&worker);
    let earlier = worker.last();
    let (worker, conclusion) = settle(alloc, journal, line, now, worker, earlier)?;
    if is_begun {
        return shown(step.is_next(), worker, conclusion);
    }
    do_step(alloc, journal, line, now, worker, step, earlier)
}

/// Does a step whose worker has nothing unanswered.
fn do_step<S: Alter + Drop, L: Line<Journal<S>>>(
    alloc: Global,
    journal: &mut Journal<S>,
    line: &mut L,
    now: Ticks,
    worker: Worker,
    step: Step,
    earlier: RequestNumber,
) -> Result<Shown, Stop>
    requires { is_show step ≡ false }
    ensures { (kept : Answers) (first : Start (Journal S) L Record) (events : Events (Journal S) Move) → IsAt S.Store L.carries L.pauses (workers kept) first events line.old worker journal.old
        → Ends S.Store L.carries L.pauses kept first step events line.new journal.new result }
{
    if step.is_done(&worker) {
        return Ok(Shown::Grant(worker));
    }
    let is_next = step.is_next();
    let Some(action) = step.action() else {
        return Err(Stop::NotNow);
    };
    let worker = begin(alloc, journal, now, worker, action)?;
    let (worker, conclusion) = settle(alloc, journal, line, now, worker, earlier)?;
    shown(is_next, worker, conclusion)
}

/// What a command prints after its answer.
fn shown(is_next: bool, worker: Worker, conclusion: Conclusion) -> Result<Shown, Stop>
    ensures { result ≡ shown_of is_next worker conclusion }
{
    match conclusion {
        Conclusion::Refused(Refusal::ModemDown | Refusal::ModemBusy) if is_next => {
            Ok(Shown::Grant(worker))
        }
        Conclusion::Refused(refusal) => Err(Stop::Refused(refusal)),
        Conclusion::Goes { stop } => Ok(Shown::Goes { stop }),
        Conclusion::Ended { job, state } => Ok(Shown::Ended { job, state }),
        Conclusion::Nothing => Ok(Shown::Grant(worker)),
    }
}

/// Begins the request of an action: it is in the journal then. That is for later if a request isn't answered yet.
fn begin<S: Alter + Drop>(
    alloc: Global,
    journal: &mut Journal<S>,
    now: Ticks,
    mut worker: Worker,
    action: Action,
) -> Result<Worker, Stop>
    ensures { (kept : Answers) (first : Journal S) → IsKept (HasWorker kept worker) (shown S.Store first) (shown S.Store journal.old)
        → MatchResult result (λ begun. (number : ℕ) × HasBegun worker action number begun
        × IsKept (HasWorker kept begun) (shown S.Store first) (shown S.Store journal.new))
        (λ _. (after : Record) × ((after ≡ worker) ⊎ ((number : ℕ) × HasBegun worker action number after))
        × IsBetween (HasWorker kept worker) (HasWorker kept after) (shown S.Store first) (shown S.Store journal.new)) }
{
    if worker.unanswered().is_some() {
        return Err(Stop::Later);
    }
    let Some(number) = next_number(worker.last(), now) else {
        return Err(Stop::NotNow);
    };
    worker.begin(action, number)?;
    save(alloc, journal, worker)
}

/// Sends the unanswered request until it is answered, and gives up the replies so far after a refusal, and once the clock
/// is in another window than at this earlier number.
fn settle<S: Alter + Drop, L: Line<Journal<S>>>(
    alloc: Global,
    journal: &mut Journal<S>,
    line: &mut L,
    now: Ticks,
    worker: Worker,
    earlier: RequestNumber,
) -> Result<(Worker, Conclusion), Stop>
    ensures { (kept : Answers) (first : Start (Journal S) L Record) (before : Events (Journal S) Move) → IsAt S.Store L.carries L.pauses (workers kept) first before line.old worker journal.old
        → MatchResult result (λ r. (events : Events (Journal S) Move)
        × Follows S.Store L.carries L.pauses (workers kept) first before events line.new r.0 journal.new × Concludes worker.unanswered events r.1 × GivesUpRefused r.1 events)
        (λ _. IsBefore S.Store L.carries L.pauses (workers kept) first line.new journal.new) }
{
    let (worker, conclusion) = finish(alloc, journal, line, worker)?;
    if !is_refused(conclusion) && !is_in_later_window(worker.last(), earlier) {
        return Ok((worker, conclusion));
    }
    Ok((give_up(alloc, journal, line, now, worker)?, conclusion))
}

/// Gives up the replies so far. That takes no more than one try: what isn't answered then is the next command's to finish.
fn give_up<S: Alter + Drop, L: Line<Journal<S>>>(
    alloc: Global,
    journal: &mut Journal<S>,
    line: &mut L,
    now: Ticks,
    worker: Worker,
) -> Result<Worker, Stop>
    ensures { (kept : Answers) (first : Start (Journal S) L Record) (before : Events (Journal S) Move) → IsAt S.Store L.carries L.pauses (workers kept) first before line.old worker journal.old
        → MatchResult result (λ w. (events : Events (Journal S) Move)
        × Follows S.Store L.carries L.pauses (workers kept) first before events line.new w journal.new × GivesUp events)
        (λ _. IsBefore S.Store L.carries L.pauses (workers kept) first line.new journal.new) }
{
    let worker = begin(alloc, journal, now, worker, Action::GivesUp)?;
    let Some(pending) = worker.unanswered() else {
        return Ok(worker);
    };
    match ask_until_answered(alloc, journal, line, &worker, pending, 1) {
        Ok((answer, look)) => take_answer(alloc, journal, worker, answer, look),
        Err(Stop::Later) => Ok(worker),
        Err(stop) => Err(stop),
    }
}

/// Sends the unanswered request, if there is one, until it is answered or all tries are done. The journal has then what the
/// answer leaves.
fn finish<S: Alter + Drop, L: Line<Journal<S>>>(
    alloc: Global,
    journal: &mut Journal<S>,
    line: &mut L,
    worker: Worker,
) -> Result<(Worker, Conclusion), Stop>
    ensures { (kept : Answers) (first : Start (Journal S) L Record) (before : Events (Journal S) Move) → IsAt S.Store L.carries L.pauses (workers kept) first before line.old worker journal.old
        → MatchResult result (λ r. (events : Events (Journal S) Move)
        × Follows S.Store L.carries L.pauses (workers kept) first before events line.new r.0 journal.new × Concludes worker.unanswered events r.1)
        (λ _. IsBefore S.Store L.carries L.pauses (workers kept) first line.new journal.new) }
{
    let Some(pending) = worker.unanswered() else {
        return Ok((worker, Conclusion::Nothing));
    };
    let (answer, look) = ask_until_answered(alloc, journal, line, &worker, pending, TRIES)?;
    let conclusion = conclusion_of(&answer);
    Ok((
        take_answer(alloc, journal, worker, answer, look)?,
        conclusion,
    ))
}

/// The unanswered request gets this answer. The journal has what that leaves.
fn take_answer<S: Alter + Drop>(
    alloc: Global,
    journal: &mut Journal<S>,
    mut worker: Worker,
    answer: Answer,
    look: Look,
) -> Result<Worker, Stop>
    ensures { (kept : Answers) (first : Journal S) (p : Request) → worker.unanswered ≡ Some p
        → IsKept (HasWorker kept worker) (shown S.Store first) (shown S.Store journal.old)
        → MatchResult result (λ w. IsAnswered worker p.number p.ask (answer_of answer) look w
        × IsKept (HasWorker kept w) (shown S.Store first) (shown S.Store journal.new))
        (λ _. (after : Record) × IsAnswered worker p.number p.ask (answer_of answer) look after
        × IsBetween (HasWorker kept worker) (HasWorker kept after) (shown S.Store first) (shown S.Store journal.new)) }
{
    worker.answered(answer, look);
    save(alloc, journal, worker)
}

fn is_refused(conclusion: Conclusion) -> bool
    ensures { result ≡ is_refused conclusion }
{
    matches!(conclusion, Conclusion::Refused(_))
}

fn conclusion_of(answer: &Answer) -> Conclusion
    ensures { result ≡ concluded (answer_of answer.now) }
{
    if let Some(refusal) = answer.refusal() {
        return Conclusion::Refused(refusal);
    }
    match answer {
        Answer::Called { stop } => Conclusion::Goes { stop: *stop },
        Answer::Confirmed { npages: _, stop } => Conclusion::Goes { stop: *stop },
        Answer::Stands { job, state } => Conclusion::Ended {
            job: *job,
            state: *state,
        },
        _ => Conclusion::Nothing,
    }
}
