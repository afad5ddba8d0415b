//! The jobs in rows.

ghost use Rattle.std.specs.Prelude.{◌≡◌, ℕ, ◌≤◌, ◌<◌, List, [], ◌∷◌, ◌++◌, All, map, take, Option, IfOk, IsTrue, unwrap_or};
ghost use Rattle.std.specs.Str.{IsUtf8};
ghost use Rattle.std.specs.String.{string_bytes};
ghost use Rattle.sqlite.specs.Order.{Row as Values};
ghost use Rattle.sqlite.specs.declared.types.Value.TheVariants.{Text};
ghost use Rattle.fax_core.specs.Job.{Job as OneJob, fields_of};
ghost use Rattle.fax_value.specs.Dial.{IsCanonical};
ghost use Rattle.fax_job.specs.Job.{is_lawful_killtime, IsLawful};
ghost use Rattle.fax_value.specs.JobTag.{IsJobTag};
ghost use Rattle.fax_value.specs.Limits.{last_moment};
ghost use Rattle.fax_job.specs.Pair.{Pair, ArePairs};
ghost use Rattle.fax_job.specs.Spelling.{printed};
ghost use Rattle.fax_value.specs.Value.{IsStatus};
ghost use Rattle.fax_job.specs.declared.job.JobFields.{JobFields as Fields};
ghost use Rattle.fax_job.specs.declared.job.Phase.{Phase as JobPhase};
ghost use Rattle.fax_job.specs.declared.job.Wish.{Wish as JobWish};
ghost use Rattle.fax_tables.specs.Fault.{OrUnavailable};
ghost use Rattle.fax_tables.specs.Job.{IsText, IsFormed, IsLawfulJob, brief, brief_shown, job_shown};
ghost use Rattle.fax_tables.specs.Row.{HasValue, HasValues, HasNumber, phase_number, wish_number};
ghost use Rattle.fax_tables.specs.Tables.{is_over_phase};
ghost use Rattle.sqlite_value.specs.Value.{owned};

use crate::fault::StoreFault;
use crate::row::{moment_at, name_at, number_at, small_at, text_at};
use fax_job::{Dial, Job, JobFields, JobTag, Lines, Moment, Phase, Status, Wish, write_lines};
use fax_lines::read_lines;
use sqlite::Row;
use sqlite::types::ValueRef;
use std::alloc::Global;

/// The number that stands for a phase.
pub fn phase_number(phase: Phase) -> u32
    ensures { result ≡ phase_number phase }
{
    match phase {
        Phase::Held => 0,
        Phase::Waiting => 1,
        Phase::Granted => 2,
        Phase::Done => 3,
        Phase::Failed => 4,
    }
}

/// Whether a job in this phase is over, whatever else the value may be.
pub fn is_over_phase(phase: ValueRef<'_>) -> bool
    ensures { result ≡ is_over_phase (owned phase.entry) }
{
    match phase {
        ValueRef::Int(number) => number == 3 || number == 4,
        _ => false,
    }
}

/// The phase that a number stands for.
fn phase_at(row: &Row, at: usize) -> Result<Phase, StoreFault>
    ensures found { (phase : JobPhase) → HasNumber row.now at (phase_number phase)
        → OrUnavailable result (λ found. found ≡ phase) }
    ensures stands { IfOk result (λ found. HasNumber row.now at (phase_number found)) }
{
    match number_at(row, at)? {
        0 => Ok(Phase::Held),
        1 => Ok(Phase::Waiting),
        2 => Ok(Phase::Granted),
        3 => Ok(Phase::Done),
        4 => Ok(Phase::Failed),
        _ => Err(StoreFault::Strange),
    }
}

/// The number that stands for a wish.
pub fn wish_number(wish: Wish) -> u32
    ensures { result ≡ wish_number wish }
{
    match wish {
        Wish::Go => 0,
        Wish::Hold => 1,
        Wish::Kill => 2,
    }
}

/// The wish that a number stands for.
fn wish_at(row: &Row, at: usize) -> Result<Wish, StoreFault>
    ensures found { (wish : JobWish) → HasNumber row.now at (wish_number wish)
        → OrUnavailable result (λ found. found ≡ wish) }
    ensures stands { IfOk result (λ found. HasNumber row.now at (wish_number found)) }
{
    match number_at(row, at)? {
        0 => Ok(Wish::Go),
        1 => Ok(Wish::Hold),
        2 => Ok(Wish::Kill),
        _ => Err(StoreFault::Strange),
    }
}

/// The number that stands for a kill time, 0 for none.
pub fn killtime_number(killtime: Option<Moment>) -> u32
    ensures number { result ≡ unwrap_or killtime 0 }
    ensures bound { result ≤ last_moment }
{
    match killtime {
        Some(moment) => moment.seconds(),
        None => 0,
    }
}

/// The kill time in a column, where 0 is none.
fn killtime_at(row: &Row, at: usize) -> Result<Option<Moment>, StoreFault>
    ensures found { (killtime : Option ℕ) → HasNumber row.now at (unwrap_or killtime 0)
        → unwrap_or killtime 0 ≤ last_moment → IsTrue (is_lawful_killtime killtime)
        → OrUnavailable result (λ found. found ≡ killtime) }
    ensures stands { IfOk result (λ found. HasNumber row.now at (unwrap_or found 0)) }
{
    let moment = moment_at(row, at)?;
    if moment.seconds() == 0 {
        Ok(None)
    } else {
        Ok(Some(moment))
    }
}

/// The number to dial in a column, which has it in canonical form.
pub fn dial_at(alloc: Global, row: &Row, at: usize) -> Result<Dial, StoreFault>
    ensures found { (text : List ℕ) → HasValue row.now at (Text text) → IsText IsCanonical text
        → OrUnavailable result (λ found. found ≡ text) }
    ensures stands { IfOk result (λ found. HasValue row.now at (Text found)) }
{
    let text = text_at(row, at)?;
    canonical(alloc, text.as_str())
}

/// The number to dial in a row of it.
pub fn dial_in(alloc: Global, row: &Row) -> Result<Dial, StoreFault>
    ensures found { (text : List ℕ) → row.now ≡ Text text ∷ [] → IsText IsCanonical text
        → OrUnavailable result (λ found. found ≡ text) }
    ensures stands { IfOk result (λ found. HasValue row.now 0 (Text found)) }
{
    dial_at(alloc, row, 0)
}

/// The number that a text in canonical form is.
#[tactic(auto, using(crate::proofs::TextLemmas::dial_kept))]
fn canonical(alloc: Global, text: &str) -> Result<Dial, StoreFault>
    ensures found { (number : List ℕ) → text.now ≡ number → IsText IsCanonical number
        → OrUnavailable result (λ dial. dial ≡ number) }
    ensures stands { IfOk result (λ dial. dial ≡ text.now) }
{
    let dial = Dial::read(alloc, text)?;
    if dial.text() == text {
        Ok(dial)
    } else {
        Err(StoreFault::Strange)
    }
}

/// The client's tag in a column.
fn jobtag_at(alloc: Global, row: &Row, at: usize) -> Result<JobTag, StoreFault>
    ensures found { (text : List ℕ) → HasValue row.now at (Text text) → IsText IsJobTag text
        → OrUnavailable result (λ found. found ≡ text) }
    ensures stands { IfOk result (λ found. HasValue row.now at (Text found)) }
{
    let text = text_at(row, at)?;
    Ok(JobTag::read(alloc, text.as_str())?)
}

/// The status in a column.
fn status_at(alloc: Global, row: &Row, at: usize) -> Result<Status, StoreFault>
    ensures found { (text : List ℕ) → HasValue row.now at (Text text) → IsText IsStatus text
        → OrUnavailable result (λ found. found ≡ text) }
    ensures stands { IfOk result (λ found. HasValue row.now at (Text found)) }
{
    let text = text_at(row, at)?;
    status_of(alloc, text.as_str())
}

/// The status that a text is.
fn status_of(alloc: Global, text: &str) -> Result<Status, StoreFault>
    ensures found { (status : List ℕ) → text.now ≡ status → IsText IsStatus status
        → OrUnavailable result (λ found. found ≡ status) }
    ensures stands { IfOk result (λ found. found ≡ text.now) }
{
    Ok(Status::read(alloc, text)?)
}

/// The lines in a column, which has their printed spelling.
fn lines_at(alloc: Global, row: &Row, at: usize) -> Result<Lines, StoreFault>
    ensures found { (lines : List Pair) → HasValue row.now at (Text (printed lines)) → IsUtf8 (printed lines)
        → ArePairs lines → OrUnavailable result (λ found. found ≡ lines) }
    ensures stands { IfOk result (λ found. HasValue row.now at (Text (printed found))) }
{
    let text = text_at(row, at)?;
    spelled(alloc, text.as_bytes())
}

/// The lines that a text in printed spelling spells.
fn spelled(alloc: Global, text: &[u8]) -> Result<Lines, StoreFault>
    ensures found { (lines : List Pair) → text.now ≡ printed lines → ArePairs lines
        → OrUnavailable result (λ found. found ≡ lines) }
    ensures stands { IfOk result (λ found. printed found ≡ text.now) }
{
    let lines = read_lines(alloc, text)?;
    let spelling = write_lines(alloc, &lines)?;
    if spelling.as_slice() == text {
        Ok(lines)
    } else {
        Err(StoreFault::Strange)
    }
}

/// The printed spelling of lines.
#[tactic(auto, using(crate::proofs::TextLemmas::lines_kept))]
pub fn spelling(alloc: Global, lines: &Lines) -> Result<String, StoreFault>
    ensures spelled { OrUnavailable result (λ text. string_bytes text ≡ printed lines.now) }
    ensures lawful { ArePairs lines.now }
{
    let bytes = write_lines(alloc, lines)?;
    match String::from_utf8(bytes) {
        Ok(text) => Ok(text),
        Err(_) => Err(StoreFault::Strange),
    }
}

/// The priority in a column.
pub(crate) fn priority_at(row: &Row, at: usize) -> Result<u8, StoreFault>
    ensures found { (n : ℕ) → HasNumber row.now at n → n < 256 → OrUnavailable result (λ priority. priority ≡ n) }
    ensures stands { IfOk result (HasNumber row.now at) }
{
    let number = number_at(row, at)?;
    match u8::try_from(number) {
        Ok(priority) => Ok(priority),
        Err(_) => Err(StoreFault::Strange),
    }
}

/// The job in a row of all columns, the extra lines last.
pub fn job_in(alloc: Global, row: &Row) -> Result<Job, StoreFault>
    ensures found { (job : Fields) → row.now ≡ job_shown job → IsLawful job → IsFormed job
        → OrUnavailable result (λ found. found ≡ job) }
    ensures stands { IfOk result (λ found. HasValues row.now 0 (job_shown found)) }
{
    let extra = lines_at(alloc, row, 19)?;
    let fields = fields_in(alloc, row, extra)?;
    match Job::new(fields) {
        Some(job) => Ok(job),
        None => Err(StoreFault::Strange),
    }
}

/// The job in a row of all columns but the extra lines, without any.
pub fn brief_in(alloc: Global, row: &Row) -> Result<Job, StoreFault>
    ensures found { (job : Fields) → row.now ≡ brief_shown job → IsLawful job → IsFormed job
        → OrUnavailable result (λ found. found ≡ brief job) }
    ensures stands { IfOk result (λ found. HasValues row.now 0 (brief_shown found) × (found.extra ≡ [])) }
{
    let fields = fields_in(alloc, row, Lines::new(alloc))?;
    match Job::new(fields) {
        Some(job) => Ok(job),
        None => Err(StoreFault::Strange),
    }
}

/// The jobs in rows of all columns but the extra lines, without any, in their order.
pub fn briefs_in(alloc: Global, rows: &[Row]) -> Result<Vec<Job>, StoreFault>
    ensures found { (jobs : List OneJob) → rows.now ≡ map (λ j. brief_shown (fields_of j)) jobs → All IsLawfulJob jobs
        → OrUnavailable result (λ found. found.items ≡ map (λ j. brief (fields_of j)) jobs) }
    ensures stands { IfOk result (λ found. map (take 19) rows.now ≡ map brief_shown found.items) }
    ensures bare { IfOk result (λ found. map brief found.items ≡ found.items) }
{
    let mut jobs = Vec::new(alloc);
    for row in rows {
        let job = brief_in(alloc, row)?;
        if jobs.push(job).is_err() {
            return Err(StoreFault::Unavailable);
        }
    }
    Ok(jobs)
}

/// The fields in a row that begins with all columns but the extra lines, with these extra lines.
fn fields_in(alloc: Global, row: &Row, extra: Lines) -> Result<JobFields, StoreFault>
    ensures found { (job : Fields) (behind : Values) → row.now ≡ brief_shown job ++ behind → IsLawful job → IsFormed job
        → OrUnavailable result (λ found. found ≡ record job { extra = extra }) }
    ensures stands { IfOk result (λ found. HasValues row.now 0 (brief_shown found) × (found.extra ≡ extra)) }
{
    Ok(JobFields {
        job: number_at(row, 0)?,
        dial: dial_at(alloc, row, 1)?,
        modem: name_at(alloc, row, 2)?,
        jobtag: jobtag_at(alloc, row, 3)?,
        status: status_at(alloc, row, 4)?,
        tts: moment_at(row, 5)?,
        killtime: killtime_at(row, 6)?,
        priority: priority_at(row, 7)?,
        npages: small_at(row, 8)?,
        totpages: small_at(row, 9)?,
        ntries: small_at(row, 10)?,
        tottries: small_at(row, 11)?,
        maxtries: small_at(row, 12)?,
        ndials: small_at(row, 13)?,
        totdials: small_at(row, 14)?,
        maxdials: small_at(row, 15)?,
        phase: phase_at(row, 16)?,
        wish: wish_at(row, 17)?,
        next: number_at(row, 18)?,
        extra,
    })
}
