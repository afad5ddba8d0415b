//! Jobs.

ghost use Rattle.std.specs.Prelude.{◌≡◌, ◌<◌, ◌^◌, ◌++◌, ◌∷◌, [], OnOk, unwrap_or};
ghost use Rattle.std.specs.Fmt.{decimal};
ghost use Rattle.std.specs.List.{AllByRecursion};
ghost use Rattle.std.specs.Str.{IsUtf8};
ghost use Rattle.fax_job.specs.Job.{is_lawful_killtime};
ghost use Rattle.fax_job.specs.JobLines.{order_lines, counter_lines};
ghost use Rattle.fax_job.specs.Pair.{pair, IsPair, are_unknown};

use crate::line_text::LineText;
use crate::lines::Lines;
use crate::tag::is_known;
use fax_value::limits::{LAST_JOB, LAST_NEXT, MOST_ATTEMPTS, MOST_PAGES};
use fax_value::{Dial, JobTag, Moment, Name, Status};
use std::alloc::{AllocError, Global};
use std::marker::Model;

/// Where a job stands.
#[derive(Clone, Copy, Debug, PartialEq, Eq)]
pub enum Phase {
    /// Suspended by its client.
    Held,
    Waiting,
    /// Handed to a modem.
    Granted,
    Done,
    Failed,
}

/// What a client wishes for a job while it is granted.
#[derive(Clone, Copy, Debug, PartialEq, Eq)]
pub enum Wish {
    Go,
    Hold,
    Kill,
}

/// How a call went.
#[derive(Clone, Copy, Debug, PartialEq, Eq)]
pub enum Call {
    Connected,
    Busy,
    NoAnswer,
    NoCarrier,
    Other,
}

/// What is recorded of a job.
#[derive(Drop)]
pub struct JobFields {
    /// The job's number, from 1 to 999999.
    pub job: u32,
    pub dial: Dial,
    /// A modem's name, the name of a class of modems, or `any`.
    pub modem: Name,
    pub jobtag: JobTag,
    /// The time to send.
    pub tts: Moment,
    pub killtime: Option<Moment>,
    /// Lower goes first.
    pub priority: u8,
    /// Pages sent.
    pub npages: u16,
    /// All pages, from 1 to 9999.
    pub totpages: u16,
    /// Tries of the page that is next.
    pub ntries: u16,
    pub tottries: u16,
    /// From 1 to 1000.
    pub maxtries: u16,
    /// Dials since the last connected call.
    pub ndials: u16,
    pub totdials: u16,
    /// From 1 to 1000.
    pub maxdials: u16,
    pub phase: Phase,
    pub wish: Wish,
    /// The moment from which the job may be tried again, in seconds, at most 4102531200.
    pub next: u32,
    pub status: Status,
    /// The lines whose tags a job description doesn't know.
    pub extra: Lines,
}

/// A job within the limits of the queue.
pub struct Job {
    fields: JobFields,
}

// By hand, so that a proof lets it go in one step.
impl Drop for Job {
    fn drop(self) {
        let Job { fields: _ } = self;
    }
}

impl Model for Job {
    ghost use Rattle.fax_job.specs.declared.job.JobFields.{JobFields};
    ghost use Rattle.fax_job.specs.Job.{IsLawful};

    ghost Value = { JobFields };

    ghost view = { λ job. job.fields };

    ghost invariant = { λ job. IsLawful job.fields };
}

impl JobFields {
    ghost use Rattle.std.specs.Prelude.{◌≡◌};
    ghost use Rattle.fax_job.specs.Job.{is_lawful, are_lawful_pages, are_lawful_tries, are_lawful_dials};

    fn is_lawful(&self) -> bool
        ensures { result ≡ is_lawful self.now }
    {
        1 <= self.job
            && self.job <= LAST_JOB
            && is_lawful_killtime(self.killtime)
            && self.are_lawful_pages()
            && self.are_lawful_tries()
            && self.are_lawful_dials()
            && self.next <= LAST_NEXT
            && has_unknown_tags(&self.extra)
    }

    fn are_lawful_pages(&self) -> bool
        ensures { result ≡ are_lawful_pages self.now }
    {
        self.npages <= self.totpages && 1 <= self.totpages && self.totpages <= MOST_PAGES
    }

    fn are_lawful_tries(&self) -> bool
        ensures { result ≡ are_lawful_tries self.now }
    {
        self.ntries <= self.tottries
            && self.tottries <= self.maxtries
            && 1 <= self.maxtries
            && self.maxtries <= MOST_ATTEMPTS
    }

    fn are_lawful_dials(&self) -> bool
        ensures { result ≡ are_lawful_dials self.now }
    {
        self.ndials <= self.totdials
            && self.totdials <= self.maxdials
            && 1 <= self.maxdials
            && self.maxdials <= MOST_ATTEMPTS
    }
}

impl Job {
    ghost use Rattle.std.specs.Prelude.{◌≡◌, IsTrue, IfOk, Some, None, if◌then◌else◌};
    ghost use Rattle.fax_job.specs.Job.{is_lawful, IsLawful};
    ghost use Rattle.fax_job.specs.JobLines.{job_lines};

    /// The job of these fields, where its number is from 1 to 999999, its kill time not 0 (which stands
    /// for none), its pages from 1 to 9999 with no more sent, its limits from 1 to 1000 with no more
    /// tries or dials in all, and of these no more in a row, its next time at most 4102531200, and none
    /// of its extra lines of a known tag.
    pub fn new(fields: JobFields) -> Option<Job>
        ensures { result ≡ (if is_lawful fields then Some fields else None) }
    {
        if fields.is_lawful() {
            Some(Job { fields })
        } else {
            None
        }
    }

    pub fn fields(&self) -> &JobFields
        ensures fields { result.now ≡ self.now }
        ensures lawful { IsLawful self.now }
    {
        &self.fields
    }

    pub fn into_fields(self) -> JobFields
        ensures fields { result ≡ self }
        ensures lawful { IsLawful self }
    {
        let Job { fields } = self;
        fields
    }

    /// The job as key lines: the seventeen known tags, then the extra lines.
    pub fn lines_at(&self, alloc: Global, state: u8) -> Result<Lines, AllocError>
        ensures { IfOk result (λ lines. lines ≡ job_lines self.now state) }
    {
        let fields = &self.fields;
        let mut lines = LineText::new(alloc);
        push_order(alloc, &mut lines, fields)?;
        push_counters(alloc, &mut lines, fields)?;
        push_number(alloc, &mut lines, "state", u32::from(state))?;
        lines.push("status", fields.status.text())?;
        push_copies(&mut lines, fields.extra.as_text())?;
        Ok(Lines::from_text(lines))
    }
}

fn is_lawful_killtime(killtime: Option<Moment>) -> bool
    ensures { result ≡ is_lawful_killtime killtime }
{
    match killtime {
        Some(moment) => moment.seconds() >= 1,
        None => true,
    }
}

fn has_unknown_tags(lines: &Lines) -> bool
    ensures { result ≡ are_unknown lines.now }
{
    for index in 0..lines.len() {
        if is_known(lines.line(index).tag()) {
            return false;
        }
    }
    true
}

fn push_order(alloc: Global, text: &mut LineText, fields: &JobFields) -> Result<(), AllocError>
    ensures pushed { OnOk result (text.new ≡ text.old ++ order_lines fields.now) }
    ensures formed { OnOk result (AllByRecursion IsPair (order_lines fields.now)) }
{
    push_number(alloc, text, "jobid", fields.job)?;
    text.push("number", fields.dial.text())?;
    text.push("modem", fields.modem.as_str())?;
    text.push("jobtag", fields.jobtag.as_str())?;
    push_number(alloc, text, "tts", fields.tts.seconds())?;
    push_number(alloc, text, "killtime", seconds(fields.killtime))?;
    push_number(alloc, text, "priority", u32::from(fields.priority))?;
    Ok(())
}

/// The seconds of a moment, 0 where there is none.
fn seconds(moment: Option<Moment>) -> u32
    ensures { result ≡ unwrap_or moment 0 }
{
    match moment {
        Some(moment) => moment.seconds(),
        None => 0,
    }
}

fn push_counters(alloc: Global, text: &mut LineText, fields: &JobFields) -> Result<(), AllocError>
    ensures pushed { OnOk result (text.new ≡ text.old ++ counter_lines fields.now) }
    ensures formed { OnOk result (AllByRecursion IsPair (counter_lines fields.now)) }
{
    push_number(alloc, text, "npages", u32::from(fields.npages))?;
    push_number(alloc, text, "totpages", u32::from(fields.totpages))?;
    push_number(alloc, text, "ntries", u32::from(fields.ntries))?;
    push_number(alloc, text, "tottries", u32::from(fields.tottries))?;
    push_number(alloc, text, "maxtries", u32::from(fields.maxtries))?;
    push_number(alloc, text, "ndials", u32::from(fields.ndials))?;
    push_number(alloc, text, "totdials", u32::from(fields.totdials))?;
    push_number(alloc, text, "maxdials", u32::from(fields.maxdials))?;
    Ok(())
}

fn push_number(alloc: Global, text: &mut LineText, tag: &str, number: u32) -> Result<(), AllocError>
    ensures pushed { OnOk result (text.new ≡ text.old ++ pair tag.now (decimal number) ∷ []) }
    ensures bound { number < 2 ^ 32 }
{
    let value = number.to_string(alloc)?;
    text.push(tag, value.as_str())
}

#[tactic(auto, using(crate::proofs::ListLemmas::copied_next))]
fn push_copies(text: &mut LineText, extra: &LineText) -> Result<(), AllocError>
    ensures { OnOk result (text.new ≡ text.old ++ extra.now) }
{
    for index in 0..extra.len() {
        let line = extra.line(index);
        text.push(line.tag(), line.value())?;
    }
    Ok(())
}
