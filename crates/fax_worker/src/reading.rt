//! Answers read from replies.
//!
//! A reply is the queue's answer only if its status and its JSON (RFC 8259) are those that the queue has for the request.
//! Anything else, such as a proxy's page or half a reply, is no answer.

ghost use Rattle.std.specs.Prelude.{◌≡◌, ◌≤◌, IfOk, IfSome, Option, Some, option_and_then};
ghost use Rattle.std.specs.Option.{option_copied, option_map};
ghost use Rattle.fax_value.specs.Limits.{most_pages};
ghost use Rattle.fax_ask.specs.Report.{bool_at, number_at, text_at, within};
ghost use Rattle.fax_core.specs.Run.{Answer as Response, Replied};
ghost use Rattle.fax_worker.specs.Answer.{answer_of, parts_of};
ghost use Rattle.fax_worker.specs.Join.{response_of};
ghost use Rattle.fax_worker.specs.Replies.{IsAnswerTo, IsWritable};
ghost use Rattle.fax_worker.specs.Reading.{IsJsonIfSome, IsRead, answer_in, bad_body_in, called_in, confirmed_in, denied_in, floored_in, handed_in, handed_of, held_in, is_stated, is_zero, npages_in, parts_in, refusal_in, refusal_stated, reply_in, report_reply_in, stands_in, work_in};
ghost use Rattle.fax_job.specs.declared.refusal.Refusal.TheVariants.{ModemBusy, PageOrder, Rejected};
ghost use Rattle.serde_json.specs.Data.{Data};
ghost use Rattle.serde_json.specs.Errors.{IsMemory};
ghost use Rattle.serde_json.specs.Find.{get};
ghost use Rattle.serde_json.specs.View.{view};

use crate::answer::Answer;
use crate::body_fault::fault_stated;
use crate::grant::Handed;
use crate::pending::Pending;
use fax_core::{Ask, Report};
use fax_job::limits::{LAST_JOB, MOST_PAGES};
use fax_job::{BodyFault, Dial, Refusal, TextFault};
use serde_json::Value;
use std::alloc::{AllocError, Global};

/// The refusals that are answers. `Unavailable` isn't: the request may be accepted later. `BadBody` is here for each fault
/// of a body, since they share status, number and word.
static REFUSALS: [Refusal; 29] = [
    Refusal::BadHttp,
    Refusal::TooLarge,
    Refusal::NoRoute,
    Refusal::BadClient,
    Refusal::BadNumber,
    Refusal::BadBody(BodyFault::BadField),
    Refusal::NumberReused,
    Refusal::NoJob,
    Refusal::NoModem,
    Refusal::NoGrant,
    Refusal::Rejected,
    Refusal::TooManyPages,
    Refusal::JobOver,
    Refusal::JobActive,
    Refusal::NotSuspended,
    Refusal::LimitReached,
    Refusal::ModemDown,
    Refusal::ModemBusy,
    Refusal::GrantClosed,
    Refusal::CallKnown,
    Refusal::NotConnected,
    Refusal::PageOrder,
    Refusal::CallMissing,
    Refusal::PagesMismatch,
    Refusal::PagesLeft,
    Refusal::Full,
    Refusal::GivenUp,
    Refusal::FloorHigh,
    Refusal::PurgeHigh,
];

/// A grant whose number to dial is still in its JSON.
#[derive(Clone, Copy)]
pub struct HandedText<'a> {
    grant: u64,
    job: u64,
    number: &'a str,
    from: u64,
    to: u64,
}

impl Pending {
    /// The queue's answer to this request, in a reply of this status and body, if it has one. The only error is out of
    /// memory.
    pub fn read_answer(
        &self,
        alloc: Global,
        status: u16,
        body: &[u8],
    ) -> Result<Option<Answer>, AllocError>
        ensures read { IfOk result (λ read.
            IsRead self.now.ask status body.now (option_map answer_of read)) }
        // Each answer that the queue has for the request is read as itself.
        ensures sent { IfOk result (λ read.
            (answer : Response) → IsAnswerTo self.now.ask answer → IsWritable answer
            → status ≡ (response_of answer).status → body.now ≡ (response_of answer).body
            → option_map answer_of read ≡ Some answer) }
        // Nothing else is read.
        ensures only { IfOk result (λ read. (answer : Response) → option_map answer_of read ≡ Some answer
            → IsAnswerTo self.now.ask answer × (status ≡ (response_of answer).status)) }
    {
        read(alloc, self.ask(), status, body)
    }
}

/// The refusal that a reply of this status and body states, if it is one of those that are answers. The only error is out
/// of memory.
pub fn read_refusal(alloc: Global, status: u16, body: &[u8]) -> Result<Option<Refusal>, AllocError>
    ensures { IfOk result (λ read. (json : Option Data) × IsJsonIfSome body.now json
        × (read ≡ option_and_then (refusal_in status) json)) }
{
    match read_json(alloc, body)? {
        Some(json) => Ok(refusal_in(status, &json)),
        None => Ok(None),
    }
}

/// The answer to a request, in a reply of this status and body.
fn read(alloc: Global, ask: &Ask, status: u16, body: &[u8]) -> Result<Option<Answer>, AllocError>
    ensures { IfOk result (λ read. IsRead ask.now status body.now (option_map answer_of read)) }
{
    let Some(json) = read_json(alloc, body)? else {
        return Ok(None);
    };
    answer_in(alloc, ask, status, &json)
}

/// The JSON that a body is, if it is one.
fn read_json(alloc: Global, body: &[u8]) -> Result<Option<Value>, AllocError>
    ensures { IfOk result (λ read. IsJsonIfSome body.now (option_map view read)) }
{
    match Value::from_slice(alloc, body) {
        Ok(json) => Ok(Some(json)),
        Err(error) if error.is_memory() => Err(AllocError),
        Err(_) => Ok(None),
    }
}

fn answer_in(
    alloc: Global,
    ask: &Ask,
    status: u16,
    json: &Value,
) -> Result<Option<Answer>, AllocError>
    ensures { IfOk result (λ read.
        option_map answer_of read ≡ answer_in ask.now status (view json.now)) }
{
    if status == 200 {
        return reply_in(alloc, ask, json);
    }
    match refusal_in(status, json) {
        Some(refusal) => denied_in(alloc, refusal, json),
        None => Ok(None),
    }
}

// ---- accepted requests

fn reply_in(alloc: Global, ask: &Ask, json: &Value) -> Result<Option<Answer>, AllocError>
    ensures { IfOk result (λ read.
        option_map answer_of read ≡ option_map Replied (reply_in ask.now (view json.now))) }
{
    match ask {
        Ask::Next { modem: _ } => work_in(alloc, json),
        Ask::OnGrant { grant: _, report } => Ok(report_reply_in(report, json)),
        Ask::GiveUp { upto: _ } => Ok(floored_in(json)),
        _ => Ok(None),
    }
}

fn work_in(alloc: Global, json: &Value) -> Result<Option<Answer>, AllocError>
    ensures { IfOk result (λ read.
        option_map answer_of read ≡ option_map Replied (work_in (view json.now))) }
{
    if is_zero(number_at(json, "grant")) {
        return Ok(Some(Answer::NoneToSend));
    }
    match handed_in(alloc, json)? {
        Some(handed) => Ok(Some(Answer::Given(handed))),
        None => Ok(None),
    }
}

fn report_reply_in(report: &Report, json: &Value) -> Option<Answer>
    ensures { option_map answer_of result
        ≡ option_map Replied (report_reply_in report.now (view json.now)) }
{
    match report {
        Report::Call(_) => called_in(json),
        Report::Page(_) => confirmed_in(json),
        Report::Outcome(_) => stands_in(json),
    }
}

#[tactic(auto, unfolding(crate::specs::Reading::called_in))]
fn called_in(json: &Value) -> Option<Answer>
    ensures { option_map answer_of result ≡ option_map Replied (called_in (view json.now)) }
{
    let stop = bool_at(json, "stop")?;
    Some(Answer::Called { stop })
}

#[tactic(auto, unfolding(crate::specs::Reading::confirmed_in))]
fn confirmed_in(json: &Value) -> Option<Answer>
    ensures { option_map answer_of result ≡ option_map Replied (confirmed_in (view json.now)) }
{
    let npages = npages_in(json)?;
    let stop = bool_at(json, "stop")?;
    Some(Answer::Confirmed { npages, stop })
}

#[tactic(auto, unfolding(crate::specs::Reading::stands_in))]
fn stands_in(json: &Value) -> Option<Answer>
    ensures { option_map answer_of result ≡ option_map Replied (stands_in (view json.now)) }
{
    let job = within(1, u64::from(LAST_JOB), number_at(json, "job")?)?;
    let state = within(1, 8, number_at(json, "state")?)?;
    Some(Answer::Stands {
        job,
        state: state as u8,
    })
}

#[tactic(auto, unfolding(crate::specs::Reading::floored_in))]
fn floored_in(json: &Value) -> Option<Answer>
    ensures { option_map answer_of result ≡ option_map Replied (floored_in (view json.now)) }
{
    let floor = number_at(json, "floor")?;
    Some(Answer::Floored { floor })
}

// ---- refused requests

#[tactic(auto, unfolding(crate::specs::Reading::refusal_in))]
fn refusal_in(status: u16, json: &Value) -> Option<Refusal>
    ensures { result ≡ refusal_in status (view json.now) }
{
    let number = number_at(json, "no")?;
    let word = text_at(json, "word")?;
    refusal_stated(status, number, word)
}

/// The refusal of this status, number and word.
fn refusal_stated(status: u16, number: u64, word: &str) -> Option<Refusal>
    ensures { result ≡ refusal_stated status number word.now }
{
    REFUSALS
        .iter()
        .copied()
        .find(|refusal| is_stated(*refusal, status, number, word))
}

fn is_stated(refusal: Refusal, status: u16, number: u64, word: &str) -> bool
    ensures { result ≡ is_stated status number word.now refusal }
{
    refusal.status() == status && u64::from(refusal.number()) == number && refusal.word() == word
}

fn denied_in(alloc: Global, refusal: Refusal, json: &Value) -> Result<Option<Answer>, AllocError>
    ensures { IfOk result (λ read.
        option_map answer_of read ≡ denied_in refusal (view json.now)) }
{
    match refusal {
        Refusal::BadBody(_) => Ok(bad_body_in(json)),
        Refusal::Rejected => rejected_in(alloc, json),
        Refusal::ModemBusy => busy_in(alloc, json),
        Refusal::PageOrder => Ok(page_order_in(json)),
        other => Ok(Some(Answer::Refused(other))),
    }
}

#[tactic(auto, unfolding(crate::specs::Reading::fault_in))]
fn bad_body_in(json: &Value) -> Option<Answer>
    ensures { option_map answer_of result ≡ bad_body_in (view json.now) }
{
    let kind = text_at(json, "kind")?;
    let fault = fault_stated(number_at(json, "line"), kind)?;
    Some(Answer::Refused(Refusal::BadBody(fault)))
}

fn rejected_in(alloc: Global, json: &Value) -> Result<Option<Answer>, AllocError>
    ensures { IfOk result (λ read.
        option_map answer_of read ≡ denied_in Rejected (view json.now)) }
{
    let Some(notice) = text_at(json, "notice") else {
        return Ok(None);
    };
    let notice = String::from_str(alloc, notice)?;
    Ok(Some(Answer::Rejected { notice }))
}

fn busy_in(alloc: Global, json: &Value) -> Result<Option<Answer>, AllocError>
    ensures { IfOk result (λ read.
        option_map answer_of read ≡ denied_in ModemBusy (view json.now)) }
{
    match json.get("held") {
        Some(held) => held_in(alloc, held),
        None => Ok(None),
    }
}

fn held_in(alloc: Global, json: &Value) -> Result<Option<Answer>, AllocError>
    ensures { IfOk result (λ read. option_map answer_of read ≡ held_in (view json.now)) }
{
    let Some(called) = bool_at(json, "called") else {
        return Ok(None);
    };
    match handed_in(alloc, json)? {
        Some(handed) => Ok(Some(Answer::Busy { called, handed })),
        None => Ok(None),
    }
}

fn page_order_in(json: &Value) -> Option<Answer>
    ensures { option_map answer_of result ≡ denied_in PageOrder (view json.now) }
{
    let npages = npages_in(json)?;
    Some(Answer::PageOrder { npages })
}

// ---- grants

fn handed_in(alloc: Global, json: &Value) -> Result<Option<Handed>, AllocError>
    ensures { IfOk result (λ read. read ≡ handed_in (view json.now)) }
{
    match parts_in(json) {
        Some(parts) => handed_of(alloc, parts),
        None => Ok(None),
    }
}

#[tactic(auto, unfolding(crate::specs::Reading::parts_in))]
fn parts_in(json: &Value) -> Option<HandedText<'_>>
    ensures { option_map parts_of result ≡ parts_in (view json.now) }
{
    let grant = number_at(json, "grant")?;
    let job = number_at(json, "job")?;
    let number = text_at(json, "number")?;
    let from = number_at(json, "from")?;
    let to = number_at(json, "to")?;
    Some(HandedText {
        grant,
        job,
        number,
        from,
        to,
    })
}

/// The grant of these parts, with a number to dial of its own.
fn handed_of(alloc: Global, parts: HandedText<'_>) -> Result<Option<Handed>, AllocError>
    ensures { IfOk result (λ read. read ≡ handed_of (parts_of parts.entry)) }
{
    match Dial::read(alloc, parts.number) {
        Ok(number) => Ok(Handed::new(parts.grant, parts.job, number, parts.from, parts.to)),
        Err(TextFault::NoMemory) => Err(AllocError),
        Err(TextFault::Bad) => Ok(None),
    }
}

// ---- members of an object

fn npages_in(json: &Value) -> Option<u16>
    ensures { result ≡ npages_in (view json.now) }
{
    let npages = within(0, u64::from(MOST_PAGES), number_at(json, "npages")?)?;
    Some(npages as u16)
}

fn is_zero(number: Option<u64>) -> bool
    ensures { result ≡ is_zero number }
{
    match number {
        Some(number) => number == 0,
        None => false,
    }
}

fn within(least: u64, greatest: u64, number: u64) -> Option<u32>
    requires { greatest ≤ u32.MAX }
    ensures number { result ≡ within least greatest number }
    ensures most { IfSome result (λ number. number ≤ greatest) }
{
    if least <= number && number <= greatest {
        Some(number as u32)
    } else {
        None
    }
}

fn text_at<'a>(json: &'a Value, key: &str) -> Option<&'a str>
    ensures { option_copied result ≡ text_at key.now (view json.now) }
{
    json.get(key)?.as_str()
}

fn bool_at(json: &Value, key: &str) -> Option<bool>
    ensures { result ≡ bool_at key.now (view json.now) }
{
    json.get(key)?.as_bool()
}

/// A number whose text has digits only.
fn number_at(json: &Value, key: &str) -> Option<u64>
    ensures { result ≡ number_at key.now (view json.now) }
{
    json.get(key)?.as_u64()
}
