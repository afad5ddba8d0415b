//! What workers report, what a client gives up, and which jobs are to be purged, from the JSON (RFC 8259) of a body.

ghost use Rattle.std.specs.Prelude.{◌≡◌, ◌≤◌, IfOk, IfErr, IfSome};
ghost use Rattle.fax_value.specs.Value.{IsStatus};
ghost use Rattle.std.specs.List.{list_all};
ghost use Rattle.std.specs.Option.{option_copied, option_map};
ghost use Rattle.fax_ask.specs.Report.{IsJson, IsJsonRefusal, IsReportRefusal, Reports, before_in, begins_with_space, bool_at, call_in, call_named, ending_named, is_reason, is_reason_byte, moment_of, number_at, outcome_in, outcome_read, page_in, reason_at, reason_of, report_in, text_at, upto_in, within};
ghost use Rattle.fax_job.specs.declared.refusal.Refusal.TheVariants.{Unavailable};
ghost use Rattle.serde_json.specs.Errors.{IsMemory};
ghost use Rattle.serde_json.specs.Find.{get};
ghost use Rattle.serde_json.specs.View.{view};

use crate::request::ReportKind;
use fax_core::{Ending, Outcome, Report};
use fax_job::limits::{LAST_MOMENT, MOST_PAGES};
use fax_job::{BodyFault, Call, Moment, Refusal, RequestNumber, Status, ends_with_backslash};
use serde_json::{Error, Value};
use std::alloc::{AllocError, Global};

/// An outcome whose reason still stands in its JSON.
#[derive(Clone, Copy)]
pub struct OutcomeText<'a> {
    dialed: bool,
    pages: u16,
    ending: Ending,
    reason: &'a str,
}

const BAD_JSON: Refusal = Refusal::BadBody(BodyFault::BadJson);

const BAD_FIELD: Refusal = Refusal::BadBody(BodyFault::BadField);

/// What a worker reports, by a body.
#[tactic(auto, using(crate::proofs::ReportLemmas::json_refused))]
pub(crate) fn read_report(alloc: Global, kind: ReportKind, body: &[u8]) -> Result<Report, Refusal>
    ensures report { IfOk result (Reports (report_in kind) body.now) }
    ensures refused { IfErr result (IsReportRefusal (report_in kind) body.now) }
{
    let json = read_json(alloc, body)?;
    match kind {
        ReportKind::Call => Ok(Report::Call(call_in(&json).ok_or(BAD_FIELD)?)),
        ReportKind::Page => Ok(Report::Page(page_in(&json).ok_or(BAD_FIELD)?)),
        ReportKind::Outcome => {
            let outcome = outcome_in(&json).ok_or(BAD_FIELD)?;
            Ok(Report::Outcome(keep_reason(alloc, outcome)?))
        }
    }
}

/// Through which number the client gives up its replies, by a body.
#[tactic(auto, using(crate::proofs::ReportLemmas::json_refused))]
pub(crate) fn read_upto(alloc: Global, body: &[u8]) -> Result<RequestNumber, Refusal>
    ensures upto { IfOk result (Reports upto_in body.now) }
    ensures refused { IfErr result (IsReportRefusal upto_in body.now) }
{
    let json = read_json(alloc, body)?;
    match upto_in(&json) {
        Some(upto) => Ok(upto),
        None => Err(BAD_FIELD),
    }
}

/// The moment before which jobs that are to be purged ended, by a body.
#[tactic(auto, using(crate::proofs::ReportLemmas::json_refused))]
pub(crate) fn read_before(alloc: Global, body: &[u8]) -> Result<Moment, Refusal>
    ensures before { IfOk result (Reports before_in body.now) }
    ensures refused { IfErr result (IsReportRefusal before_in body.now) }
{
    let json = read_json(alloc, body)?;
    match before_in(&json) {
        Some(before) => Ok(before),
        None => Err(BAD_FIELD),
    }
}

/// The outcome with a reason of its own. The only error is out of memory.
fn keep_reason(alloc: Global, outcome: OutcomeText<'_>) -> Result<Outcome, AllocError>
    requires { IsStatus outcome.reason.now }
    ensures { IfOk result (λ kept. kept ≡ outcome_read outcome.entry) }
{
    let reason = Status::given(alloc, outcome.reason)?;
    Ok(Outcome {
        dialed: outcome.dialed,
        pages: outcome.pages,
        ending: outcome.ending,
        reason,
    })
}

fn read_json(alloc: Global, body: &[u8]) -> Result<Value, Refusal>
    ensures json { IfOk result (λ json. IsJson body.now (view json)) }
    ensures refused { IfErr result (IsJsonRefusal body.now) }
{
    match Value::from_slice(alloc, body) {
        Ok(json) => Ok(json),
        Err(error) => Err(refusal_of(&error)),
    }
}

/// Why a body that didn't read is refused.
fn refusal_of(error: &Error) -> Refusal
    ensures memory { IsMemory error.now → result ≡ Unavailable }
    ensures text { ¬ IsMemory error.now → result ≡ Refusal.BadBody BodyFault.BadJson }
{
    if error.is_memory() {
        Refusal::Unavailable
    } else {
        BAD_JSON
    }
}

// ---- reports

#[tactic(auto, unfolding(crate::specs::Report::call_in))]
fn call_in(json: &Value) -> Option<Call>
    ensures { result ≡ call_in (view json.now) }
{
    call_named(text_at(json, "result")?)
}

fn call_named(name: &str) -> Option<Call>
    ensures { result ≡ call_named name.now }
{
    match name {
        "connected" => Some(Call::Connected),
        "busy" => Some(Call::Busy),
        "no-answer" => Some(Call::NoAnswer),
        "no-carrier" => Some(Call::NoCarrier),
        "other" => Some(Call::Other),
        _ => None,
    }
}

#[tactic(auto, unfolding(crate::specs::Report::page_in))]
fn page_in(json: &Value) -> Option<u16>
    ensures { result ≡ page_in (view json.now) }
{
    within(1, u64::from(MOST_PAGES), number_at(json, "page")?)
}

#[tactic(auto, unfolding(crate::specs::Report::outcome_in))]
fn outcome_in(json: &Value) -> Option<OutcomeText<'_>>
    ensures read { option_map outcome_read result ≡ outcome_in (view json.now) }
    ensures status { IfSome result (λ outcome. IsStatus outcome.reason.now) }
{
    let dialed = bool_at(json, "dialed")?;
    let pages = within(0, u64::from(MOST_PAGES), number_at(json, "pages")?)?;
    let ending = ending_named(text_at(json, "outcome")?)?;
    let reason = reason_at(json.get("reason"))?;
    Some(OutcomeText {
        dialed,
        pages,
        ending,
        reason,
    })
}

#[tactic(auto, unfolding(crate::specs::Report::upto_in))]
fn upto_in(json: &Value) -> Option<RequestNumber>
    ensures { result ≡ upto_in (view json.now) }
{
    RequestNumber::new(number_at(json, "upto")?)
}

#[tactic(auto, unfolding(crate::specs::Report::before_in))]
fn before_in(json: &Value) -> Option<Moment>
    ensures { result ≡ before_in (view json.now) }
{
    moment(number_at(json, "before")?)
}

/// The moment of that many seconds, if there is one.
fn moment(seconds: u64) -> Option<Moment>
    ensures { result ≡ moment_of seconds }
{
    if seconds <= u64::from(LAST_MOMENT) {
        Some(Moment::new(seconds))
    } else {
        None
    }
}

fn ending_named(name: &str) -> Option<Ending>
    ensures { result ≡ ending_named name.now }
{
    match name {
        "done" => Some(Ending::Done),
        "retry" => Some(Ending::Retry),
        "fail" => Some(Ending::Fail),
        _ => None,
    }
}

// ---- reasons

/// The reason that a member gives; the empty text where it is missing.
fn reason_at(json: Option<&Value>) -> Option<&str>
    ensures read { option_copied result ≡ reason_at (option_map (λ j. view j.now) json.entry) }
    ensures status { IfSome result (λ reason. IsStatus reason.now) }
{
    match json {
        Some(json) => reason_of(json.as_str()?),
        None => Some(""),
    }
}

#[tactic(auto, using(crate::proofs::ReportLemmas::reason_is_status))]
fn reason_of(text: &str) -> Option<&str>
    ensures read { option_copied result ≡ reason_of text.now }
    ensures status { IfSome result (λ reason. IsStatus reason.now) }
{
    if is_reason(text.as_bytes()) {
        Some(text)
    } else {
        None
    }
}

fn is_reason(text: &[u8]) -> bool
    ensures { result ≡ is_reason text.now }
{
    text.len() <= 200
        && !begins_with_space(text)
        && !ends_with_backslash(text)
        && is_of_reason_bytes(text)
}

fn begins_with_space(text: &[u8]) -> bool
    ensures { result ≡ begins_with_space text.now }
{
    match text {
        [byte, ..] => *byte == b' ',
        [] => false,
    }
}

fn is_of_reason_bytes(text: &[u8]) -> bool
    ensures { result ≡ list_all is_reason_byte text.now }
{
    text.iter().all(|byte| 32 <= *byte && *byte != 127)
}

// ---- members of an object

fn text_at<'a>(json: &'a Value, key: &str) -> Option<&'a str>
    ensures { option_copied result ≡ text_at key.now (view json.now) }
{
    json.get(key)?.as_str()
}

fn bool_at(json: &Value, key: &str) -> Option<bool>
    ensures { result ≡ bool_at key.now (view json.now) }
{
    json.get(key)?.as_bool()
}

/// A number whose text has digits only.
fn number_at(json: &Value, key: &str) -> Option<u64>
    ensures { result ≡ number_at key.now (view json.now) }
{
    json.get(key)?.as_u64()
}

fn within(least: u64, greatest: u64, number: u64) -> Option<u16>
    requires { greatest ≤ u16.MAX }
    ensures { result ≡ within least greatest number }
{
    if least <= number && number <= greatest {
        Some(number as u16)
    } else {
        None
    }
}
