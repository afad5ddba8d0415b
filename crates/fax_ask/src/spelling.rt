//! The bodies of replies as JSON texts (RFC 8259), their keys in ascending order of their bytes.

ghost use Rattle.std.specs.Prelude.{◌≡◌, ◌≤◌, IfOk, length, string_bytes};
ghost use Rattle.fax_ask.specs.Answer.{grant_told};
ghost use Rattle.fax_ask.specs.Response.{bool_text, fault_bytes, handed_keys, line_key as line_key_bytes, refusal_bytes, refused_body, reply_body};
ghost use Rattle.fax_core.specs.Reply.{Called, Confirmed, Floored, Given, HeldGrant, Marked, Notice, Pages, Purged, Stands, Submitted};
ghost use Rattle.fax_job.specs.declared.refusal.Refusal.TheVariants.{ModemBusy, PageOrder, Rejected};
ghost use Rattle.json.specs.Print.{quoted};

use crate::answer::Handed;
use arrayvec::ArrayString;
use fax_job::{BodyFault, Refusal};
use serde_json::Value;
use std::alloc::{AllocError, Global};

/// Room for the body of a refusal, in bytes.
pub(crate) const SHORT_BODY: usize = 96;

pub(crate) type ShortText = ArrayString<SHORT_BODY>;

// ---- accepted requests

pub(crate) fn submitted_text(alloc: Global, job: u32) -> Result<String, AllocError>
    ensures { IfOk result (λ text. string_bytes text ≡ reply_body (Submitted job)) }
{
    format!(in alloc; "{{\"job\":{job}}}")
}

pub(crate) fn stands_text(alloc: Global, job: u32, state: u8) -> Result<String, AllocError>
    ensures { IfOk result (λ text. string_bytes text ≡ reply_body (Stands job state)) }
{
    format!(in alloc; "{{\"job\":{job},\"state\":{state}}}")
}

pub(crate) fn marked_text(alloc: Global, down: bool) -> Result<String, AllocError>
    ensures { IfOk result (λ text. string_bytes text ≡ reply_body (Marked down)) }
{
    let down = bool_text(down);
    format!(in alloc; "{{\"down\":{down}}}")
}

pub(crate) fn given_text(alloc: Global, handed: &Handed<'_>) -> Result<String, AllocError>
    ensures { IfOk result (λ text. string_bytes text ≡ reply_body (Given (grant_told handed.now))) }
{
    let keys = handed_keys(alloc, handed)?;
    format!(in alloc; "{{{keys}}}")
}

pub(crate) fn called_text(alloc: Global, stop: bool) -> Result<String, AllocError>
    ensures { IfOk result (λ text. string_bytes text ≡ reply_body (Called stop)) }
{
    let stop = bool_text(stop);
    format!(in alloc; "{{\"stop\":{stop}}}")
}

pub(crate) fn confirmed_text(alloc: Global, npages: u16, stop: bool) -> Result<String, AllocError>
    ensures { IfOk result (λ text. string_bytes text ≡ reply_body (Confirmed npages stop)) }
{
    let stop = bool_text(stop);
    format!(in alloc; "{{\"npages\":{npages},\"stop\":{stop}}}")
}

pub(crate) fn floored_text(alloc: Global, floor: u64) -> Result<String, AllocError>
    ensures { IfOk result (λ text. string_bytes text ≡ reply_body (Floored floor)) }
{
    format!(in alloc; "{{\"floor\":{floor}}}")
}

pub(crate) fn purged_text(alloc: Global, jobs: u16) -> Result<String, AllocError>
    ensures { IfOk result (λ text. string_bytes text ≡ reply_body (Purged jobs)) }
{
    format!(in alloc; "{{\"purged\":{jobs}}}")
}

// ---- refused requests

/// The body of a refusal that says no more than its number and word.
#[tactic(auto, using(crate::proofs::ResponseLemmas::short_word))]
pub(crate) fn refusal_text(refusal: Refusal) -> ShortText
    ensures { result.bytes ≡ refusal_bytes refusal }
{
    let mut number = itoa::Buffer::new();
    let mut body = ArrayString::new();
    body.push_str("{\"no\":");
    body.push_str(number.format(refusal.number()));
    body.push_str(",\"word\":\"");
    body.push_str(refusal.word());
    body.push_str("\"}");
    body
}

/// The body of a refusal for a fault of a body: its kind, and its line where it has one.
#[tactic(auto, using(crate::proofs::ResponseLemmas::short_kind))]
pub(crate) fn fault_text(fault: BodyFault) -> ShortText
    ensures { result.bytes ≡ fault_bytes fault }
{
    let mut body = ArrayString::new();
    body.push_str("{\"kind\":\"");
    body.push_str(fault.word());
    body.push_str("\",");
    body.push_str(line_key(fault.line()).as_str());
    body.push_str("\"no\":6,\"word\":\"bad-body\"}");
    body
}

/// The key of the line at fault, where there is one.
fn line_key(line: Option<u64>) -> ShortText
    ensures text { result.bytes ≡ line_key_bytes line }
    ensures short { length result.bytes ≤ 28 }
{
    let mut key = ArrayString::new();
    if let Some(line) = line {
        let mut number = itoa::Buffer::new();
        key.push_str("\"line\":");
        key.push_str(number.format(line));
        key.push_str(",");
    }
    key
}

pub(crate) fn rejected_text(alloc: Global, notice: &str) -> Result<String, AllocError>
    ensures { IfOk result (λ text. string_bytes text ≡ refused_body Rejected (Notice notice.now)) }
{
    let no = Refusal::Rejected.number();
    let notice = quoted(alloc, notice)?;
    let word = Refusal::Rejected.word();
    format!(in alloc; "{{\"no\":{no},\"notice\":{notice},\"word\":\"{word}\"}}")
}

pub(crate) fn held_text(
    alloc: Global,
    called: bool,
    handed: &Handed<'_>,
) -> Result<String, AllocError>
    ensures { IfOk result (λ text.
        string_bytes text ≡ refused_body ModemBusy (HeldGrant called (grant_told handed.now))) }
{
    let called = bool_text(called);
    let keys = handed_keys(alloc, handed)?;
    let no = Refusal::ModemBusy.number();
    let word = Refusal::ModemBusy.word();
    format!(in alloc; "{{\"held\":{{\"called\":{called},{keys}}},\"no\":{no},\"word\":\"{word}\"}}")
}

pub(crate) fn page_order_text(alloc: Global, npages: u16) -> Result<String, AllocError>
    ensures { IfOk result (λ text. string_bytes text ≡ refused_body PageOrder (Pages npages)) }
{
    let no = Refusal::PageOrder.number();
    let word = Refusal::PageOrder.word();
    format!(in alloc; "{{\"no\":{no},\"npages\":{npages},\"word\":\"{word}\"}}")
}

// ---- parts

fn bool_text(value: bool) -> &'static str
    ensures { result.now ≡ bool_text value }
{
    if value { "true" } else { "false" }
}

/// The keys of a grant.
fn handed_keys(alloc: Global, handed: &Handed<'_>) -> Result<String, AllocError>
    ensures { IfOk result (λ text. string_bytes text ≡ handed_keys (grant_told handed.now)) }
{
    let Handed {
        grant,
        job,
        number,
        from,
        to,
    } = *handed;
    let number = quoted(alloc, number)?;
    format!(in alloc;
        "\"from\":{from},\"grant\":{grant},\"job\":{job},\"number\":{number},\"to\":{to}"
    )
}

/// A text between quotes, escaped (RFC 8259, section 7).
fn quoted(alloc: Global, text: &str) -> Result<String, AllocError>
    ensures { IfOk result (λ text_quoted. string_bytes text_quoted ≡ quoted text.now) }
{
    let value = Value::String(String::from_str(alloc, text)?);
    value.to_string(alloc)
}
