//! The request that `faxqd sendfax` sends or prints.

ghost use Rattle.std.specs.Prelude.{◌≡◌, IfOk, codes, string_bytes};
ghost use Rattle.std.specs.Fmt.{decimal};
ghost use Rattle.std.specs.Option.{option_copied, option_map};
ghost use Rattle.fax_value.specs.Gives.{Gives, GivesBy, Tells};
ghost use Rattle.fax_text.specs.Sendfax.{body, client_in, destination_in, is_no_memory, key_line_of, limit_lines, message, moment_in, number_in, request_of, tag_in};

use crate::time::time_in;
use fax_job::{Dial, JobTag, Moment, Name, RequestNumber, TextFault};
use std::alloc::{AllocError, Global};
use thiserror::Error;

/// What the options of `faxqd sendfax` say, with the letters of sendfax(1) where it has them.
#[derive(Clone, Copy)]
pub struct SendPlan<'a> {
    /// `-d`: the number to dial.
    pub destination: &'a str,
    /// `--pages`: from 1 to 9999.
    pub pages: u16,
    /// `--request`: the client's own number of this request.
    pub request: &'a str,
    /// `--client`: who asks.
    pub client: &'a str,
    /// `-P`: lower goes first.
    pub priority: u8,
    /// `-t`: the most tries, from 1 to 1000.
    pub tries: u16,
    /// `-T`: the most dials, from 1 to 1000.
    pub dials: u16,
    /// `-a`: the time to send.
    pub at: Option<&'a str>,
    /// `-k`: the kill time.
    pub kill: Option<&'a str>,
    /// `-i`: the job tag.
    pub tag: Option<&'a str>,
    /// `--moment`: in seconds since 1970-01-01T00:00:00Z, at most 999999999999999999.
    pub moment: Option<u64>,
    /// `--to`: a host and a port to send the request to. Without it the request is printed.
    pub to: Option<&'a str>,
}

/// Why no request can be made of a plan.
#[derive(Clone, Copy, Debug, PartialEq, Eq, Error)]
pub enum SendFault {
    #[error("a bad destination")]
    Destination,
    #[error("a bad time to send")]
    At,
    #[error("a bad kill time")]
    Kill,
    #[error("a bad job tag")]
    Tag,
    #[error("a bad client")]
    Client,
    #[error("a bad number of the request")]
    Request,
    #[error("out of memory")]
    NoMemory,
}

impl SendFault {
    ghost use Rattle.std.specs.Prelude.{◌≡◌};
    ghost use Rattle.fax_text.specs.Sendfax.{fault_word};

    /// The word for it in a fault line.
    pub fn word(self) -> &'static str
        ensures { result.now ≡ fault_word self }
    {
        match self {
            SendFault::Destination => "destination",
            SendFault::At => "at",
            SendFault::Kill => "kill",
            SendFault::Tag => "tag",
            SendFault::Client => "client",
            SendFault::Request => "request",
            SendFault::NoMemory => "no-memory",
        }
    }
}

impl From<AllocError> for SendFault {
    ghost use Rattle.std.specs.Prelude.{◌≡◌};
    ghost use Rattle.fax_text.specs.declared.sendfax.SendFault.TheVariants.{NoMemory};

    ghost from_gives = { λ _ fault. fault ≡ NoMemory };

    fn from(_error: AllocError) -> SendFault {
        SendFault::NoMemory
    }
}

/// The bytes of the request that hands in the plan's job: a `POST /jobs` of HTTP/1.1 (RFC 9112) with the
/// order as key lines. Times are from the given moment on.
///
/// # Errors
///
/// The first text at fault, in the order destination, time to send, kill time, job tag, client, number
/// of the request; or want of memory.
#[tactic(auto, unfolding(crate::specs::Sendfax::request_of))]
pub fn request(alloc: Global, plan: &SendPlan<'_>, moment: Moment) -> Result<Vec<u8>, SendFault>
    ensures { GivesBy (λ text. text.items) is_no_memory result (request_of plan.now moment) }
{
    let dial = destination_in(alloc, plan.destination)?;
    let at = moment_in(plan.at, moment, SendFault::At)?;
    let kill = moment_in(plan.kill, moment, SendFault::Kill)?;
    let tag = tag_in(alloc, plan.tag)?;
    let client = client_in(alloc, plan.client)?;
    let number = number_in(plan.request)?;
    let lines = body(alloc, plan, &dial, at, kill, &tag)?;
    let text = message(alloc, &client, number, lines.as_str())?;
    Ok(text.into_bytes())
}

#[tactic(auto, unfolding(crate::specs::Sendfax::destination_in))]
fn destination_in(alloc: Global, text: &str) -> Result<Dial, SendFault>
    ensures read { Gives is_no_memory result (destination_in text.now) }
    ensures told { Tells result (destination_in text.now) }
{
    match Dial::read(alloc, text) {
        Ok(dial) => Ok(dial),
        Err(TextFault::Bad) => Err(SendFault::Destination),
        Err(TextFault::NoMemory) => Err(SendFault::NoMemory),
    }
}

/// The moment that a text names, if there is a text.
#[tactic(auto, unfolding(crate::specs::Sendfax::moment_in))]
fn moment_in(text: Option<&str>, now: Moment, fault: SendFault) -> Result<Option<Moment>, SendFault>
    ensures { result ≡ moment_in fault now (option_copied text.entry) }
{
    let Some(text) = text else {
        return Ok(None);
    };
    match time_in(text, now) {
        Some(moment) => Ok(Some(moment)),
        None => Err(fault),
    }
}

#[tactic(auto, unfolding(crate::specs::Sendfax::tag_in))]
fn tag_in(alloc: Global, text: Option<&str>) -> Result<Option<JobTag>, SendFault>
    ensures read { Gives is_no_memory result (tag_in (option_copied text.entry)) }
    ensures told { Tells result (tag_in (option_copied text.entry)) }
{
    let Some(text) = text else {
        return Ok(None);
    };
    match JobTag::read(alloc, text) {
        Ok(tag) => Ok(Some(tag)),
        Err(TextFault::Bad) => Err(SendFault::Tag),
        Err(TextFault::NoMemory) => Err(SendFault::NoMemory),
    }
}

#[tactic(auto, unfolding(crate::specs::Sendfax::client_in))]
fn client_in(alloc: Global, text: &str) -> Result<Name, SendFault>
    ensures read { Gives is_no_memory result (client_in text.now) }
    ensures told { Tells result (client_in text.now) }
{
    match Name::read(alloc, text) {
        Ok(name) => Ok(name),
        Err(TextFault::Bad) => Err(SendFault::Client),
        Err(TextFault::NoMemory) => Err(SendFault::NoMemory),
    }
}

#[tactic(auto, unfolding(crate::specs::Sendfax::number_in))]
fn number_in(text: &str) -> Result<RequestNumber, SendFault>
    ensures { result ≡ number_in text.now }
{
    RequestNumber::read(text.as_bytes()).ok_or(SendFault::Request)
}

/// The order as key lines.
fn body(
    alloc: Global,
    plan: &SendPlan<'_>,
    dial: &Dial,
    at: Option<Moment>,
    kill: Option<Moment>,
    tag: &Option<JobTag>,
) -> Result<String, AllocError>
    ensures { IfOk result (λ text. string_bytes text ≡ body plan.now dial.now at kill tag.now) }
{
    let number = dial.text();
    let tts = moment_line(alloc, "tts", at)?;
    let killtime = moment_line(alloc, "killtime", kill)?;
    let limits = limit_lines(alloc, plan)?;
    let jobtag = tag_line(alloc, tag)?;
    format!(in alloc; "number:{number}\n{tts}{killtime}{limits}{jobtag}")
}

/// The key lines that each order has.
fn limit_lines(alloc: Global, plan: &SendPlan<'_>) -> Result<String, AllocError>
    ensures { IfOk result (λ text. string_bytes text ≡ limit_lines plan.now) }
{
    let SendPlan {
        priority,
        pages,
        tries,
        dials,
        ..
    } = *plan;
    format!(in alloc; "priority:{priority}\ntotpages:{pages}\nmaxtries:{tries}\nmaxdials:{dials}\n")
}

/// The key line of a moment, if there is one.
fn moment_line(alloc: Global, tag: &str, moment: Option<Moment>) -> Result<String, AllocError>
    ensures { IfOk result (λ text. string_bytes text ≡ key_line_of tag.now (option_map decimal moment)) }
{
    let Some(moment) = moment else {
        return Ok(String::new(alloc));
    };
    let seconds = moment.seconds();
    format!(in alloc; "{tag}:{seconds}\n")
}

/// The key line of a job tag, if there is one.
fn tag_line(alloc: Global, tag: &Option<JobTag>) -> Result<String, AllocError>
    ensures { IfOk result (λ text. string_bytes text ≡ key_line_of (codes "jobtag") tag.now) }
{
    let Some(tag) = tag else {
        return Ok(String::new(alloc));
    };
    let tag = tag.as_str();
    format!(in alloc; "jobtag:{tag}\n")
}

/// The submission of these key lines.
fn message(
    alloc: Global,
    client: &Name,
    number: RequestNumber,
    lines: &str,
) -> Result<String, AllocError>
    ensures { IfOk result (λ text. string_bytes text ≡ message client.now number lines.now) }
{
    let client = client.as_str();
    let number = number.get();
    let length = lines.len();
    format!(in alloc;
        "POST /jobs HTTP/1.1\r\nHost: localhost\r\nFax-Client: {client}\r\nFax-Number: {number}\r\nContent-Length: {length}\r\n\r\n{lines}"
    )
}
