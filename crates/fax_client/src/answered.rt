//! What a queue answers to a client's request.

ghost use Rattle.std.specs.Prelude.{◌≡◌, IfOk, IfSome, Ok, true};
ghost use Rattle.serde_json.specs.View.{view};
ghost use Rattle.serde_json.specs.Data.{Data};
ghost use Rattle.fax_ask.specs.Ask.{IsAsk};
ghost use Rattle.fax_ask.specs.declared.ask.Ask.TheVariants.{Step};
ghost use Rattle.fax_ask.specs.declared.method.Method.TheVariants.{Post};
ghost use Rattle.fax_client.specs.Answered.{IsAcceptance, IsReadAs, has_value, key_of, report_key, status_of};

use crate::stop::Stop;
use fax_ask::{Ask as Asked, Method, Routes};
use fax_core::{Ask, Report};
use fax_http::Answer;
use fax_job::Refusal;
use fax_journal::Request;
use fax_worker::read_refusal;
use serde_json::Value;
use std::alloc::{AllocError, Global};

/// What the queue answers.
#[derive(Drop)]
pub(crate) enum Answered {
    /// The body of the reply.
    Accepted(Vec<u8>),
    Refused(Refusal),
}

impl Answered {
    /// Whether the request is refused.
    pub(crate) fn is_refused(&self) -> bool {
        matches!(self, Answered::Refused(_))
    }
}

/// What the queue reads from path and body. Nothing, if it refuses them.
pub(crate) fn read_asked(alloc: Global, request: &Request) -> Result<Option<Ask>, Stop>
    ensures { IfOk result (λ asked. IfSome asked (λ ask. IsAsk Post request.now.path request.now.body (Step ask))) }
{
    let routes = Routes::new(alloc)?;
    match routes.read_ask(
        alloc,
        Method::Post,
        request.path.as_str(),
        request.body.as_slice(),
    ) {
        Ok(Asked::Step(ask)) => Ok(Some(ask)),
        Err(Refusal::Unavailable) => Err(Stop::NoMemory),
        _ => Ok(None),
    }
}

/// The queue's answer in a reply, if it is one.
pub(crate) fn read_answered(
    alloc: Global,
    request: &Request,
    asked: &Option<Ask>,
    reply: Answer,
) -> Result<Option<Answered>, AllocError>
    requires { IfSome asked.now (λ ask. IsAsk Post request.now.path request.now.body (Step ask)) }
    ensures { IfOk result (λ read. IfSome read (λ answered. IsReadAs request.now (Ok reply) answered)) }
{
    let _path = request.path.as_str();
    if let Some(refusal) = read_refusal(alloc, reply.status, reply.body.as_slice())? {
        return Ok(Some(Answered::Refused(refusal)));
    }
    match asked {
        Some(ask) if is_accepted(alloc, ask, &reply)? => Ok(Some(Answered::Accepted(reply.body))),
        _ => Ok(None),
    }
}

/// Whether a reply is the one to that request, accepted: its status, and a number or a truth under the key that it has.
fn is_accepted(alloc: Global, ask: &Ask, reply: &Answer) -> Result<bool, AllocError>
    ensures { IfOk result (λ yes. yes ≡ true → IsAcceptance ask.now reply.now) }
{
    if reply.status != status_of(ask) {
        return Ok(false);
    }
    match Value::from_slice(alloc, reply.body.as_slice()) {
        Ok(json) => Ok(has_value(&json, key_of(ask))),
        Err(error) if error.is_memory() => Err(AllocError),
        Err(_) => Ok(false),
    }
}

fn has_value(json: &Value, key: &str) -> bool
    ensures { result ≡ has_value key.now (view json.now) }
{
    match json.get(key) {
        Some(value) => value.as_u64().is_some() || value.as_bool().is_some(),
        None => false,
    }
}

/// The status of the reply to an accepted request.
fn status_of(ask: &Ask) -> u16
    ensures { result ≡ status_of ask.now }
{
    match ask {
        Ask::Submission(_) | Ask::Bring(_) => 201,
        _ => 200,
    }
}

/// A key that the reply to an accepted request has.
fn key_of(ask: &Ask) -> &'static str
    ensures { result.now ≡ key_of ask.now }
{
    match ask {
        Ask::Submission(_) | Ask::Bring(_) => "job",
        Ask::OnJob { job: _, ask: _ } => "state",
        Ask::Mark { modem: _, down: _ } => "down",
        Ask::Next { modem: _ } => "grant",
        Ask::OnGrant { grant: _, report } => report_key(report),
        Ask::GiveUp { upto: _ } => "floor",
        Ask::Purge { before: _ } => "purged",
    }
}

fn report_key(report: &Report) -> &'static str
    ensures { result.now ≡ report_key report.now }
{
    match report {
        Report::Call(_) => "stop",
        Report::Page(_) => "npages",
        Report::Outcome(_) => "state",
    }
}
