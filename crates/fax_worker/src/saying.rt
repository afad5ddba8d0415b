//! How a worker says its request to the queue: the path of a POST, and the body.

ghost use Rattle.std.specs.Prelude.{◌≡◌, IfOk, string_bytes};
ghost use Rattle.fax_ask.specs.Ask.{IsAsk};
ghost use Rattle.fax_ask.specs.declared.ask.Ask.TheVariants.{Step};
ghost use Rattle.fax_ask.specs.declared.method.Method.TheVariants.{Post};
ghost use Rattle.fax_worker.specs.Sayable.{IsSayable};
ghost use Rattle.fax_worker.specs.Saying.{body_of, call_word, ending_word, outcome_json, path_of, report_json, report_word, upto_json};
ghost use Rattle.fax_core.specs.declared.report.Report.TheVariants.{Call as OfCall, Page as OfPage};
ghost use Rattle.serde_json.specs.View.{view};
ghost use Rattle.serde_json.specs.Written.{compact_text};

use crate::pending::Pending;
use fax_core::{Ask, Ending, Outcome, Report};
use fax_job::{Call, RequestNumber};
use serde_json::{Value, json};
use std::alloc::{AllocError, Global};

/// A request as a worker sends it: a POST of this body to this path.
#[derive(Drop)]
pub struct Said {
    pub path: String,
    pub body: String,
}

impl Pending {
    /// Path and body of the request, always the same bytes. The queue reads them as this request. The only error is out of
    /// memory.
    #[tactic(auto, using(crate::proofs::SayingLemmas::meant_by))]
    pub fn said(&self, alloc: Global) -> Result<Said, AllocError>
        ensures path { IfOk result (λ said. string_bytes said.path ≡ path_of self.now.ask) }
        ensures body { IfOk result (λ said. string_bytes said.body ≡ body_of self.now.ask) }
        ensures meant { IfOk result (λ said.
            IsAsk Post (string_bytes said.path) (string_bytes said.body) (Step self.now.ask)) }
    {
        let ask = self.ask();
        let path = path_of(alloc, ask)?;
        let body = body_of(alloc, ask)?;
        Ok(Said { path, body })
    }
}

// ---- paths

fn path_of(alloc: Global, ask: &Ask) -> Result<String, AllocError>
    requires { IsSayable ask.now }
    ensures { IfOk result (λ path. string_bytes path ≡ path_of ask.now) }
{
    match ask {
        Ask::Next { modem } => {
            let modem = modem.as_str();
            format!(in alloc; "/modems/{modem}/next")
        }
        Ask::OnGrant { grant, report } => {
            let word = report_word(report);
            format!(in alloc; "/grants/{grant}/{word}")
        }
        Ask::GiveUp { upto: _ } => String::from_str(alloc, "/numbers/floor"),
        _ => unreachable!(),
    }
}

fn report_word(report: &Report) -> &'static str
    ensures { result.now ≡ report_word report.now }
{
    match report {
        Report::Call(_) => "call",
        Report::Page(_) => "page",
        Report::Outcome(_) => "outcome",
    }
}

// ---- bodies

fn body_of(alloc: Global, ask: &Ask) -> Result<String, AllocError>
    requires { IsSayable ask.now }
    ensures { IfOk result (λ body. string_bytes body ≡ body_of ask.now) }
{
    match ask {
        Ask::Next { modem: _ } => Ok(String::new(alloc)),
        Ask::OnGrant { grant: _, report } => report_text(alloc, report),
        Ask::GiveUp { upto } => upto_text(alloc, *upto),
        _ => unreachable!(),
    }
}

fn report_text(alloc: Global, report: &Report) -> Result<String, AllocError>
    ensures { IfOk result (λ text. string_bytes text ≡ compact_text (report_json report.now)) }
{
    report_json(alloc, report)?.to_string(alloc)
}

fn upto_text(alloc: Global, upto: RequestNumber) -> Result<String, AllocError>
    ensures { IfOk result (λ text. string_bytes text ≡ compact_text (upto_json upto)) }
{
    upto_json(alloc, upto)?.to_string(alloc)
}

fn upto_json(alloc: Global, upto: RequestNumber) -> Result<Value, AllocError>
    ensures { IfOk result (λ json. view json ≡ upto_json upto) }
{
    let upto = upto.get();
    json!(in alloc; {"upto": upto})
}

fn report_json(alloc: Global, report: &Report) -> Result<Value, AllocError>
    ensures { IfOk result (λ json. view json ≡ report_json report.now) }
{
    match report {
        Report::Call(call) => call_json(alloc, *call),
        Report::Page(page) => page_json(alloc, *page),
        Report::Outcome(outcome) => outcome_json(alloc, outcome),
    }
}

fn call_json(alloc: Global, call: Call) -> Result<Value, AllocError>
    ensures { IfOk result (λ json. view json ≡ report_json (OfCall call)) }
{
    let result = call_word(call);
    json!(in alloc; {"result": result})
}

fn page_json(alloc: Global, page: u16) -> Result<Value, AllocError>
    ensures { IfOk result (λ json. view json ≡ report_json (OfPage page)) }
{
    json!(in alloc; {"page": page})
}

fn outcome_json(alloc: Global, outcome: &Outcome) -> Result<Value, AllocError>
    ensures { IfOk result (λ json. view json ≡ outcome_json outcome.now) }
{
    let dialed = outcome.dialed;
    let ending = ending_word(outcome.ending);
    let pages = outcome.pages;
    let reason = outcome.reason.text();
    json!(in alloc; {"dialed": dialed, "outcome": ending, "pages": pages, "reason": reason})
}

/// The word for how a call went.
pub fn call_word(call: Call) -> &'static str
    ensures { result.now ≡ call_word call }
{
    match call {
        Call::Connected => "connected",
        Call::Busy => "busy",
        Call::NoAnswer => "no-answer",
        Call::NoCarrier => "no-carrier",
        Call::Other => "other",
    }
}

fn ending_word(ending: Ending) -> &'static str
    ensures { result.now ≡ ending_word ending }
{
    match ending {
        Ending::Done => "done",
        Ending::Retry => "retry",
        Ending::Fail => "fail",
    }
}
