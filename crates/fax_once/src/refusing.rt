//! Arrivals that ask for nothing, since their path names no request or their body is at fault.

ghost use Rattle.std.specs.Prelude.{◌≡◌, IfOk, IsErr, MatchResult};
ghost use Rattle.fax_ask.specs.Ask.{IsRefused};
ghost use Rattle.fax_ask.specs.Response.{refused_response};
ghost use Rattle.fax_core.specs.Ledger.{Ledger};
ghost use Rattle.fax_core.specs.Queue.{Queue};
ghost use Rattle.fax_core.specs.Reply.{NoKeys};
ghost use Rattle.fax_core.specs.Settings.{Settings};
ghost use Rattle.fax_decide.specs.Fault.{OnlyNoAnswer};
ghost use Rattle.fax_run.specs.Arrival.{number_of};
ghost use Rattle.fax_run.specs.Verdict.{IsVerdict, Told};

use crate::sender::Sender;
use fax_ask::{Detail, Reply};
use fax_decide::Fault;
use fax_job::{BodyFault, Refusal};
use fax_run::Arrival;
use std::alloc::Global;

/// The reply to an arrival that asks for nothing: a path that names no request comes first, and then the client, the
/// number and the body. There is none where memory ran out as the body was read.
pub(crate) fn refuse_ask(
    alloc: Global,
    arrival: &Arrival<'_>,
    refusal: Refusal,
) -> Result<Reply, Fault>
    ensures verdict { (s : Settings) (m : Queue) (k : Ledger)
        → IsRefused arrival.now.method arrival.now.path.now arrival.now.body.now refusal
        → IfOk result (λ reply. IsVerdict s arrival.now m k (Told reply)) }
    ensures cause { IsRefused arrival.now.method arrival.now.path.now arrival.now.body.now refusal → IsErr result
        → refusal ≡ Refusal.Unavailable }
    ensures fault { OnlyNoAnswer result }
{
    match refusal {
        Refusal::NoRoute => Ok(Reply::refused(Refusal::NoRoute)),
        Refusal::BadBody(fault) => Ok(refuse_body(alloc, arrival, fault)),
        _ => Err(Fault::NoAnswer),
    }
}

/// The reply to a body at fault, with the kind of the fault and its line, unless the client or the number is at fault.
/// It takes no memory.
fn refuse_body(alloc: Global, arrival: &Arrival<'_>, fault: BodyFault) -> Reply
    ensures { MatchResult (number_of arrival.now) (λ _. result ≡ refused_response (Refusal.BadBody fault) NoKeys)
        (λ refusal. result ≡ refused_response refusal NoKeys) }
{
    match Sender::of(arrival) {
        Ok(_) => Reply::refused_with(alloc, &Detail::Body(fault)).unwrap(),
        Err(refusal) => Reply::refused(refusal),
    }
}
