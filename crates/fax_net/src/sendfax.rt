//! `faxqd sendfax`: hands in a job, or prints the request that does.
ghost use Rattle.std.specs.Prelude.{◌≡◌, false};
ghost use Rattle.fax_net.specs.Sendfax.{Handed, Hands, Replies, Tells, refusal, refused, refused_line};
ghost use Rattle.fax_ending.specs.Ending.{spoken};
ghost use Rattle.fax_ending.specs.FaultLine.{spelled};

use crate::exchanging::exchange;
use fax_ending::{Ending, FaultLine, Place};
use fax_http::{Answer, AnswerFault, Watched, moment_of};
use fax_text::{SendFault, SendPlan, request};
use std::io::Write;

/// The status of a reply to a request that made a job (RFC 9110, section 15.3.2).
const CREATED: u16 = 201;

/// Makes the request of the plan, at the moment that it says or else at the machine's. Where the plan has an address, the
/// request is sent there, and the body of the reply is printed; else the request is printed. The first text at fault,
/// another status than 201, and a missing reply are one line at the end.
pub fn sendfax<W: Write + Drop>(
    rt: &HostRuntime,
    plan: &SendPlan<'_>,
    out: &mut Watched<W>,
) -> Ending<'static>
    requires { out.old.failed ≡ false }
    ensures { Hands W.contents out.old out.new plan.now result.status (spoken result) }
{
    let moment = moment_of(rt, plan.moment);
    let made = request(rt.alloc(), plan, moment);
    match plan.to {
        Some(address) => hand_in(rt, address, made, out),
        None => tell(made, out),
    }
}

/// Prints a request that was made, or says which text is at fault.
fn tell<W: Write + Drop>(made: Result<Vec<u8>, SendFault>, out: &mut Watched<W>) -> Ending<'static>
    requires { out.old.failed ≡ false }
    ensures { Tells W.contents out.old out.new made result.status (spoken result) }
{
    match made {
        Ok(text) => match out.put(text.as_slice()) {
            Ok(()) => Ending::well(),
            Err(_) => Ending::failed("faxqd: ended write-failed"),
        },
        Err(fault) => refuse(fault),
    }
}

/// Says which text of a plan is at fault.
fn refuse(fault: SendFault) -> Ending<'static>
    ensures status { result.status ≡ refused fault }
    ensures says { spoken result ≡ refusal fault }
{
    if matches!(fault, SendFault::NoMemory) {
        return Ending::failed("faxqd: no memory");
    }
    Ending::usage(FaultLine {
        what: "faxqd: bad ",
        place: Place::Nowhere,
        between: "",
        word: fault.word(),
    })
}

// ---- with an address

/// Sends a request that was made, and prints the body of the reply; or says which text is at fault.
fn hand_in<W: Write + Drop>(
    rt: &HostRuntime,
    address: &str,
    made: Result<Vec<u8>, SendFault>,
    out: &mut Watched<W>,
) -> Ending<'static>
    requires { out.old.failed ≡ false }
    ensures { Handed W.contents out.old out.new made result.status (spoken result) }
{
    match made {
        Ok(text) => print_reply(exchange(rt, address, text.as_slice()), out),
        Err(fault) => refuse(fault),
    }
}

/// Prints the body of a reply. One line at the end says where no job was made, or where there is no reply.
fn print_reply<W: Write + Drop>(
    reply: Result<Answer, AnswerFault>,
    out: &mut Watched<W>,
) -> Ending<'static>
    requires { out.old.failed ≡ false }
    ensures replies { Replies W.contents out.old out.new reply result.status (spoken result) }
{
    let answer = match reply {
        Ok(answer) => answer,
        Err(AnswerFault::NoReply) => return Ending::failed("faxqd: no reply"),
        Err(AnswerFault::NoMemory) => return Ending::failed("faxqd: no memory"),
    };
    match out.put(answer.body.as_slice()) {
        Ok(()) if answer.status == CREATED => Ending::well(),
        Ok(()) => Ending::fault(refused_line(answer.status)),
        Err(_) => Ending::failed("faxqd: ended write-failed"),
    }
}

/// The line that says with which status no job was made.
fn refused_line(status: u16) -> FaultLine<'static>
    ensures { spelled result ≡ refused_line status }
{
    FaultLine::of("faxqd: refused ", Place::Number(u64::from(status)))
}
