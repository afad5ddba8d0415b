//! Listens for connections, and serves them.
ghost use Rattle.std.specs.Prelude.{◌≡◌, List};
ghost use Rattle.fax_http.specs.Conversation.{Turn};
ghost use Rattle.fax_http.specs.Device.{IsFresh};
ghost use Rattle.fax_http.specs.Serving.{AnswersInParts, replying};
ghost use Rattle.fax_net.specs.Listening.{Listens, bind_line};
ghost use Rattle.fax_ending.specs.Ending.{spoken};

use crate::many::{free_places, serve_many};
use crate::peers::{BindFault, Network, Peers};
use fax_ending::Ending;
use fax_http::{Handler, Watched};
use fax_text::{ServePlan, Status};
use std::alloc::Global;
use std::io::Write;

/// Listens on the network, says so, and serves the connections. All memory for them is taken before.
pub fn listen<'a, P: Peers + Drop, N: Network<P> + Drop, H: Handler, W: Write + Drop>(
    alloc: Global,
    network: N,
    plan: ServePlan<'a>,
    handler: &mut H,
    out: &mut Watched<W>,
) -> Ending<'a>
    requires { IsFresh out.old }
    ensures served { (turns : List Turn)
        × Listens W.contents out.old out.new N.opened P.did
        plan.entry.connections turns (H.over handler.new) result.status (spoken result)
        × AnswersInParts (replying H.answers H.together) handler.old turns handler.new }
{
    let mut peers = match network.bind(plan.address, plan.timeout) {
        Ok(peers) => peers,
        Err(fault) => return bind_ending(fault),
    };
    let Ok(mut links) = free_places(alloc) else {
        return Ending::failed("faxqd: no memory");
    };
    let Ok(()) = out.put(b"faxqd: listening\n") else {
        return Ending::failed("faxqd: ended write-failed");
    };
    serve_many(
        alloc,
        &mut peers,
        links.as_mut_slice(),
        plan.connections,
        handler,
    );
    peers.finish();
    if handler.is_over() {
        return Ending::failed("faxqd: database");
    }
    Ending::well()
}

/// How a command ends that can't listen.
fn bind_ending(fault: BindFault) -> Ending<'static>
    ensures status { result.status ≡ Status.Fault }
    ensures says { spoken result ≡ bind_line fault }
{
    match fault {
        BindFault::Refused => Ending::failed("faxqd: cannot listen"),
        BindFault::NoMemory => Ending::failed("faxqd: no memory"),
    }
}
