//! `faxqd serve`: answers connections over the tables in a file.
ghost use Rattle.std.specs.Prelude.{◌≡◌, List, MatchOption};
ghost use Rattle.sqlite.specs.Held.{state};
ghost use Rattle.sqlite_wal.specs.Files.{image_at};
ghost use Rattle.fax_desk.specs.Replaying.{settings_in};
ghost use Rattle.fax_http.specs.Conversation.{Turn};
ghost use Rattle.fax_http.specs.Device.{IsFresh};
ghost use Rattle.fax_net.specs.Listening.{Listens};
ghost use Rattle.fax_ending.specs.Ending.{spoken};
ghost use Rattle.fax_desk.specs.Conversing.{ServesFrom};
ghost use Rattle.faxqd.specs.NoQueue.{HasNoQueue};
ghost use Rattle.faxqd.specs.Serve.{ServesBy};

use crate::queue::open_queue;
use fax_desk::Desk;
use fax_ending::Ending;
use fax_files::{make_file, office_ending, open_ending, read_office};
use fax_http::{Clock, Watched};
use fax_net::{Network, Peers, listen};
use fax_once::Queue;
use fax_text::{ServePlan, Status};
use sqlite::{Alter, FileFrom, FileStore, Start};
use std::alloc::Global;
use std::io::Write;

/// Reads the files, opens the database, listens on the network, says so on `out`, and serves the connections, each message
/// at the moment that `clock` gives. The database's files are given back as they are then, if a queue was opened. `start`
/// stands for what they held.
pub fn serve<'a, P: Peers + Drop, N: Network<P> + Drop, S: Start, C: Clock + Drop, W: Write + Drop>(
    rt: &HostRuntime,
    plan: ServePlan<'a>,
    network: N,
    clock: C,
    start: S,
    out: &mut Watched<W>,
) -> (Ending<'a>, Option<FileStore<FileFrom<S>>>)
    requires { IsFresh out.old }
    ensures serves { MatchOption result.1
        ((result.0.status ≡ Status.Fault) × (out.new ≡ out.old) × HasNoQueue plan.entry.files (spoken result.0))
        (ServesBy W.contents out.old out.new N.opened P.did C.gives (image_at S.Start) plan.entry clock result.0.status
        (spoken result.0)) }
{
    let office = match read_office(rt, plan.files) {
        Ok(office) => office,
        Err(fault) => return (office_ending(fault), None),
    };
    if let Err(fault) = make_file(rt, plan.database) {
        return (open_ending(fault), None);
    }
    let queue = match open_queue(rt, plan.database, start, office) {
        Ok(queue) => queue,
        Err(fault) => return (open_ending(fault), None),
    };
    let (ending, queue) = serve_queue(rt.alloc(), plan, network, clock, queue, out);
    (ending, Some(queue.close().into_store()))
}

/// Listens, says so, and answers connections by that queue, which is given back.
fn serve_queue<
    'a,
    P: Peers + Drop,
    N: Network<P> + Drop,
    S: Alter + Drop,
    C: Clock + Drop,
    W: Write + Drop,
>(
    alloc: Global,
    plan: ServePlan<'a>,
    network: N,
    clock: C,
    queue: Queue<S>,
    out: &mut Watched<W>,
) -> (Ending<'a>, Queue<S>)
    requires { IsFresh out.old }
    ensures office { result.1.office ≡ queue.office }
    ensures served { (turns : List Turn)
        × Listens W.contents out.old out.new N.opened P.did plan.entry.connections turns result.1.is_shut result.0.status (spoken result.0)
        × ServesFrom C.gives (settings_in queue.office) clock (state S.Store queue.store.conn) turns (state S.Store result.1.store.conn) }
{
    let mut desk = Desk::new(alloc, clock, queue);
    let ending = listen(alloc, network, plan, &mut desk, out);
    (ending, desk.close())
}
