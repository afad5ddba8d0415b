//! `faxqd list`: prints the listing of the jobs in a file.
ghost use Rattle.std.specs.Prelude.{◌≡◌, false, MatchOption};
ghost use Rattle.sqlite.specs.Held.{state};
ghost use Rattle.sqlite_wal.specs.Files.{image_at};
ghost use Rattle.fax_desk.specs.Replaying.{settings_in};
ghost use Rattle.fax_ending.specs.Ending.{spoken};
ghost use Rattle.faxqd.specs.List.{ListsBy, Shows};
ghost use Rattle.faxqd.specs.NoQueue.{HasNoQueue};

use crate::queue::open_found_queue;
use fax_ending::Ending;
use fax_files::{office_ending, open_ending, read_office};
use fax_http::{Watched, moment_of};
use fax_job::Moment;
use fax_once::Queue;
use fax_text::{ListPlan, Status};
use sqlite::{Alter, FileFrom, FileStore, Start};
use std::alloc::Global;
use std::io::Write;

/// Reads the files, opens the database, and prints the listing of its jobs at the moment that the plan says, or else at
/// the machine's. The database's files are given back as they are then, if a queue was opened. `start` stands for what they
/// held.
pub fn list<'a, S: Start, W: Write + Drop>(
    rt: &HostRuntime,
    plan: ListPlan<'a>,
    start: S,
    out: &mut Watched<W>,
) -> (Ending<'a>, Option<FileStore<FileFrom<S>>>)
    requires { out.old.failed ≡ false }
    ensures lists { MatchOption result.1
        ((result.0.status ≡ Status.Fault) × (out.new ≡ out.old) × HasNoQueue plan.entry.files (spoken result.0))
        (ListsBy W.contents out.old out.new (image_at S.Start) plan.entry result.0.status (spoken result.0)) }
{
    let office = match read_office(rt, plan.files) {
        Ok(office) => office,
        Err(fault) => return (office_ending(fault), None),
    };
    let moment = moment_of(rt, plan.moment);
    let queue = match open_found_queue(rt, plan.database, start, office) {
        Ok(queue) => queue,
        Err(fault) => return (open_ending(fault), None),
    };
    let (ending, queue) = list_queue(rt.alloc(), queue, moment, out);
    (ending, Some(queue.close().into_store()))
}

/// Prints the listing of that queue, which is given back.
fn list_queue<S: Alter + Drop, W: Write + Drop>(
    alloc: Global,
    mut queue: Queue<S>,
    moment: Moment,
    out: &mut Watched<W>,
) -> (Ending<'static>, Queue<S>)
    requires { out.old.failed ≡ false }
    ensures office { result.1.office ≡ queue.office }
    ensures shown { Shows W.contents out.old out.new (settings_in queue.office) moment
        (state S.Store queue.store.conn) (state S.Store result.1.store.conn) result.0.status (spoken result.0) }
{
    let reply = queue.view(alloc, "/jobs", moment);
    if reply.status() != 200 {
        return (Ending::failed("faxqd: database"), queue);
    }
    match out.put(reply.body()) {
        Ok(()) => (Ending::well(), queue),
        Err(_) => (Ending::failed("faxqd: ended write-failed"), queue),
    }
}
