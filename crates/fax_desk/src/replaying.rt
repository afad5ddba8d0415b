//! One input, answered from empty tables on.

ghost use Rattle.std.specs.Prelude.{◌≡◌, false, IfErr, IfOk};
ghost use Rattle.sqlite.specs.Held.{state};
ghost use Rattle.sqlite.specs.Steps.{over_memory};
ghost use Rattle.fax_core.specs.Ledger.{empty_ledger};
ghost use Rattle.fax_core.specs.Queue.{empty_queue as no_records};
ghost use Rattle.fax_desk.specs.Replaying.{IsReplayed};
ghost use Rattle.fax_http.specs.Device.{IsFresh};
ghost use Rattle.fax_tables.specs.Tables.{IsAtRest};

use crate::conversing::converse;
use crate::desk::Desk;
use fax_http::{Bounds, End, SaidClock, Watched};
use fax_once::{Office, Queue};
use fax_store::{Store, StoreFault};
use sqlite::MemStore;
use std::alloc::Global;
use std::io::{Read, Write};

/// The most messages of one input.
const MESSAGE_LIMIT: u32 = 1_000;

/// Reads messages, answers each by that office from empty tables in memory on, and writes their replies to `out`. Each
/// message has the moment that it says, or else that of the message before it, 0 at first. Gives why it ended.
pub fn replay<R: Read + Drop, W: Write + Drop>(
    alloc: Global,
    office: Office,
    reader: &mut Watched<R>,
    out: &mut Watched<W>,
) -> End
    requires reading { IsFresh reader.old }
    requires writing { IsFresh out.old }
    ensures { IsReplayed R.remaining W.contents reader.old reader.new out.old out.new office result }
{
    let Ok(queue) = empty_queue(alloc, office) else {
        return End::NoMemory;
    };
    let mut desk = Desk::new(alloc, SaidClock::new(), queue);
    let bounds = Bounds {
        messages: MESSAGE_LIMIT,
    };
    let served = converse(alloc, reader, out, &mut desk, bounds);
    served.end
}

/// A queue over empty tables in memory, by that office.
fn empty_queue(alloc: Global, office: Office) -> Result<Queue<MemStore>, StoreFault>
    ensures empty { IfOk result (λ queue. IsAtRest (state over_memory queue.store.conn) no_records empty_ledger) }
    ensures office { IfOk result (λ queue. queue.office ≡ office) }
    ensures open { IfOk result (λ queue. queue.is_shut ≡ false) }
    ensures cause { IfErr result (λ fault. fault ≡ StoreFault.Unavailable) }
{
    let store = Store::new_in_memory(alloc)?;
    Ok(Queue::new(alloc, store, office.setup, office.controls)?)
}
