//! The queue in a file.
ghost use Rattle.std.specs.Prelude.{◌≡◌, false, IfOk};
ghost use Rattle.sqlite.specs.Files.{file_state};
ghost use Rattle.sqlite.specs.State.{HasCleanDisk};
ghost use Rattle.sqlite_wal.specs.Files.{image_at};
ghost use Rattle.fax_files.specs.Database.{IsFound};

use fax_decide::Office;
use fax_files::{OpenFault, open_found_store, open_store};
use fax_once::Queue;
use fax_store::Store;
use sqlite::{Alter, FileFrom, FileStore, Start};
use std::alloc::{AllocError, Global};

/// The queue in the file of this name, by that office. Where it has no tables yet, it gets those of an empty queue; else
/// it keeps its rows, and the queue is the one that they mean.
pub(crate) fn open_queue<S: Start>(
    rt: &HostRuntime,
    name: &str,
    start: S,
    office: Office,
) -> Result<Queue<FileStore<FileFrom<S>>>, OpenFault>
    ensures office { IfOk result (λ queue. queue.office ≡ office) }
    ensures open { IfOk result (λ queue. queue.is_shut ≡ false) }
    ensures found { IfOk result (λ queue. HasCleanDisk (file_state queue.store.conn)
        → IsFound (image_at S.Start) (file_state queue.store.conn)) }
{
    let store = open_store(rt, name, start)?;
    Ok(queue_over(rt.alloc(), store, office)?)
}

/// The queue in the file of this name, as [`open_queue`] gives it, where there is such a file.
pub(crate) fn open_found_queue<S: Start>(
    rt: &HostRuntime,
    name: &str,
    start: S,
    office: Office,
) -> Result<Queue<FileStore<FileFrom<S>>>, OpenFault>
    ensures office { IfOk result (λ queue. queue.office ≡ office) }
    ensures open { IfOk result (λ queue. queue.is_shut ≡ false) }
    ensures found { IfOk result (λ queue. HasCleanDisk (file_state queue.store.conn)
        → IsFound (image_at S.Start) (file_state queue.store.conn)) }
{
    let store = open_found_store(rt, name, start)?;
    Ok(queue_over(rt.alloc(), store, office)?)
}

/// The queue over these tables, by that office.
fn queue_over<S: Alter + Drop>(
    alloc: Global,
    store: Store<S>,
    office: Office,
) -> Result<Queue<S>, AllocError>
    ensures store { IfOk result (λ queue. queue.store ≡ store) }
    ensures office { IfOk result (λ queue. queue.office ≡ office) }
    ensures open { IfOk result (λ queue. queue.is_shut ≡ false) }
{
    Queue::new(alloc, store, office.setup, office.controls)
}
