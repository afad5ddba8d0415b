//! The queue's tables in a file.
ghost use Rattle.std.specs.Prelude.{◌≡◌, false, IfOk};
ghost use Rattle.sqlite.specs.Files.{file_state};
ghost use Rattle.sqlite.specs.Held.{state};
ghost use Rattle.sqlite.specs.State.{HasCleanDisk};
ghost use Rattle.sqlite_wal.specs.Files.{image_at};
ghost use Rattle.fax_store.specs.Adopt.{IsAdopted};
ghost use Rattle.fax_files.specs.Database.{IsFound};
ghost use Rattle.fax_files.specs.FaultLine.{open_line};
ghost use Rattle.fax_ending.specs.Ending.{spoken};

use crate::connection::connect;
use fax_ending::Ending;
use fax_store::Store;
use fax_text::Status;
use sqlite::{Alter, Connection, Error, ErrorCode, FileFrom, FileStore, Start};
use sqlite_std_file::OpenError;
use std::alloc::{AllocError, Global};
use std::fs;
use std::io::{self, ErrorKind};

/// Why a file's tables can't be had.
#[derive(Clone, Copy, Debug, PartialEq, Eq)]
pub enum OpenFault {
    /// The file can't be opened, or has no queue of this version.
    Database,
    NoMemory,
}

impl From<AllocError> for OpenFault {
    fn from(_: AllocError) -> OpenFault {
        OpenFault::NoMemory
    }
}

impl From<io::Error> for OpenFault {
    fn from(error: io::Error) -> OpenFault {
        match error.kind() {
            ErrorKind::OutOfMemory => OpenFault::NoMemory,
            _ => OpenFault::Database,
        }
    }
}

impl From<Error> for OpenFault {
    fn from(error: Error) -> OpenFault {
        match error {
            Error::SqliteFailure(ErrorCode::OutOfMemory) => OpenFault::NoMemory,
            _ => OpenFault::Database,
        }
    }
}

impl From<OpenError> for OpenFault {
    fn from(error: OpenError) -> OpenFault {
        match error {
            OpenError::OutOfMemory => OpenFault::NoMemory,
            OpenError::Io(error) => error.into(),
            OpenError::Busy | OpenError::HotJournal => OpenFault::Database,
        }
    }
}

/// The tables in the file of this name. Where it has none yet, it gets those of an empty queue; else it keeps its rows.
pub fn open_store<S: Start>(
    rt: &HostRuntime,
    name: &str,
    start: S,
) -> Result<Store<FileStore<FileFrom<S>>>, OpenFault>
    ensures { IfOk result (λ store. HasCleanDisk (file_state store.conn)
        → IsFound (image_at S.Start) (file_state store.conn)) }
{
    let conn = connect(rt, name, start)?;
    adopted(rt.alloc(), conn)
}

/// The tables in this database, as [`Store::adopt`] takes them.
fn adopted<S: Alter + Drop>(alloc: Global, conn: Connection<S>) -> Result<Store<S>, OpenFault>
    requires { (state S.Store conn).in_transaction ≡ false }
    ensures { IfOk result (λ store. IsAdopted (state S.Store conn) (state S.Store store.conn)) }
{
    match Store::adopt(alloc, conn) {
        Ok(store) => Ok(store),
        Err(_) => Err(OpenFault::Database),
    }
}

/// The tables in the file of this name, as [`open_store`] gives them, where there is such a file.
pub fn open_found_store<S: Start>(
    rt: &HostRuntime,
    name: &str,
    start: S,
) -> Result<Store<FileStore<FileFrom<S>>>, OpenFault>
    ensures { IfOk result (λ store. HasCleanDisk (file_state store.conn)
        → IsFound (image_at S.Start) (file_state store.conn)) }
{
    fs::metadata(rt, name)?;
    open_store(rt, name, start)
}

/// How a command ends where a file's tables can't be had.
pub fn open_ending(fault: OpenFault) -> Ending<'static>
    ensures status { result.status ≡ Status.Fault }
    ensures says { spoken result ≡ open_line fault }
{
    match fault {
        OpenFault::Database => Ending::failed("faxqd: database"),
        OpenFault::NoMemory => Ending::failed("faxqd: no memory"),
    }
}
