//! The engine over the files of a queue.
ghost use Rattle.std.specs.Prelude.{IfOk};
ghost use Rattle.sqlite.specs.Files.{IsOpened, file_state};
ghost use Rattle.sqlite.specs.Held.{IsNew};
ghost use Rattle.sqlite.specs.Start.{FindsIn};
ghost use Rattle.sqlite.specs.State.{HasCleanDisk};
ghost use Rattle.sqlite_wal.specs.Files.{image_at};

use crate::database::OpenFault;
use crate::new_file::is_file_name;
use sqlite::{Connection, FileFrom, FileStore, Options, Start};
use std::hash::{BuildHasher, RandomState};
use std::io;

/// How many pages the log has before they are copied into the file. The engine's own 1,000 are some 120 requests, and
/// each copy costs as much as ten of them.
const LOG_PAGES: usize = 8_000;

/// The engine over the file of this name, and the log beside it.
pub fn connect<S: Start>(
    rt: &HostRuntime,
    name: &str,
    start: S,
) -> Result<Connection<FileStore<FileFrom<S>>>, OpenFault>
    ensures fresh { IfOk result IsNew }
    ensures opened { IfOk result (λ conn. HasCleanDisk (file_state conn) → IsOpened conn) }
    ensures found { IfOk result (λ conn. HasCleanDisk (file_state conn) → FindsIn (image_at S.Start) (file_state conn)) }
{
    if !is_file_name(name) {
        return Err(OpenFault::Database);
    }
    let files = sqlite_std_file::open(rt, name, start)?;
    let options = long_log(rt)?;
    match Connection::open_files_with(rt.alloc(), files, options, false) {
        Ok(conn) => Ok(conn),
        Err((error, _)) => Err(error.into()),
    }
}

/// The engine's options, but for how long the log grows.
fn long_log(rt: &HostRuntime) -> io::Result<Options> {
    let mut options = Options::new(RandomState::new(rt)?.hash_one(&0u8));
    options.checkpoint_frames = LOG_PAGES;
    Ok(options)
}
