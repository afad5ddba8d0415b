//! What the commands of a client share: its journal in a file, and how they end.
ghost use Rattle.std.specs.Prelude.{◌≡◌, false};
ghost use Rattle.fax_ending.specs.Ending.{spoken};
ghost use Rattle.faxqd.specs.Client.{Answers};

use fax_client::Stop;
use fax_ending::Ending;
use fax_files::{connect, make_file};
use fax_http::Watched;
use fax_journal::Journal;
use fax_net::Breaks;
use sqlite::{FileFrom, FileStore, Start};
use std::fs::{File, OpenOptions, TryLockError};
use std::io::{self, Write};
use std::os::unix::fs::OpenOptionsExt;

/// The most tries, which are a second apart at least: it is never reached.
const TRIES: u64 = 1_000_000_000_000;

/// The journal in the file of this name, which is made if there is none.
pub(crate) fn open_journal<S: Start>(
    rt: &HostRuntime,
    name: &str,
    start: S,
) -> Result<Journal<FileStore<FileFrom<S>>>, Stop> {
    if make_file(rt, name).is_err() {
        return Err(Stop::Journal);
    }
    let Ok(conn) = connect(rt, name, start) else {
        return Err(Stop::Journal);
    };
    match Journal::adopt(rt.alloc(), conn) {
        Ok(journal) => Ok(journal),
        Err(_) => Err(Stop::Journal),
    }
}

/// Waits until no other command has the journal, and keeps it from others as long as what is returned lives.
///
/// # Errors
///
/// `Later` if another command has it all the time; `Journal` if its lock can't be made.
pub(crate) fn lock_journal(
    rt: &HostRuntime,
    name: &str,
    breaks: &mut Breaks<'_>,
) -> Result<File, Stop> {
    let Ok(file) = lock_file(rt, name) else {
        return Err(Stop::Journal);
    };
    for _ in 0..TRIES {
        match file.try_lock() {
            Ok(()) => return Ok(file),
            Err(TryLockError::WouldBlock) => {}
            Err(TryLockError::Error(_)) => return Err(Stop::Journal),
        }
        if !breaks.take() {
            return Err(Stop::Later);
        }
    }
    Err(Stop::Later)
}

/// The file beside the journal that a command locks. It stays.
fn lock_file(rt: &HostRuntime, name: &str) -> io::Result<File> {
    let path = format!(in rt.alloc(); "{name}-lock")?;
    OpenOptions::new()
        .write(true)
        .create(true)
        .mode(0o644)
        .open(rt, path.as_str())
}

/// Prints an answer, or says why there is none.
pub(crate) fn answer<W: Write + Drop>(
    given: Result<Vec<u8>, Stop>,
    out: &mut Watched<W>,
) -> Ending<'static>
    requires { out.old.failed ≡ false }
    ensures { Answers W.contents out.old out.new result.status (spoken result) }
{
    match given {
        Ok(text) => match out.put(text.as_slice()) {
            Ok(()) => Ending::well(),
            Err(_) => Ending::failed("faxqd: ended write-failed"),
        },
        Err(stop) => stop.ending(),
    }
}
