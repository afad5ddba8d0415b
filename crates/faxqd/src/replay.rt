//! `faxqd replay`: answers one input from empty tables in memory on.
ghost use Rattle.std.specs.Prelude.{◌≡◌};
ghost use Rattle.fax_http.specs.Device.{IsFresh};
ghost use Rattle.fax_ending.specs.Ending.{spoken};
ghost use Rattle.faxqd.specs.Replay.{Ends, EndsWith, end_line};

use fax_ending::Ending;
use fax_files::{office_ending, read_office};
use fax_http::{End, Watched};
use fax_once::Office;
use fax_text::{OfficeFiles, Status};
use std::alloc::Global;
use std::io::{Read, Write};

/// Reads the files, then messages from `reader`, and writes the reply to each to `out`.
pub fn replay<'a, R: Read + Drop, W: Write + Drop>(
    rt: &HostRuntime,
    files: OfficeFiles<'a>,
    reader: &mut Watched<R>,
    out: &mut Watched<W>,
) -> Ending<'a>
    requires reading { IsFresh reader.old }
    requires writing { IsFresh out.old }
    ensures { Ends R.remaining W.contents reader.old reader.new out.old out.new files.entry
        result.status (spoken result) }
{
    match read_office(rt, files) {
        Ok(office) => replay_with(rt.alloc(), office, reader, out),
        Err(fault) => office_ending(fault),
    }
}

/// Answers the messages by that office.
fn replay_with<R: Read + Drop, W: Write + Drop>(
    alloc: Global,
    office: Office,
    reader: &mut Watched<R>,
    out: &mut Watched<W>,
) -> Ending<'static>
    requires reading { IsFresh reader.old }
    requires writing { IsFresh out.old }
    ensures { EndsWith R.remaining W.contents reader.old reader.new out.old out.new office
        result.status (spoken result) }
{
    let end = fax_desk::replay(alloc, office, reader, out);
    ending_of(end)
}

/// How the command ends where an input ended so.
fn ending_of(end: End) -> Ending<'static>
    ensures success { end ≡ End.Closed → result.status ≡ Status.Success }
    ensures fault { ¬ (end ≡ End.Closed) → result.status ≡ Status.Fault }
    ensures says { spoken result ≡ end_line end }
{
    match end {
        End::Closed => Ending::well(),
        End::Bad => Ending::failed("faxqd: ended bad"),
        End::Bound => Ending::failed("faxqd: ended bound"),
        End::ReadFailed => Ending::failed("faxqd: ended read-failed"),
        End::WriteFailed { .. } => Ending::failed("faxqd: ended write-failed"),
        End::NoMemory => Ending::failed("faxqd: no memory"),
    }
}
