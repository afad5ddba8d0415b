//! `faxqd check`: tells whether the rows of a file are those of a consistent queue.
ghost use Rattle.std.specs.Prelude.{◌≡◌, false, MatchOption};
ghost use Rattle.sqlite_wal.specs.Files.{image_at};
ghost use Rattle.fax_ending.specs.Ending.{spoken};
ghost use Rattle.fax_ending.specs.FaultLine.{spelled};
ghost use Rattle.faxqd.specs.Check.{ChecksBy, HasNoDatabase, Prints, flaw_line};

use fax_check::Flaw;
use fax_ending::{Ending, FaultLine, Place};
use fax_files::{open_ending, open_found_store};
use fax_http::Watched;
use fax_tables::StoreFault;
use fax_text::{CheckPlan, Status};
use sqlite::{FileFrom, FileStore, Start};
use std::io::Write;

/// Opens the database, reads its rows, and prints that they are sound, or says which isn't. Its files are given back as they
/// are then, if it was opened. `start` stands for what they held.
pub fn check<'a, S: Start, W: Write + Drop>(
    rt: &HostRuntime,
    plan: CheckPlan<'a>,
    start: S,
    out: &mut Watched<W>,
) -> (Ending<'a>, Option<FileStore<FileFrom<S>>>)
    requires { out.old.failed ≡ false }
    ensures checks { MatchOption result.1
        ((result.0.status ≡ Status.Fault) × (out.new ≡ out.old) × HasNoDatabase (spoken result.0))
        (ChecksBy W.contents out.old out.new (image_at S.Start) result.0.status (spoken result.0)) }
{
    let mut conn = match open_found_store(rt, plan.database, start) {
        Ok(store) => store.close(),
        Err(fault) => return (open_ending(fault), None),
    };
    let verdict = fax_check::check(rt.alloc(), &mut conn);
    let ending = tell(verdict, out);
    (ending, Some(conn.into_store()))
}

/// Prints that no row has a flaw, or says which has, or that the database gave no answer.
fn tell<W: Write + Drop>(
    verdict: Result<Option<Flaw>, StoreFault>,
    out: &mut Watched<W>,
) -> Ending<'static>
    requires { out.old.failed ≡ false }
    ensures { Prints W.contents out.old out.new verdict result.status (spoken result) }
{
    match verdict {
        Ok(None) => match out.put(b"faxqd: sound\n") {
            Ok(()) => Ending::well(),
            Err(_) => Ending::failed("faxqd: ended write-failed"),
        },
        Ok(Some(flaw)) => flaw_ending(flaw),
        Err(_) => Ending::failed("faxqd: database"),
    }
}

/// How the command ends where a row isn't as it has to be, or is missing.
fn flaw_ending(flaw: Flaw) -> Ending<'static>
    ensures status { result.status ≡ Status.Fault }
    ensures says { spoken result ≡ flaw_line flaw }
{
    Ending::fault(flaw_line(flaw))
}

/// The line that tells which row it is. A number below 0 isn't told.
fn flaw_line(flaw: Flaw) -> FaultLine<'static>
    ensures { spelled result ≡ flaw_line flaw }
{
    let table = flaw.table.name();
    match flaw.row {
        Some(row) if row >= 0 => FaultLine {
            what: "faxqd: unsound: row ",
            place: Place::Number(row.unsigned_abs()),
            between: " of ",
            word: table,
        },
        Some(_) => FaultLine {
            what: "faxqd: unsound: a row of ",
            place: Place::Nowhere,
            between: "",
            word: table,
        },
        None => FaultLine {
            what: "faxqd: unsound: a row of ",
            place: Place::Nowhere,
            between: table,
            word: " is missing",
        },
    }
}
