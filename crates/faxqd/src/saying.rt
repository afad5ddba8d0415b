//! The line that a command says at its end is written.
ghost use Rattle.std.specs.Prelude.{◌≡◌, [], false, OnErr, OnOk};
ghost use Rattle.fax_http.specs.Device.{BrokeOff, Put};
ghost use Rattle.fax_ending.specs.Ending.{spoken};
ghost use Rattle.fax_ending.specs.FaultLine.{spelled, spelled_place};
ghost use Rattle.faxqd.specs.Saying.{Says};

use fax_ending::{Ending, FaultLine, Place};
use fax_http::{Watched, WriteFailed};
use fax_text::Status;
use std::io::Write;

/// Says how a command ends, as far as `err` takes it, and gives its status.
pub(crate) fn say_at_end<E: Write + Drop>(ending: Ending<'_>, err: &mut Watched<E>) -> Status
    requires { err.old.failed ≡ false }
    ensures status { result ≡ ending.entry.status }
    ensures says { Says E.contents err.old err.new (spoken ending.entry) }
    ensures silent { spoken ending.entry ≡ [] → err.new ≡ err.old }
{
    if let Some(line) = ending.line {
        let _ = say(line, err);
    }
    ending.status
}

/// Writes the parts of a line, and nothing behind one that isn't taken.
fn say<E: Write + Drop>(line: FaultLine<'_>, err: &mut Watched<E>) -> Result<(), WriteFailed>
    requires { err.old.failed ≡ false }
    ensures ok { OnOk result (Put E.contents err.old err.new (spelled line.entry) false) }
    ensures err { OnErr result (BrokeOff E.contents err.old err.new (spelled line.entry)) }
{
    put_text(line.what, err)?;
    put_place(line.place, err)?;
    put_text(line.between, err)?;
    put_text(line.word, err)?;
    put_text("\n", err)
}

/// Writes the name of a file, or a number.
fn put_place<E: Write + Drop>(place: Place<'_>, err: &mut Watched<E>) -> Result<(), WriteFailed>
    requires { err.old.failed ≡ false }
    ensures ok { OnOk result (Put E.contents err.old err.new (spelled_place place.entry) false) }
    ensures err { OnErr result (BrokeOff E.contents err.old err.new (spelled_place place.entry)) }
{
    match place {
        Place::Nowhere => put_text("", err),
        Place::File(name) => put_text(name, err),
        Place::Number(number) => put_text(itoa::Buffer::new().format(number), err),
    }
}

fn put_text<E: Write + Drop>(text: &str, err: &mut Watched<E>) -> Result<(), WriteFailed>
    requires { err.old.failed ≡ false }
    ensures ok { OnOk result (Put E.contents err.old err.new text.now false) }
    ensures err { OnErr result (BrokeOff E.contents err.old err.new text.now) }
{
    err.put(text.as_bytes())
}
