//! `faxqd settings`: prints what setup and controls mean.
ghost use Rattle.std.specs.Prelude.{◌≡◌, false};
ghost use Rattle.fax_ending.specs.Ending.{spoken};
ghost use Rattle.faxqd.specs.Settings.{ShowsSettings};

use fax_ending::Ending;
use fax_files::{office_ending, show_office};
use fax_http::Watched;
use fax_text::OfficeFiles;
use std::io::Write;

/// Reads the files and prints what they mean. The status shows whether a line of them isn't used.
pub fn settings<'a, W: Write + Drop>(
    rt: &HostRuntime,
    files: OfficeFiles<'a>,
    out: &mut Watched<W>,
) -> Ending<'a>
    requires { out.old.failed ≡ false }
    ensures { ShowsSettings W.contents out.old out.new files.entry result.status (spoken result) }
{
    match show_office(rt, files) {
        Ok(shown) => match out.put(shown.text.as_bytes()) {
            Ok(()) if shown.has_unused => Ending::unused(),
            Ok(()) => Ending::well(),
            Err(_) => Ending::failed("faxqd: ended write-failed"),
        },
        Err(fault) => office_ending(fault),
    }
}
