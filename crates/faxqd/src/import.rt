//! `faxqd import`: prints the requests that bring the jobs of an older queue in.
ghost use Rattle.std.specs.Prelude.{◌≡◌, false};
ghost use Rattle.fax_ending.specs.Ending.{spoken};
ghost use Rattle.faxqd.specs.Import.{Imports};

use fax_ending::Ending;
use fax_files::{import_requests, spool_ending};
use fax_http::Watched;
use fax_text::ImportPlan;
use std::io::Write;

/// Reads the plan's files, and prints the import of each, in order. Nothing is printed where one of them is at fault.
pub fn import<'a, W: Write + Drop>(
    rt: &HostRuntime,
    plan: &ImportPlan<'a>,
    out: &mut Watched<W>,
) -> Ending<'a>
    requires { out.old.failed ≡ false }
    ensures { Imports W.contents out.old out.new plan.now result.status (spoken result) }
{
    match import_requests(rt, plan) {
        Ok(text) => match out.put(text.as_slice()) {
            Ok(()) => Ending::well(),
            Err(_) => Ending::failed("faxqd: ended write-failed"),
        },
        Err(fault) => spool_ending(fault),
    }
}
