//! `faxqd worker`: acts for a modem, over a journal.
ghost use Rattle.std.specs.Prelude.{◌≡◌, false};
ghost use Rattle.fax_ending.specs.Ending.{spoken};
ghost use Rattle.faxqd.specs.Client.{Answers};

use crate::client::{answer, lock_journal, open_journal};
use fax_client::{QueueLine, Step, Stop, Ticks, read_step, work};
use fax_ending::Ending;
use fax_http::Watched;
use fax_net::Breaks;
use fax_text::{Journaled, WorkerPlan};
use sqlite::Start;
use std::io::Write;

/// Does the step that the words ask for, and prints what comes of it.
pub fn worker<S: Start, W: Write + Drop>(
    rt: &HostRuntime,
    plan: &WorkerPlan<'_>,
    start: S,
    out: &mut Watched<W>,
) -> Ending<'static>
    requires { out.old.failed ≡ false }
    ensures { Answers W.contents out.old out.new result.status (spoken result) }
{
    match read_step(rt.alloc(), plan) {
        Ok(step) => answer(do_step(rt, plan.at, start, step), out),
        Err(fault) => fault.ending(),
    }
}

/// Does the step over the journal, and with the queue. The text is what it shows.
fn do_step<S: Start>(
    rt: &HostRuntime,
    at: Journaled<'_>,
    start: S,
    step: Step,
) -> Result<Vec<u8>, Stop> {
    let mut breaks = Breaks::new(rt, at.wait);
    let _lock = lock_journal(rt, at.journal, &mut breaks)?;
    let mut journal = open_journal(rt, at.journal, start)?;
    let mut line = QueueLine::new(rt, at.to, breaks);
    let shown = work(rt.alloc(), &mut journal, &mut line, Ticks::now(rt), step)?;
    Ok(shown.text(rt.alloc())?.into_bytes())
}
