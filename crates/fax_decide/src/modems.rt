//! Modems that are ready or down.

ghost use Rattle.std.specs.Prelude.{ℕ};
ghost use Rattle.fax_core.specs.Ageing.{aged};
ghost use Rattle.fax_core.specs.Machine.{marked};
ghost use Rattle.fax_core.specs.Queue.{Queue};
ghost use Rattle.fax_decide.specs.Decision.{Decides};
ghost use Rattle.fax_decide.specs.Fault.{OrNoAnswer};
ghost use Rattle.fax_decide.specs.Settings.{settings_of};

use crate::decision::{Decision, answered, take};
use crate::effect::Effect;
use crate::fault::Fault;
use crate::office::Office;
use fax_ask::{Answer, Reply};
use fax_job::{Name, Refusal};
use std::alloc::Global;

/// Decides that a modem is marked as down, or as up. It may stand so already.
pub(crate) fn decide_mark(
    office: &Office,
    alloc: Global,
    modem: Name,
    down: bool,
) -> Result<Decision, Fault>
    ensures { (m : Queue) (t : ℕ) → OrNoAnswer result (Decides
        (marked (settings_of office.now.setup office.now.controls) (aged t m) modem down) m t) }
{
    if !office.setup.has_modem(modem.as_str()) {
        return Ok(Decision::Refused(Reply::refused(Refusal::NoModem)));
    }
    let reply = answered(alloc, &Answer::Marked { down });
    take(Effect::Marked { modem, down }, reply)
}
