//! Replies that clients give up.

ghost use Rattle.std.specs.Prelude.{ℕ};
ghost use Rattle.fax_core.specs.Ageing.{aged};
ghost use Rattle.fax_core.specs.Queue.{Queue};
ghost use Rattle.fax_core.specs.Reply.{Floored, Taken};
ghost use Rattle.fax_decide.specs.Decision.{Decides};
ghost use Rattle.fax_decide.specs.Fault.{OrNoAnswer};

use crate::decision::{Decision, answered, take};
use crate::effect::Effect;
use crate::fault::Fault;
use fax_ask::Answer;
use fax_job::RequestNumber;
use std::alloc::Global;

/// Decides that a client gives up its replies through a number, which is its floor from now on.
pub(crate) fn decide_floor(alloc: Global, upto: RequestNumber) -> Result<Decision, Fault>
    ensures { (m : Queue) (t : ℕ) → OrNoAnswer result (Decides (Taken (aged t m) (Floored upto)) m t) }
{
    let reply = answered(alloc, &Answer::Floored { floor: upto.get() });
    take(Effect::GivenUp { upto }, reply)
}
