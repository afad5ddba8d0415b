//! Jobs that are over and leave.

ghost use Rattle.fax_core.specs.Ageing.{aged};
ghost use Rattle.fax_core.specs.Purge.{purged};
ghost use Rattle.fax_core.specs.Sound.{Sound};
ghost use Rattle.fax_decide.specs.Decision.{Decides};
ghost use Rattle.fax_decide.specs.Fault.{OrNoAnswer};
ghost use Rattle.fax_decide.specs.Looking.{Consults};

use crate::decision::{Decision, answered, take};
use crate::effect::Effect;
use crate::fault::Fault;
use fax_ask::{Answer, Reply};
use fax_job::{Moment, Refusal};
use fax_store::Store;
use sqlite::Alter;
use std::alloc::Global;

/// Decides that jobs leave that are over and ended before `before`: those with the lowest numbers, at most a thousand.
pub(crate) fn decide_purge<S: Alter>(
    store: &mut Store<S>,
    alloc: Global,
    before: Moment,
    t: Moment,
) -> Result<Decision, Fault>
    ensures { Consults S.Store store.old store.new result (λ m. Sound m → OrNoAnswer result (Decides
        (purged (aged t m) t before) m t)) }
{
    if t.seconds() < before.seconds() {
        return Ok(Decision::Refused(Reply::refused(Refusal::PurgeHigh)));
    }
    let jobs = store.leaving(before)?;
    let Ok(count) = u16::try_from(jobs.len()) else {
        return Err(Fault::Strange);
    };
    let reply = answered(alloc, &Answer::Purged { jobs: count });
    take(Effect::Purged { jobs }, reply)
}
