//! What an accepted request writes within a work: what time does to the queue, its change, and the reply that is kept.

ghost use Rattle.std.specs.Prelude.{◌≡◌, ⊤, true, false, OnOk};
ghost use Rattle.fax_core.specs.Ledger.{IsKeptStatus};
ghost use Rattle.fax_decide.specs.Effect.{Suits, given_in, written};
ghost use Rattle.fax_store.specs.Job.{with_expired};
ghost use Rattle.fax_run.specs.Arrival.{said_of};
ghost use Rattle.fax_once.specs.Accepting.{Accepts, IsAcceptable, WritesWithin, kept_after};
ghost use Rattle.fax_once.specs.Known.{IsAged};

use crate::acceptance::Answered;
use crate::arrival::said_by;
use crate::sender::Sender;
use fax_ask::Reply;
use fax_decide::{Effect, Fault};
use fax_job::Moment;
use fax_run::Arrival;
use fax_store::{StoreFault, Work};
use sqlite::Alter;
use std::alloc::Global;

/// Accepts a request that is taken: ages the queue at `decided_at`, unless it `is_aged`, makes the change and keeps the reply.
/// The clock and the next numbers stay as they are in the tables.
///
/// # Errors
///
/// Lack of memory and the faults of the store. Then nothing has changed in the work, or it can't be committed.
pub(crate) fn accept<S: Alter>(
    work: &mut Work<'_, S>,
    alloc: Global,
    arrival: &Arrival<'_>,
    sender: &Sender<'_>,
    decided_at: Moment,
    is_aged: bool,
    effect: &Effect,
    reply: Reply,
) -> Result<Answered, Fault>
    ensures { Accepts S.Store work.old work.new result decided_at is_aged effect.now sender.now (said_of arrival.now) reply }
{
    let said = said_by(alloc, arrival)?;
    write_accepted(work, decided_at, is_aged, effect, sender, &said, &reply)?;
    Ok(Answered::Accepted(reply))
}

/// The writes of an accepted request.
fn write_accepted<S: Alter>(
    work: &mut Work<'_, S>,
    decided_at: Moment,
    is_aged: bool,
    effect: &Effect,
    sender: &Sender<'_>,
    said: &[u8],
    reply: &Reply,
) -> Result<(), StoreFault>
    ensures kept { OnOk result (IsKeptStatus reply.now.status) }
    ensures goes_on { OnOk result (work.new.failed ≡ false) }
    ensures writes { WritesWithin S.Store work.old work.new result
        (λ m. (is_aged ≡ true → IsAged decided_at m) × Suits effect.now (with_expired decided_at m))
        (λ m. written decided_at effect.now (with_expired decided_at m))
        (kept_after sender.now said.now reply.now (given_in effect.now))
        (λ m k. (is_aged ≡ true → IsAged decided_at m) × IsAcceptable decided_at effect.now sender.now reply.now m k) }
{
    age(work, decided_at, is_aged)?;
    effect.write(work, sender.client, decided_at)?;
    work.keep(
        sender.client,
        sender.number,
        said,
        reply.status(),
        reply.body(),
    )
}

/// Lets the jobs fail that expire by `t`, unless it is known that none does.
fn age<S: Alter>(work: &mut Work<'_, S>, t: Moment, is_aged: bool) -> Result<(), StoreFault>
    ensures { WritesWithin S.Store work.old work.new result (λ m. is_aged ≡ true → IsAged t m) (with_expired t) (λ k. k)
        (λ m k. ⊤) }
{
    if is_aged {
        return Ok(());
    }
    work.expire_all(t)
}
