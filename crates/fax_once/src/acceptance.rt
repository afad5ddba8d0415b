//! A request whose number is new is decided within a work, by the tables as they stand there, and what it changes is written
//! there with its reply.

ghost use Rattle.std.specs.Prelude.{◌≡◌, ◌<◌, ◌^◌, false};
ghost use Rattle.fax_decide.specs.Settings.{settings_of};
ghost use Rattle.fax_once.specs.Acceptance.{AnswersWithin, DecidesNow, DecidesWithin, ReadsMeta};

use crate::accepting::accept;
use crate::floor::raised;
use crate::known::Known;
use crate::sender::Sender;
use fax_ask::Reply;
use fax_core::Ask;
use fax_decide::{Decision, Fault, Office, decide};
use fax_job::{Moment, Refusal};
use fax_run::Arrival;
use fax_store::{Meta, Store, StoreFault, Work};
use sqlite::Alter;
use std::alloc::Global;

/// The reply to a request whose number is new.
#[derive(Drop)]
pub(crate) enum Answered {
    /// Nothing changes.
    Unchanged(Reply),
    /// It is accepted. What it changes is written, and so is this reply, which is kept.
    Accepted(Reply),
}

/// What is decided of a request.
#[derive(Drop)]
struct Decided {
    /// When: at the later of its moment and the clock.
    t: Moment,
    /// The clock and the next numbers before it.
    meta: Meta,
    decision: Decision,
}

/// Decides a request whose number is new, at the later of its moment and the clock, and writes what it changes, but for the
/// clock and the next numbers, which `known` has then. Nothing is committed. No client gives up the reply to the very request
/// by which it does.
///
/// # Errors
///
/// Lack of memory and the faults of the store. Then nothing has changed in the work, or it can't be committed.
pub(crate) fn answer_new<S: Alter>(
    work: &mut Work<'_, S>,
    office: &Office,
    alloc: Global,
    arrival: &Arrival<'_>,
    sender: &Sender<'_>,
    ask: Ask,
    floor: u64,
    known: &mut Known,
) -> Result<Answered, Fault>
    requires on { work.old.failed ≡ false }
    requires bounded { floor < 10 ^ 18 }
    ensures { AnswersWithin S.Store work.old work.new result (settings_of office.now.setup office.now.controls) arrival.now
        sender.now ask floor known.old known.new }
{
    let Some(ask) = raised(ask, sender.number, floor) else {
        return Ok(Answered::Unchanged(Reply::refused(Refusal::FloorHigh)));
    };
    let Decided { t, meta, decision } = decide_within(
        work,
        office,
        alloc,
        ask,
        arrival.moment,
        known.meta(),
    )?;
    match decision {
        Decision::Taken { effect, reply } => {
            let is_aged = known.is_aged(t);
            *known = known.after(&effect, t, meta);
            accept(work, alloc, arrival, sender, t, is_aged, &effect, reply)
        }
        Decision::Refused(reply) => Ok(Answered::Unchanged(reply)),
    }
}

/// Decides a request at the later of a moment and the clock, by the tables as they stand within the work. The clock and the
/// next numbers may be known.
fn decide_within<S: Alter>(
    work: &mut Work<'_, S>,
    office: &Office,
    alloc: Global,
    ask: Ask,
    moment: Moment,
    known: Option<Meta>,
) -> Result<Decided, Fault>
    requires { work.old.failed ≡ false }
    ensures { DecidesWithin S.Store work.old work.new result (settings_of office.now.setup office.now.controls) ask moment known }
{
    let decided = decide_now(work.store, office, alloc, ask, moment, known);
    if work.check() {
        decided
    } else {
        Err(Fault::NoAnswer)
    }
}

/// Decides a request at the later of a moment and the clock, by the tables as they stand now. The clock and the next numbers
/// may be known.
fn decide_now<S: Alter>(
    store: &mut Store<S>,
    office: &Office,
    alloc: Global,
    ask: Ask,
    moment: Moment,
    known: Option<Meta>,
) -> Result<Decided, Fault>
    ensures { DecidesNow S.Store store.old store.new result (settings_of office.now.setup office.now.controls) ask moment known }
{
    let meta = meta_by(store, known)?;
    let t = meta.clock.later(moment);
    let decision = decide(store, office, alloc, ask, &meta, t)?;
    Ok(Decided { t, meta, decision })
}

/// The clock and the next numbers, which are read unless they are known.
fn meta_by<S: Alter>(store: &mut Store<S>, known: Option<Meta>) -> Result<Meta, StoreFault>
    ensures { ReadsMeta S.Store store.old store.new result known }
{
    match known {
        Some(meta) => Ok(meta),
        None => store.meta(),
    }
}
