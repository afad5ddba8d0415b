//! Any request: what is decided of it.

ghost use Rattle.std.specs.Prelude.{◌≡◌};
ghost use Rattle.fax_core.specs.Ageing.{aged};
ghost use Rattle.fax_core.specs.Machine.{act};
ghost use Rattle.fax_core.specs.Queue.{Queue};
ghost use Rattle.fax_core.specs.Sound.{Sound};
ghost use Rattle.fax_tables.specs.Meta.{meta_of};
ghost use Rattle.fax_decide.specs.Looking.{DecidesBy, IsDecided};
ghost use Rattle.fax_decide.specs.Read.{IsRead, IsSubmission};
ghost use Rattle.fax_decide.specs.Settings.{settings_of};

use crate::choice::decide_next;
use crate::decision::Decision;
use crate::fault::Fault;
use crate::floors::decide_floor;
use crate::import::decide_import;
use crate::jobs::decide_on_job;
use crate::modems::decide_mark;
use crate::office::Office;
use crate::purge::decide_purge;
use crate::reports::decide_report;
use crate::submission::decide_submission;
use fax_core::Ask;
use fax_job::Moment;
use fax_store::{Meta, Store};
use sqlite::Alter;
use std::alloc::Global;

/// What is decided of a request at `t`, by the rows that it is about.
///
/// # Errors
///
/// [`Fault`].
pub fn decide<S: Alter>(
    store: &mut Store<S>,
    office: &Office,
    alloc: Global,
    ask: Ask,
    meta: &Meta,
    t: Moment,
) -> Result<Decision, Fault>
    ensures decides { DecidesBy S.Store store.old store.new result meta.now t
        (λ m. act (settings_of office.now.setup office.now.controls) (aged t m) t ask) (IsRead ask) }
    // A submission is decided by the clock and the next numbers alone, whatever the tables say.
    ensures submits { IsSubmission ask → (m : Queue) → Sound m → meta.now ≡ meta_of m
        → IsDecided result (act (settings_of office.now.setup office.now.controls) (aged t m) t ask) m t (IsRead ask) }
{
    match ask {
        Ask::Submission(order) => decide_submission(office, alloc, order, meta, t),
        Ask::Bring(import) => decide_import(store, office, alloc, import, meta, t),
        Ask::OnJob { job, ask } => decide_on_job(store, office, alloc, job, ask, t),
        Ask::Mark { modem, down } => decide_mark(office, alloc, modem, down),
        Ask::Next { modem } => decide_next(store, office, alloc, modem, meta.next_grant, t),
        Ask::OnGrant { grant, report } => decide_report(store, office, alloc, grant, report, t),
        Ask::GiveUp { upto } => decide_floor(alloc, upto),
        Ask::Purge { before } => decide_purge(store, alloc, before, t),
    }
}
