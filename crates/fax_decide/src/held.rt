//! What a modem holds: an open grant, and the job of that.

ghost use Rattle.std.specs.Prelude.{◌≡◌, ℕ, true, IfOk, Some};
ghost use Rattle.fax_core.specs.Ageing.{aged};
ghost use Rattle.fax_core.specs.Machine.{held_by};
ghost use Rattle.fax_core.specs.Sound.{Sound};
ghost use Rattle.fax_core.specs.declared.grants.Grant.{Grant as OneGrant};
ghost use Rattle.fax_run.specs.Modems.{grant_shown};
ghost use Rattle.fax_tables.specs.Grant.{as_hold};
ghost use Rattle.fax_decide.specs.Choice.{is_held_by};
ghost use Rattle.fax_decide.specs.Fault.{OrNoAnswer};
ghost use Rattle.fax_decide.specs.Held.{IsHeldGrant, held_text};
ghost use Rattle.fax_decide.specs.Looking.{Consults};

use crate::fault::Fault;
use fax_core::Grant;
use fax_job::Job;
use fax_store::{Hold, Store};
use sqlite::Alter;

/// What a modem holds, if it holds a grant: that, and its job without the extra lines.
pub(crate) fn held_of<S: Alter>(
    store: &mut Store<S>,
    modem: &str,
) -> Result<Option<(Grant, Job)>, Fault>
    ensures { Consults S.Store store.old store.new result (λ m. (t : ℕ) → Sound m → OrNoAnswer result (λ held.
        held_text held ≡ grant_shown (aged t m) (held_by modem.now m))) }
{
    match store.hold_of(modem)? {
        Some(hold) => Ok(Some(held_grant(store, hold, modem)?)),
        None => Ok(None),
    }
}

/// The open grant of a hold of that modem, and its job without the extra lines. Where either isn't there, or the grant
/// is closed, or not the modem's or not of that job, as in no sound queue, there is no answer.
pub(crate) fn held_grant<S: Alter>(
    store: &mut Store<S>,
    hold: Hold,
    modem: &str,
) -> Result<(Grant, Job), Fault>
    ensures found { Consults S.Store store.old store.new result (λ m. (t : ℕ) (g : OneGrant) → Sound m
        → held_by modem.now m ≡ Some g → hold ≡ as_hold g → OrNoAnswer result (IsHeldGrant m t g)) }
    ensures fits { IfOk result (λ held. is_held_by modem.now held.1 held.0 ≡ true) }
{
    let Some(grant) = store.grant(hold.grant)? else {
        return Err(Fault::Strange);
    };
    let Some(job) = store.brief(hold.job)? else {
        return Err(Fault::Strange);
    };
    if !is_held(&grant, &job, modem) {
        return Err(Fault::Strange);
    }
    Ok((grant, job))
}

/// Whether a grant is open, of that job, and the modem's.
fn is_held(grant: &Grant, job: &Job, modem: &str) -> bool
    ensures { result ≡ is_held_by modem.now job.now grant.now }
{
    grant.is_open && grant.job == job.fields().job && grant.modem.as_str() == modem
}
