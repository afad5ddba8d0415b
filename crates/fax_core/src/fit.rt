//! Jobs and grants that fit together.

ghost use Rattle.std.specs.Prelude.{◌≡◌, ◌+◌, ◌==◌};
ghost use Rattle.std.specs.Option.{option_map};
ghost use Rattle.fax_core.specs.Fits.{fits, fits_grant, is_counted, has_call_left, can_go_on, fits_phase, is_granted};

use crate::grants::Grant;
use fax_job::{Job, JobFields, Phase, Wish};

/// Whether a job and its open grant, or none, fit together as in every sound queue: no counter is over
/// its limit; a job with an open grant is granted, and the grant goes on where the job stands; a job
/// without one isn't granted, and has a page, a dial and a try left where it is held or waits.
pub fn fits(job: &Job, grant: Option<&Grant>) -> bool
    ensures { result ≡ fits job.now (option_map (λ one. one.now) grant.entry) }
{
    let fields = job.fields();
    match grant {
        None => is_counted(fields) && fields.wish == Wish::Go && fits_phase(fields),
        Some(grant) => fits_grant(fields, grant),
    }
}

fn fits_grant(fields: &JobFields, grant: &Grant) -> bool
    ensures { result ≡ fits_grant fields.now grant.now }
{
    is_counted(fields)
        && fields.phase == Phase::Granted
        && goes_on(grant.first_page, grant.confirmed, fields.npages)
        && grant.last_page == fields.totpages
        && grant.first_page <= grant.last_page
        && (grant.call.is_some() || has_call_left(fields))
}

/// The pages of the grant that are confirmed are the last that are sent.
fn goes_on(first_page: u16, confirmed: u16, npages: u16) -> bool
    ensures { result ≡ (first_page + confirmed == npages + 1) }
{
    u32::from(first_page) + u32::from(confirmed) == u32::from(npages) + 1
}

/// No more pages are sent than there are, and no counter is over its limit.
fn is_counted(fields: &JobFields) -> bool
    ensures { result ≡ is_counted fields.now }
{
    fields.npages <= fields.totpages
        && fields.ndials <= fields.totdials
        && fields.totdials <= fields.maxdials
        && fields.ntries <= fields.tottries
        && fields.tottries <= fields.maxtries
}

/// A dial and a try are left.
fn has_call_left(fields: &JobFields) -> bool
    ensures { result ≡ has_call_left fields.now }
{
    fields.totdials < fields.maxdials && fields.tottries < fields.maxtries
}

/// The phase is one that a job with no open grant may have.
fn fits_phase(fields: &JobFields) -> bool
    ensures { result ≡ fits_phase fields.now.phase fields.now }
{
    match fields.phase {
        Phase::Held | Phase::Waiting => fields.npages < fields.totpages && has_call_left(fields),
        Phase::Granted => false,
        Phase::Done | Phase::Failed => true,
    }
}
