//! What a request makes of a job.

ghost use Rattle.std.specs.Prelude.{◌≡◌, Ok};

use fax_job::{Job, JobFields, JobTag, Moment, Name, Phase, Refusal, Status, Wish};

/// What a request makes of a job that it is taken for. What isn't named here stays.
#[derive(Drop)]
pub struct Change {
    pub phase: Phase,
    pub wish: Wish,
    /// Pages sent.
    pub npages: u16,
    /// Tries of the page that is next.
    pub ntries: u16,
    pub tottries: u16,
    /// Dials since the last connected call.
    pub ndials: u16,
    pub totdials: u16,
    /// The moment from which the job may be tried again, in seconds.
    pub next: u32,
    /// The new status. Without one the status stays.
    pub status: Option<Status>,
    /// The fields that an alteration sets.
    pub altered: Altered,
}

/// The fields that an alteration sets. `None` stays.
#[derive(Drop)]
pub struct Altered {
    pub modem: Option<Name>,
    pub jobtag: Option<JobTag>,
    pub tts: Option<Moment>,
    /// The new kill time; within it, none is no kill time.
    pub killtime: Option<Option<Moment>>,
    pub priority: Option<u8>,
    pub maxtries: Option<u16>,
    pub maxdials: Option<u16>,
}

impl Altered {
    ghost use Rattle.fax_core.specs.Change.{unaltered};

    /// No field is set.
    pub fn none() -> Altered
        ensures { result ≡ unaltered }
    {
        Altered {
            modem: None,
            jobtag: None,
            tts: None,
            killtime: None,
            priority: None,
            maxtries: None,
            maxdials: None,
        }
    }
}

impl Change {
    ghost use Rattle.fax_job.specs.declared.job.Phase.TheVariants.{Failed};
    ghost use Rattle.fax_core.specs.Change.{changed, unchanged};
    ghost use Rattle.fax_core.specs.Job.{job_of, fields_of};
    ghost use Rattle.fax_core.specs.Submission.{submitted, recorded};

    /// The change that leaves the job of these fields as it is.
    pub fn none(fields: &JobFields) -> Change
        ensures fields { result ≡ unchanged fields.now }
        ensures unchanged { changed result (job_of fields.now) ≡ job_of fields.now }
    {
        Change {
            phase: fields.phase,
            wish: fields.wish,
            npages: fields.npages,
            ntries: fields.ntries,
            tottries: fields.tottries,
            ndials: fields.ndials,
            totdials: fields.totdials,
            next: fields.next,
            status: None,
            altered: Altered::none(),
        }
    }

    /// The job after the change.
    ///
    /// # Errors
    ///
    /// `Unavailable` where it would be no lawful job, as [`Job::new`] tells.
    pub fn applied_to(self, job: Job) -> Result<Job, Refusal>
        ensures { submitted result ≡ recorded (Ok (changed self (job_of job))) }
    {
        match Job::new(self.fields_after(job.into_fields())) {
            Some(job) => Ok(job),
            None => Err(Refusal::Unavailable),
        }
    }

    fn fields_after(self, fields: JobFields) -> JobFields
        ensures { result ≡ fields_of (changed self (job_of fields)) }
    {
        let Altered {
            modem,
            jobtag,
            tts,
            killtime,
            priority,
            maxtries,
            maxdials,
        } = self.altered;
        JobFields {
            modem: modem.unwrap_or(fields.modem),
            jobtag: jobtag.unwrap_or(fields.jobtag),
            tts: tts.unwrap_or(fields.tts),
            killtime: killtime.unwrap_or(fields.killtime),
            priority: priority.unwrap_or(fields.priority),
            npages: self.npages,
            ntries: self.ntries,
            tottries: self.tottries,
            maxtries: maxtries.unwrap_or(fields.maxtries),
            ndials: self.ndials,
            totdials: self.totdials,
            maxdials: maxdials.unwrap_or(fields.maxdials),
            phase: self.phase,
            wish: self.wish,
            next: self.next,
            status: self.status.unwrap_or(fields.status),
            ..fields
        }
    }

    /// Only the phase changes.
    pub(crate) fn to_phase(fields: &JobFields, phase: Phase) -> Change
        ensures { changed result (job_of fields.now) ≡ record (job_of fields.now) { phase = phase } }
    {
        Change {
            phase,
            ..Change::none(fields)
        }
    }

    /// Only the wish changes.
    pub(crate) fn to_wish(fields: &JobFields, wish: Wish) -> Change
        ensures { changed result (job_of fields.now) ≡ record (job_of fields.now) { wish = wish } }
    {
        Change {
            wish,
            ..Change::none(fields)
        }
    }

    /// The job fails, and its status says why.
    pub(crate) fn to_failed(fields: &JobFields, status: Status) -> Change
        ensures { changed result (job_of fields.now) ≡ record (job_of fields.now) { phase = Failed; status = status } }
    {
        Change {
            phase: Phase::Failed,
            status: Some(status),
            ..Change::none(fields)
        }
    }
}
