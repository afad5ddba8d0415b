//! Grants.

ghost use Rattle.std.specs.Prelude.{◌≡◌, ◌+◌, min, Some};
ghost use Rattle.fax_core.specs.Decisions.{granted};
ghost use Rattle.fax_core.specs.Job.{job_of};

use fax_job::{Call, Job, Name};

/// A grant of a job's pages to a modem. It is open until its outcome is accepted.
#[derive(Drop)]
pub struct Grant {
    /// The grant's number, from 1 to 999999999.
    pub number: u32,
    /// The job's number.
    pub job: u32,
    pub modem: Name,
    pub first_page: u16,
    pub last_page: u16,
    /// How the call went, once that is known.
    pub call: Option<Call>,
    /// Pages confirmed under this grant.
    pub confirmed: u16,
    pub is_open: bool,
}

impl Grant {
    /// The grant, under that number, of the pages that a job has left.
    pub fn new(job: &Job, modem: Name, number: u32) -> Grant
        ensures { result ≡ (granted (job_of job.now) modem number).grant }
    {
        let fields = job.fields();
        Grant {
            number,
            job: fields.job,
            modem,
            first_page: fields.npages + 1,
            last_page: fields.totpages,
            call: None,
            confirmed: 0,
            is_open: true,
        }
    }

    /// The grant with that call reported.
    pub fn with_call(self, call: Call) -> Grant
        ensures { result ≡ record self { call = Some call } }
    {
        Grant {
            call: Some(call),
            ..self
        }
    }

    /// The grant with one more page confirmed; at 65535 pages the number stays.
    pub fn with_page(self) -> Grant
        ensures { result ≡ record self { confirmed = min (self.confirmed + 1) 65535 } }
    {
        Grant {
            confirmed: self.confirmed.saturating_add(1),
            ..self
        }
    }
}
