//! Tags that clients give their jobs.

ghost use Rattle.std.specs.Prelude.{◌≡◌, ℕ, List};
ghost use Rattle.std.specs.String.{string_bytes};
ghost use Rattle.fax_value.specs.Gives.{Gives, Tells};
ghost use Rattle.fax_value.specs.TextFault.{is_no_memory};
ghost use Rattle.fax_value.specs.JobTag.{is_job_tag, IsJobTag, job_tag_of};

use crate::text_fault::TextFault;
use crate::value::is_value;
use std::alloc::Global;
use std::marker::Model;

/// A client's tag of a job: at most 200 bytes, no control character but tab, not beginning with a
/// blank.
pub struct JobTag {
    text: String,
}

// By hand, so that a proof lets it go in one step.
impl Drop for JobTag {
    fn drop(self) {
        let JobTag { text: _ } = self;
    }
}

impl Model for JobTag {
    ghost Value = { List ℕ };

    ghost view = { λ tag. string_bytes tag.text };

    ghost invariant = { λ tag. IsJobTag (string_bytes tag.text) };
}

impl JobTag {
    /// The tag that the text is.
    pub fn read(alloc: Global, text: &str) -> Result<JobTag, TextFault>
        ensures read { Gives is_no_memory result (job_tag_of text.now) }
        ensures told { Tells result (job_tag_of text.now) }
    {
        if !is_job_tag(text.as_bytes()) {
            return Err(TextFault::Bad);
        }
        let text = String::from_str(alloc, text)?;
        Ok(JobTag { text })
    }

    pub fn as_str(&self) -> &str
        ensures text { result.now ≡ self.now }
        ensures formed { IsJobTag self.now }
    {
        self.text.as_str()
    }
}

fn is_job_tag(text: &[u8]) -> bool
    ensures { result ≡ is_job_tag text.now }
{
    text.len() <= 200 && is_value(text)
}
