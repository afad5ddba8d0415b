//! Reasons of outcomes.

ghost use Rattle.std.specs.Prelude.{◌≡◌, [], IfOk, IfSome};
ghost use Rattle.std.specs.List.{list_all};
ghost use Rattle.fax_ask.specs.Report.{begins_with_space, is_reason, is_reason_byte, reason_of};
ghost use Rattle.fax_worker.specs.Sayable.{IsReason};

use fax_job::{Status, ends_with_backslash};
use std::alloc::{AllocError, Global};
use std::marker::Model;

/// Why a grant ended so: at most 200 bytes, no control character, no space in front, no `\` at the end.
/// It becomes the job's status.
pub struct Reason {
    text: Status,
}

// By hand, so that a proof lets it go in one step.
impl Drop for Reason {
    fn drop(self) {
        let Reason { text: _ } = self;
    }
}

impl Model for Reason {
    ghost use Rattle.std.specs.Prelude.{ℕ, List};
    ghost use Rattle.fax_worker.specs.Sayable.{IsReason};

    ghost Value = { List ℕ };

    ghost view = { λ reason. reason.text };

    ghost invariant = { λ reason. IsReason reason.text };
}

impl Reason {
    /// The reason that the text is, if it is one. The only error is out of memory.
    #[tactic(auto, using(crate::proofs::ReasonLemmas::reason_is_status))]
    pub fn read(alloc: Global, text: &str) -> Result<Option<Reason>, AllocError>
        ensures { IfOk result (λ read. read ≡ reason_of text.now) }
    {
        if !is_reason(text.as_bytes()) {
            return Ok(None);
        }
        let text = Status::given(alloc, text)?;
        Ok(Some(Reason { text }))
    }

    /// No reason: the empty text.
    pub fn none() -> Reason
        ensures { result ≡ [] }
    {
        Reason {
            text: Status::empty(),
        }
    }

    /// The reason as a job's status.
    pub(crate) fn into_status(self) -> Status
        ensures text { result ≡ self }
        ensures formed { IsReason self }
    {
        let Reason { text } = self;
        text
    }
}

/// Whether a text is a reason.
pub(crate) fn is_reason(text: &[u8]) -> bool
    ensures { result ≡ is_reason text.now }
{
    text.len() <= 200
        && !begins_with_space(text)
        && !ends_with_backslash(text)
        && is_of_reason_bytes(text)
}

fn begins_with_space(text: &[u8]) -> bool
    ensures { result ≡ begins_with_space text.now }
{
    match text {
        [byte, ..] => *byte == b' ',
        [] => false,
    }
}

fn is_of_reason_bytes(text: &[u8]) -> bool
    ensures { result ≡ list_all is_reason_byte text.now }
{
    text.iter().all(|byte| 32 <= *byte && *byte != 127)
}
