//! A reply on its way out: its bytes, of which the head is spelled and the body stays where it is.
ghost use Rattle.std.specs.Prelude.{◌≡◌, ◌++◌, [], true, if◌then◌else◌};
ghost use Rattle.fax_http.specs.Conversation.{failure_of, spelled};

use crate::head::{Head, reply_head};
use crate::message::Broken;
use fax_ask::Reply;
use fax_job::Refusal;
use std::marker::Model;

/// Which parts of a reply its message and place call for.
#[derive(Clone, Copy)]
pub(crate) struct Form {
    pub(crate) has_body: bool,
    pub(crate) is_last: bool,
}

/// A reply as bytes. Making it takes no memory.
pub struct Outgoing {
    head: Head,
    reply: Reply,
    has_body: bool,
}

// By hand, so that a proof lets it go in one step.
impl Drop for Outgoing {
    fn drop(self) {
        let Outgoing {
            head: _,
            reply: _,
            has_body: _,
        } = self;
    }
}

impl Model for Outgoing {
    ghost use Rattle.std.specs.Prelude.{ℕ, List, [], ◌++◌, if◌then◌else◌};

    ghost Value = { List ℕ };

    ghost view = { λ it. it.head.bytes ++ (if it.has_body then it.reply.body else []) };
}

impl Outgoing {
    pub(crate) fn new(reply: Reply, form: Form) -> Outgoing
        ensures { result ≡ spelled reply form.has_body form.is_last }
    {
        let head = reply_head(
            reply.status_code(),
            reply.is_json(),
            reply.body().len(),
            form.is_last,
        );
        Outgoing {
            head,
            reply,
            has_body: form.has_body,
        }
    }

    /// The refusal of bytes that begin no message, behind which none is looked for.
    pub fn refusal(broken: Broken) -> Outgoing
        ensures { result ≡ failure_of broken }
    {
        let reply = match broken {
            Broken::BadHttp => Reply::refused(Refusal::BadHttp),
            Broken::TooLarge => Reply::refused(Refusal::TooLarge),
        };
        let form = Form {
            has_body: true,
            is_last: true,
        };
        Outgoing::new(reply, form)
    }

    /// The bytes, in two parts: the front and what stands behind it.
    pub fn parts(&self) -> (&[u8], &[u8])
        ensures { result.0.now ++ result.1.now ≡ self.now }
    {
        (
            self.head.as_str().as_bytes(),
            body_part(self.reply.body(), self.has_body),
        )
    }
}

/// What is written of a body.
fn body_part(body: &[u8], has_body: bool) -> &[u8]
    ensures { result.now ≡ (if has_body then body.now else []) }
{
    if has_body { body } else { &[] }
}
