//! A POST at the front of some bytes, which is answered together with others.

ghost use Rattle.std.specs.Prelude.{◌≡◌, ◌≤◌, drop, length, IfSome};
ghost use Rattle.fax_http.specs.Conversation.{spelled};
ghost use Rattle.fax_http.specs.Joined.{IsPost};

use crate::buffer::Buffer;
use crate::message::{Front, Message, split_message};
use crate::outgoing::{Form, Outgoing};
use fax_ask::Reply;
use http::Method;

/// How a message at the front of some bytes is answered: how many of them it takes, and which parts its reply has.
#[derive(Clone, Copy)]
pub struct Cut {
    used: usize,
    form: Form,
}

impl Cut {
    /// Whether no message follows it.
    pub fn is_last(self) -> bool
        ensures { result ≡ self.form.is_last }
    {
        self.form.is_last
    }

    /// The reply to it, as bytes.
    pub fn spell(self, reply: Reply) -> Outgoing
        ensures { result ≡ spelled reply self.form.has_body self.form.is_last }
    {
        Outgoing::new(reply, self.form)
    }

    /// Takes the message out of the buffer that it begins.
    pub fn take_from(self, buffer: &mut Buffer)
        requires { self.used ≤ length buffer.old }
        ensures { buffer.new ≡ drop self.used buffer.old }
    {
        buffer.drop_front(self.used);
    }
}

/// The POST that begins some bytes, where it is there to its end.
pub fn post_at(input: &[u8]) -> Option<(Message<'_>, Cut)>
    ensures { IfSome result (λ it. IsPost input.now it.0 it.1) }
{
    match split_message(input) {
        Ok(Front::Whole(message, rest)) if message.method == Method::POST.as_str().as_bytes() => {
            let form = Form {
                has_body: true,
                is_last: message.is_last,
            };
            let used = input.len() - rest.len();
            Some((message, Cut { used, form }))
        }
        _ => None,
    }
}
