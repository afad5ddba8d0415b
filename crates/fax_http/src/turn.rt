//! One turn of a stream: the message that begins its bytes is taken out and answered.
ghost use Rattle.std.specs.Prelude.{◌≡◌, ◌≤◌, ℕ, List, false, length};
ghost use Rattle.httparse.specs.Grammar.{RequestHead};
ghost use Rattle.fax_http.specs.Cut.{ArePartsOf};
ghost use Rattle.fax_http.specs.Found.{Finds, HandsOver};

use crate::buffer::Buffer;
use crate::message::{Front, Message, split_message};
use crate::outgoing::{Form, Outgoing};
use crate::serving::Handler;
use http::Method;

/// What came of looking for a message at the front of some bytes.
#[derive(Drop)]
pub enum Found {
    /// There was one, which was answered, and another may follow.
    Answered(Outgoing),
    /// There was one, which was answered, and that is the end.
    Last(Outgoing),
    /// The bytes begin none, which is answered too, and that is the end.
    Refused(Outgoing),
    /// None is there to its end yet.
    NotYet,
}

/// Looks for a message at the front of the buffer, and has it answered. What stands behind the message stays.
pub fn answer_front<H: Handler>(buffer: &mut Buffer, handler: &mut H) -> Found
    requires { H.over handler.old ≡ false }
    ensures { Finds H.answers H.over handler.old handler.new buffer.old buffer.new result }
{
    let input = buffer.bytes();
    match split_message(input) {
        Ok(Front::Whole(message, rest)) => {
            let used = input.len() - rest.len();
            let found = answer(&message, handler);
            buffer.drop_front(used);
            found
        }
        Ok(Front::NotYet) => Found::NotYet,
        Err(broken) => Found::Refused(Outgoing::refusal(broken)),
    }
}

/// Hands a message over, and spells the reply to it.
fn answer<H: Handler>(message: &Message<'_>, handler: &mut H) -> Found
    requires { H.over handler.old ≡ false }
    ensures { (head : RequestHead) (body : List ℕ) → ArePartsOf message.now head body
        → HandsOver H.answers H.over handler.old handler.new head body result }
{
    let reply = handler.answer(message);
    let form = Form {
        has_body: message.method != Method::HEAD.as_str().as_bytes(),
        is_last: message.is_last,
    };
    let outgoing = Outgoing::new(reply, form);
    if message.is_last {
        return Found::Last(outgoing);
    }
    if handler.is_over() {
        return Found::Last(outgoing);
    }
    Found::Answered(outgoing)
}
