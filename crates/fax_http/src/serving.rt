//! A stream is served: its messages are answered in order, each before the next is read to its end.
ghost use Rattle.std.specs.Prelude.{◌≡◌, ℕ, List, Bool, false};
ghost use Rattle.httparse.specs.Grammar.{RequestHead};
ghost use Rattle.fax_ask.specs.Response.{Response};

use crate::buffer::Buffer;
use crate::device::Watched;
use crate::exchange::{Exchange, serve_one};
use crate::message::Message;
use fax_ask::Reply;
use std::alloc::Global;
use std::io::{Read, Write};

/// How much one stream may ask for.
#[derive(Clone, Copy, Debug, PartialEq, Eq)]
pub struct Bounds {
    /// The most messages that are answered.
    pub messages: u32,
}

/// Why serving ended.
#[derive(Clone, Copy, Debug, PartialEq, Eq)]
pub enum End {
    /// The input ended where a message would begin, the last message was one that none follows, or the handler answers no
    /// more.
    Closed,
    /// Bytes that begin no message.
    Bad,
    /// The bound on messages was reached.
    Bound,
    ReadFailed,
    /// A write failed or took no byte, after `sent` bytes in all.
    WriteFailed { sent: u128 },
    /// There was no memory for the buffer. Nothing was read or written.
    NoMemory,
}

/// What came of a stream.
#[derive(Clone, Copy, Debug, PartialEq, Eq)]
pub struct Served {
    /// How many messages were handed over, the last of them even where its reply wasn't written.
    pub messages: u32,
    pub end: End,
}

/// Who answers messages.
pub trait Handler {
    ghost use Rattle.std.specs.Prelude.{IfSome, length};
    ghost use Rattle.fax_http.specs.Conversation.{Turn};
    ghost use Rattle.fax_http.specs.Cut.{ArePartsOf};
    ghost use Rattle.fax_http.specs.Joined.{AreTurnsOf};

    // What may come of a message, by its head and body: its reply, and the handler after it.
    ghost answers: { Self → RequestHead → List ℕ → Response → Self → Type 0 };

    // What may come of messages that are answered together.
    ghost together: { Self → List Turn → Self → Type 0 };

    // Whether it answers no more.
    ghost over: { Self → Bool };

    fn answer(&mut self, message: &Message<'_>) -> Reply
        requires { over self.old ≡ false }
        ensures { (head : RequestHead) (body : List ℕ) → ArePartsOf message.now head body → answers self.old head body result self.new };

    /// Answers messages one after the other, and keeps what they change together: all of it, or nothing. There are no replies
    /// where each message is to be answered 503.
    fn answer_all(&mut self, messages: &[Message<'_>]) -> Option<Vec<Reply>>
        requires { over self.old ≡ false }
        ensures as_many { IfSome result (λ replies. length replies.items ≡ length messages.now) }
        ensures answered { (turns : List Turn) → AreTurnsOf messages.now result turns → together self.old turns self.new };

    /// Whether it answers no more.
    fn is_over(&self) -> bool
        ensures { result ≡ over self.now };
}

ghost use Rattle.fax_http.specs.Device.{IsFresh};
ghost use Rattle.fax_http.specs.Serving.{ServesOne};

/// Reads messages, has each answered, and writes its reply before it reads on, until the stream ends, a message says
/// that none follows, the handler answers no more, or the bound is reached. Bytes that begin no message are refused, and
/// nothing behind them is read. All memory is taken before the first read.
pub fn serve<R: Read + Drop, W: Write + Drop, H: Handler>(
    alloc: Global,
    reader: &mut Watched<R>,
    writer: &mut Watched<W>,
    handler: &mut H,
    bounds: Bounds,
) -> Served
    requires reading { IsFresh reader.old }
    requires writing { IsFresh writer.old }
    requires going { H.over handler.old ≡ false }
    ensures { ServesOne R.remaining W.contents H.answers H.over bounds.messages reader.old reader.new writer.old writer.new handler.old handler.new result }
{
    let Ok(mut buffer) = Buffer::new(alloc) else {
        return Served {
            messages: 0,
            end: End::NoMemory,
        };
    };
    for messages in 0..bounds.messages {
        match serve_one(&mut buffer, reader, writer, handler) {
            Exchange::Answered => {}
            Exchange::Last(end) => {
                return Served {
                    messages: messages + 1,
                    end,
                };
            }
            Exchange::Missing(end) => return Served { messages, end },
        }
    }
    Served {
        messages: bounds.messages,
        end: End::Bound,
    }
}
