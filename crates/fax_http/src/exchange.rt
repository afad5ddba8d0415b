//! One message that is looked for in a stream, and its reply.
ghost use Rattle.std.specs.Prelude.{◌≡◌, ℕ, [], ◌++◌, false, OnOk, OnErr};
ghost use Rattle.fax_http.specs.Conversation.{failure_of};
ghost use Rattle.fax_http.specs.Device.{BrokeOff, Put};
ghost use Rattle.fax_http.specs.Exchange.{Exchanges, RepliesTo, WritesTo};
ghost use Rattle.fax_http.specs.declared.serving.End.TheVariants.{Bad};

use crate::buffer::Buffer;
use crate::device::{ReadFailed, Watched, WriteFailed};
use crate::message::Broken;
use crate::outgoing::Outgoing;
use crate::serving::{End, Handler};
use crate::turn::{Found, answer_front};
use std::io::{Read, Write};

/// What came of looking for a message.
#[derive(Clone, Copy)]
pub(crate) enum Exchange {
    /// It was answered, and another may follow.
    Answered,
    /// It was answered, and that is the end.
    Last(End),
    /// There was none.
    Missing(End),
}

/// Looks for a message at the front of the buffer, reads as far as it needs to, and has it answered. What stands
/// behind the message stays.
pub(crate) fn serve_one<R: Read + Drop, W: Write + Drop, H: Handler>(
    buffer: &mut Buffer,
    reader: &mut Watched<R>,
    writer: &mut Watched<W>,
    handler: &mut H,
) -> Exchange
    requires reading { reader.old.failed ≡ false }
    requires writing { writer.old.failed ≡ false }
    requires going { H.over handler.old ≡ false }
    ensures { Exchanges R.remaining W.contents H.answers H.over reader.old reader.new writer.old writer.new handler.old handler.new buffer.old buffer.new result }
{
    loop {
        match answer_front(buffer, handler) {
            Found::Answered(reply) => return write_reply(writer, &reply, false),
            Found::Last(reply) => return write_reply(writer, &reply, true),
            Found::Refused(reply) => return Exchange::Missing(refuse(writer, &reply)),
            Found::NotYet => match buffer.read_more(reader) {
                Ok(count) => {
                    if count == 0 {
                        return Exchange::Missing(end_input(buffer, writer));
                    }
                }
                Err(ReadFailed) => return Exchange::Missing(End::ReadFailed),
            },
        }
    }
}

/// Writes the reply to a message, which may be the last one.
fn write_reply<W: Write + Drop>(
    writer: &mut Watched<W>,
    reply: &Outgoing,
    is_last: bool,
) -> Exchange
    requires { writer.old.failed ≡ false }
    ensures { RepliesTo W.contents writer.old writer.new reply.now is_last result }
{
    match put(writer, reply) {
        Ok(()) if is_last => Exchange::Last(End::Closed),
        Ok(()) => Exchange::Answered,
        Err(WriteFailed) => Exchange::Last(End::WriteFailed {
            sent: writer.passed(),
        }),
    }
}

/// Ends an input that has no more bytes than these, which are no message.
fn end_input<W: Write + Drop>(buffer: &Buffer, writer: &mut Watched<W>) -> End
    requires { writer.old.failed ≡ false }
    ensures none { buffer.now ≡ [] → (result ≡ End.Closed) × (writer.new ≡ writer.old) }
    ensures some { ¬ (buffer.now ≡ []) → WritesTo W.contents writer.old writer.new (failure_of Broken.BadHttp) Bad result }
{
    if buffer.bytes().is_empty() {
        End::Closed
    } else {
        refuse(writer, &Outgoing::refusal(Broken::BadHttp))
    }
}

/// Writes the refusal of bytes that begin no message.
fn refuse<W: Write + Drop>(writer: &mut Watched<W>, refusal: &Outgoing) -> End
    requires { writer.old.failed ≡ false }
    ensures { WritesTo W.contents writer.old writer.new refusal.now Bad result }
{
    match put(writer, refusal) {
        Ok(()) => End::Bad,
        Err(WriteFailed) => End::WriteFailed {
            sent: writer.passed(),
        },
    }
}

/// Writes a reply, its front and then what stands behind it.
fn put<W: Write + Drop>(writer: &mut Watched<W>, reply: &Outgoing) -> Result<(), WriteFailed>
    requires { writer.old.failed ≡ false }
    ensures ok { OnOk result (Put W.contents writer.old writer.new reply.now false) }
    ensures err { OnErr result (BrokeOff W.contents writer.old writer.new reply.now) }
{
    let (front, back) = reply.parts();
    put_both(writer, front, back)
}

/// Writes the front and then the back.
fn put_both<W: Write + Drop>(
    writer: &mut Watched<W>,
    front: &[u8],
    back: &[u8],
) -> Result<(), WriteFailed>
    requires { writer.old.failed ≡ false }
    ensures ok { OnOk result (Put W.contents writer.old writer.new (front.now ++ back.now) false) }
    ensures err { OnErr result (BrokeOff W.contents writer.old writer.new (front.now ++ back.now)) }
{
    writer.put(front)?;
    writer.put(back)
}
