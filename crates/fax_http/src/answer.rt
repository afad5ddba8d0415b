//! The reply to one request that was sent.
ghost use Rattle.std.specs.Prelude.{◌≡◌, ◌<◌, ◌+◌, false, length, Err, IfOk};
ghost use Rattle.fax_http.specs.Answer.{BeginsNoAnswer, BeginsWithAnswer, Gives, GivesNone, IfAnswer, NeverBeginsAnswer};

use crate::buffer::Buffer;
use crate::device::{ReadFailed, Watched};
use crate::message::{FIELD_LIMIT, HEAD_LIMIT, Occurrence, body_length, content_length};
use httparse::Status;
use httparse::spans::{EMPTY_HEADER_SPAN, parse_response};
use std::alloc::{AllocError, Global};
use std::io::Read;

/// The least status of a reply that none follows (RFC 9110, section 15).
const FINAL_STATUS: u16 = 200;

/// A reply that was read: its status (RFC 9110, section 15) and its body.
#[derive(Drop)]
pub struct Answer {
    pub status: u16,
    pub body: Vec<u8>,
}

/// Why there is no reply.
#[derive(Clone, Copy, Debug, PartialEq, Eq)]
pub enum AnswerFault {
    /// The reader failed or ended first, or what came is no reply within the limits of messages.
    NoReply,
    NoMemory,
}

impl From<AllocError> for AnswerFault {
    ghost use Rattle.std.specs.Prelude.{◌≡◌};
    ghost use Rattle.fax_http.specs.declared.answer.AnswerFault.TheVariants.{NoMemory};

    ghost from_gives = { λ _ fault. fault ≡ NoMemory };

    fn from(_: AllocError) -> AnswerFault {
        AnswerFault::NoMemory
    }
}

/// What begins some bytes.
#[derive(Clone, Copy)]
enum AnswerRead<'b> {
    /// A reply of that status and that body.
    Whole(u16, &'b [u8]),
    /// No reply yet: its head or its body isn't there to its end.
    NotYet,
    /// No reply within its limits, whatever bytes follow.
    Never,
}

/// Reads one reply: a head of at most 16,384 bytes and 64 fields, and a body of as many bytes as its one
/// `Content-Length` says, at most 65,536 (RFC 9112, sections 4 and 6). Room for what is read is taken before the first
/// read, and that of the body when it is there. A reply without `Content-Length`, one with `Transfer-Encoding` and an interim one, of a status
/// under 200, count as none.
pub fn read_answer<R: Read + Drop>(
    alloc: Global,
    reader: &mut Watched<R>,
) -> Result<Answer, AnswerFault>
    requires { reader.old.failed ≡ false }
    ensures answer { IfOk result (Gives R.remaining reader.old reader.new) }
    ensures none { result ≡ Err AnswerFault.NoReply → GivesNone R.remaining reader.old reader.new }
{
    let mut buffer = Buffer::new(alloc)?;
    loop {
        match split_answer(buffer.bytes()) {
            AnswerRead::Whole(status, bytes) => {
                let body = Vec::from_slice(alloc, bytes)?;
                return Ok(Answer { status, body });
            }
            AnswerRead::NotYet => match buffer.read_more(reader) {
                Ok(count) => {
                    if count == 0 {
                        return Err(AnswerFault::NoReply);
                    }
                }
                Err(ReadFailed) => return Err(AnswerFault::NoReply),
            },
            AnswerRead::Never => return Err(AnswerFault::NoReply),
        }
    }
}

/// Finds the reply that `input` begins with, where it is there to its end.
fn split_answer(input: &[u8]) -> AnswerRead<'_>
    ensures answer { IfAnswer result (BeginsWithAnswer input.now) }
    ensures within { result ≡ AnswerRead.NotYet → length input.now < 16384 + 65536 }
    ensures not_yet { result ≡ AnswerRead.NotYet → BeginsNoAnswer input.now }
    ensures never { result ≡ AnswerRead.Never → NeverBeginsAnswer input.now }
{
    let mut room = [EMPTY_HEADER_SPAN; FIELD_LIMIT];
    let head = match parse_response(input, &mut room) {
        Ok(Status::Complete(head)) if head.len <= HEAD_LIMIT => head,
        Ok(Status::Partial) if input.len() < HEAD_LIMIT => return AnswerRead::NotYet,
        _ => return AnswerRead::Never,
    };
    let fields = &room[..head.headers];
    let says_length = matches!(content_length(input, fields), Occurrence::Once(_));
    if head.code < FINAL_STATUS || !says_length {
        return AnswerRead::Never;
    }
    let Ok(length) = body_length(input, fields) else {
        return AnswerRead::Never;
    };
    let behind = &input[head.len..];
    if behind.len() < length {
        return AnswerRead::NotYet;
    }
    AnswerRead::Whole(head.code, &behind[..length])
}
