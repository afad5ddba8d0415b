//! One message of a stream: the head of a request by the grammar of `httparse` (RFC 9112, sections
//! 2 to 5), and a body of as many bytes as its `Content-Length` says.
ghost use Rattle.std.specs.Prelude.{◌≡◌, ℕ, List, [], ◌∷◌, ◌++◌, length, map, codes, All, IfOk};
ghost use Rattle.httparse.specs.Spans.{IsHeaderWithin, IsRequestWithin, header_bytes};
ghost use Rattle.fax_http.specs.Cut.{HoldsHead, HoldsMessage, IfHead, IfWhole};
ghost use Rattle.fax_http.specs.Field.{Shows};
ghost use Rattle.std.specs.List.{list_any};
ghost use Rattle.fax_http.specs.Message.{IsTooLarge, IsUnfinished, IsUnfinishedHead, NeverHasHead, StaysBad, closes, values_of, framed, lists, sole};

use fax_job::{at_comma, read_number, trimmed};
use http::header::{CONNECTION, CONTENT_LENGTH, TRANSFER_ENCODING};
use httparse::Status;
use httparse::spans::{EMPTY_HEADER_SPAN, HeaderSpan, RequestSpans, Span, parse_request};
use std::str;

/// The most bytes of a head, its empty line included.
pub const HEAD_LIMIT: usize = 16_384;
/// The most fields of a head.
pub const FIELD_LIMIT: usize = 64;
/// The most bytes of a body.
pub const BODY_LIMIT: u64 = 65_536;

/// Why no message begins some bytes.
#[derive(Clone, Copy, Debug, PartialEq, Eq)]
pub enum Broken {
    /// No head, a head past its limits, a framing that isn't taken, or a message that the end of an
    /// input cuts short.
    BadHttp,
    /// A head without another fault whose body is over `BODY_LIMIT`.
    TooLarge,
}

/// A message, its parts borrowed from the bytes that it was read from.
#[derive(Clone, Copy)]
pub struct Message<'b> {
    pub method: &'b [u8],
    pub target: &'b str,
    /// The field `Fax-Client`, empty where it is missing or occurs twice.
    pub client: &'b [u8],
    /// The field `Fax-Number`, likewise.
    pub number: &'b [u8],
    /// The field `Fax-Moment`, likewise.
    pub moment: &'b [u8],
    pub body: &'b [u8],
    /// Whether no message follows it: it is of HTTP/1.0, or a `Connection` field has the word `close`.
    pub is_last: bool,
}

/// What begins some bytes.
#[derive(Clone, Copy)]
pub enum Front<'b> {
    /// A message, and the bytes behind it.
    Whole(Message<'b>, &'b [u8]),
    /// No message yet: its head or its body isn't there to its end.
    NotYet,
}

/// Whether a head begins some bytes.
#[derive(Clone, Copy)]
enum HeadRead {
    /// A head within its limits.
    Head(RequestSpans),
    /// No head yet; more bytes may make one. Where only the limits forbid that, it may be told later.
    NotYet,
    /// No head within its limits, whatever bytes follow.
    Never,
}

/// How often a field occurs in a head, with its value where that is once.
#[derive(Clone, Copy)]
pub(crate) enum Occurrence<'b> {
    Missing,
    Once(&'b [u8]),
    Repeated,
}

impl<'b> Occurrence<'b> {
    /// The same field, with one more value behind those before.
    fn and(self, value: &'b [u8]) -> Occurrence<'b>
        ensures { (values : List (List ℕ)) → Shows self.entry values → Shows result (values ++ value.now ∷ []) }
    {
        match self {
            Occurrence::Missing => Occurrence::Once(value),
            Occurrence::Once(_) | Occurrence::Repeated => Occurrence::Repeated,
        }
    }

    /// The value, empty where the field doesn't occur exactly once.
    fn or_empty(self) -> &'b [u8]
        ensures { (values : List (List ℕ)) → Shows self.entry values → result.now ≡ sole values }
    {
        match self {
            Occurrence::Once(value) => value,
            Occurrence::Missing | Occurrence::Repeated => &[],
        }
    }
}

/// Cuts the message that `input` begins with off its front, where it is there to its end.
pub fn split_message(input: &[u8]) -> Result<Front<'_>, Broken>
    ensures message { IfOk result (λ front. IfWhole front (HoldsMessage input.now)) }
    ensures not_yet { result ≡ Ok Front.NotYet → IsUnfinished input.now }
    ensures too_large { result ≡ Err Broken.TooLarge → IsTooLarge input.now }
    ensures bad { result ≡ Err Broken.BadHttp → StaysBad input.now }
{
    let mut room = [EMPTY_HEADER_SPAN; FIELD_LIMIT];
    let head = match read_head(input, &mut room) {
        HeadRead::Head(head) => head,
        HeadRead::NotYet => return Ok(Front::NotYet),
        HeadRead::Never => return Err(Broken::BadHttp),
    };
    let fields = &room[..head.headers];
    let length = body_length(input, fields)?;
    let behind = &input[head.len..];
    if behind.len() < length {
        return Ok(Front::NotYet);
    }
    let (body, rest) = behind.split_at(length);
    let Ok(target) = str::from_utf8(head.path.of(input)) else {
        return Err(Broken::BadHttp);
    };
    let message = Message {
        method: head.method.of(input),
        target,
        client: find_field(input, fields, b"Fax-Client").or_empty(),
        number: find_field(input, fields, b"Fax-Number").or_empty(),
        moment: find_field(input, fields, b"Fax-Moment").or_empty(),
        body,
        is_last: is_last(input, head.version, fields),
    };
    Ok(Front::Whole(message, rest))
}

/// The head that `input` begins with, or whether there may be one yet.
fn read_head(input: &[u8], room: &mut [HeaderSpan]) -> HeadRead
    requires { length room.old ≡ FIELD_LIMIT }
    ensures within { IfHead result (IsRequestWithin input.now room.new) }
    ensures head { IfHead result (HoldsHead input.now room.new) }
    ensures not_yet { result ≡ HeadRead.NotYet → IsUnfinishedHead input.now }
    ensures never { result ≡ HeadRead.Never → NeverHasHead input.now }
{
    match parse_request(input, room) {
        Ok(Status::Complete(head)) if head.len <= HEAD_LIMIT => HeadRead::Head(head),
        Ok(Status::Partial) if input.len() < HEAD_LIMIT => HeadRead::NotYet,
        _ => HeadRead::Never,
    }
}

/// The length of the body that the fields frame: that of `Content-Length`, or 0 without one.
pub(crate) fn body_length(input: &[u8], fields: &[HeaderSpan]) -> Result<usize, Broken>
    requires { All (IsHeaderWithin (length input.now)) fields.now }
    ensures { result ≡ framed (map (header_bytes input.now) fields.now) }
{
    if !matches!(transfer_encoding(input, fields), Occurrence::Missing) {
        return Err(Broken::BadHttp);
    }
    let length = match content_length(input, fields) {
        Occurrence::Missing => 0,
        Occurrence::Once(value) => read_number(value).ok_or(Broken::BadHttp)?,
        Occurrence::Repeated => return Err(Broken::BadHttp),
    };
    if length > BODY_LIMIT {
        return Err(Broken::TooLarge);
    }
    Ok(length as usize)
}

/// The field that says how long a body is.
pub(crate) fn content_length<'b>(input: &'b [u8], fields: &[HeaderSpan]) -> Occurrence<'b>
    requires { All (IsHeaderWithin (length input.now)) fields.now }
    ensures { Shows result (values_of (codes "Content-Length") (map (header_bytes input.now) fields.now)) }
{
    find_field(input, fields, CONTENT_LENGTH.as_str().as_bytes())
}

/// The field that says how a body is coded for its transfer.
fn transfer_encoding<'b>(input: &'b [u8], fields: &[HeaderSpan]) -> Occurrence<'b>
    requires { All (IsHeaderWithin (length input.now)) fields.now }
    ensures { Shows result (values_of (codes "Transfer-Encoding") (map (header_bytes input.now) fields.now)) }
{
    find_field(input, fields, TRANSFER_ENCODING.as_str().as_bytes())
}

/// The field of that name among the fields of a head; letter case doesn't matter.
pub(crate) fn find_field<'b>(input: &'b [u8], fields: &[HeaderSpan], name: &[u8]) -> Occurrence<'b>
    requires { All (IsHeaderWithin (length input.now)) fields.now }
    ensures { Shows result (values_of name.now (map (header_bytes input.now) fields.now)) }
{
    let mut found = Occurrence::Missing;
    for field in fields {
        if field.name.of(input).eq_ignore_ascii_case(name) {
            found = found.and(field.value.of(input));
        }
    }
    found
}

/// Whether no message follows one of that minor version, with those fields.
fn is_last(input: &[u8], version: u8, fields: &[HeaderSpan]) -> bool
    requires { All (IsHeaderWithin (length input.now)) fields.now }
    ensures { result ≡ closes version (map (header_bytes input.now) fields.now) }
{
    version == 0 || has_word(input, fields, CONNECTION.as_str().as_bytes(), b"close")
}

/// Whether a field of that name lists the word, between commas; letter case doesn't matter.
fn has_word(input: &[u8], fields: &[HeaderSpan], name: &[u8], word: &[u8]) -> bool
    requires { All (IsHeaderWithin (length input.now)) fields.now }
    ensures { result ≡ list_any (lists word.now) (values_of name.now (map (header_bytes input.now) fields.now)) }
{
    let mut found = false;
    for field in fields {
        if field.name.of(input).eq_ignore_ascii_case(name) {
            found |= lists(field.value.of(input), word);
        }
    }
    found
}

/// Whether the word stands in the list.
fn lists(list: &[u8], word: &[u8]) -> bool
    ensures { result ≡ lists word.now list.now }
{
    let mut rest = Some(list);
    while let Some(parts) = rest {
        let (part, after) = at_comma(parts);
        if trimmed(part).eq_ignore_ascii_case(word) {
            return true;
        }
        rest = after;
    }
    false
}
