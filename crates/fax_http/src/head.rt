//! The head of a reply, spelled in a fixed buffer.
ghost use Rattle.std.specs.Prelude.{◌≡◌, ◌≤◌, length};
ghost use Rattle.fax_http.specs.Reply.{head_bytes, phrase_of, media_type as media_type_of, closing_field as closing_field_of};

use arrayvec::ArrayString;
use http::StatusCode;

/// Room for the longest head.
pub const HEAD_ROOM: usize = 200;

pub type Head = ArrayString<HEAD_ROOM>;

#[tactic(auto, unfolding(crate::specs::Reply::head_bytes))]
pub fn reply_head(status: StatusCode, is_json: bool, body_length: usize, is_last: bool) -> Head
    ensures { result.bytes ≡ head_bytes status is_json body_length is_last }
{
    let mut number = itoa::Buffer::new();
    let mut head = ArrayString::new();
    head.push_str("HTTP/1.1 ");
    head.push_str(number.format(status.as_u16()));
    head.push_str(" ");
    head.push_str(phrase(status));
    head.push_str("\r\nContent-Type: ");
    head.push_str(media_type(is_json));
    head.push_str("\r\nContent-Length: ");
    head.push_str(number.format(body_length));
    head.push_str("\r\n");
    head.push_str(closing_field(is_last));
    head.push_str("\r\n");
    head
}

/// The phrase of a status, empty where it has none.
#[tactic(auto, unfolding(crate::specs::Reply::phrase_of))]
fn phrase(status: StatusCode) -> &'static str
    ensures text { result.now ≡ phrase_of status }
    ensures short { length result.now ≤ 31 }
{
    status.canonical_reason().unwrap_or("")
}

/// The media type of a body (RFC 9110, section 8.3).
fn media_type(is_json: bool) -> &'static str
    ensures text { result.now ≡ media_type_of is_json }
    ensures short { length result.now ≤ 16 }
{
    if is_json {
        "application/json"
    } else {
        "text/plain"
    }
}

/// The field of a reply that no other follows (RFC 9112, section 9.6).
fn closing_field(is_last: bool) -> &'static str
    ensures text { result.now ≡ closing_field_of is_last }
    ensures short { length result.now ≤ 19 }
{
    if is_last { "Connection: close\r\n" } else { "" }
}
