//! Messages to the queue (RFC 9112).

ghost use Rattle.std.specs.Prelude.{◌≡◌, ◌++◌, IfOk, length, string_bytes};
ghost use Rattle.fax_client.specs.Message.{get_modems, post_head};

use fax_job::RequestNumber;
use std::alloc::{AllocError, Global};

/// Asks which modems there are, and what they hold.
pub(crate) fn get_modems() -> &'static str
    ensures { result.now ≡ get_modems }
{
    "GET /modems HTTP/1.1\r\nHost: localhost\r\n\r\n"
}

/// The POST of a body to a path, by that client under that number.
pub(crate) fn post_message(
    alloc: Global,
    client: &str,
    number: RequestNumber,
    path: &str,
    body: &[u8],
) -> Result<Vec<u8>, AllocError>
    ensures { IfOk result (λ message. message.items ≡ post_head client.now number path.now (length body.now) ++ body.now) }
{
    let head = post_head(alloc, client, number, path, body.len())?;
    let mut message = head.into_bytes();
    message.extend_from_slice(body)?;
    Ok(message)
}

/// The head of a POST with a body of that length.
fn post_head(
    alloc: Global,
    client: &str,
    number: RequestNumber,
    path: &str,
    length: usize,
) -> Result<String, AllocError>
    ensures { IfOk result (λ head. string_bytes head ≡ post_head client.now number path.now length) }
{
    let number = number.get();
    format!(in alloc;
        "POST {path} HTTP/1.1\r\nHost: localhost\r\nFax-Client: {client}\r\nFax-Number: {number}\r\nContent-Length: {length}\r\n\r\n"
    )
}
