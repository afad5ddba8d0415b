//! The requests that `faxqd import` prints.

ghost use Rattle.std.specs.Prelude.{◌≡◌, ◌+◌, ◌≤◌, IfOk, length};
ghost use Rattle.fax_text.specs.Import.{first_number, import_message, last_request};

use crate::import_words::ImportPlan;
use fax_job::{RequestNumber, is_name};
use std::alloc::{AllocError, Global};
use thiserror::Error;

/// The greatest number of a request: 18 digits.
const LAST_REQUEST: u64 = 999_999_999_999_999_999;

/// Why no requests can be made of a plan.
#[derive(Clone, Copy, Debug, PartialEq, Eq, Error)]
pub enum ImportFault {
    #[error("a bad client")]
    Client,
    #[error("a bad number of the first request, or of the last")]
    Request,
}

impl ImportFault {
    ghost use Rattle.std.specs.Prelude.{◌≡◌};
    ghost use Rattle.fax_text.specs.Import.{fault_word};

    /// The word for it in a fault line.
    pub fn word(self) -> &'static str
        ensures { result.now ≡ fault_word self }
    {
        match self {
            ImportFault::Client => "client",
            ImportFault::Request => "request",
        }
    }
}

/// The number of the first request. Each file has the next number.
///
/// # Errors
///
/// `Client` where the client is no name; `Request` where the first number is none, or the last is over 18
/// digits.
#[tactic(auto, unfolding(crate::specs::Import::first_number))]
pub fn first_number(plan: &ImportPlan<'_>) -> Result<u64, ImportFault>
    ensures number { result ≡ first_number plan.now }
    ensures bound { IfOk result (λ number. number + length plan.now.files.items ≤ last_request + 1) }
{
    if !is_name(plan.client.as_bytes()) {
        return Err(ImportFault::Client);
    }
    let Some(number) = RequestNumber::read(plan.request.as_bytes()) else {
        return Err(ImportFault::Request);
    };
    let number = number.get();
    let more = plan.files.len() as u64;
    if LAST_REQUEST < number || LAST_REQUEST - number + 1 < more {
        return Err(ImportFault::Request);
    }
    Ok(number)
}

/// The bytes of the request that brings a job in: a `POST /imports` of HTTP/1.1 (RFC 9112) with this body.
/// The only error is want of memory.
pub fn import_request(
    alloc: Global,
    client: &str,
    number: u64,
    body: &[u8],
) -> Result<Vec<u8>, AllocError>
    ensures { IfOk result (λ text. text.items ≡ import_message client.now number body.now) }
{
    let length = body.len();
    let head = format!(in alloc;
        "POST /imports HTTP/1.1\r\nHost: localhost\r\nFax-Client: {client}\r\nFax-Number: {number}\r\nContent-Length: {length}\r\n\r\n"
    )?;
    let mut text = head.into_bytes();
    text.extend_from_slice(body)?;
    Ok(text)
}
