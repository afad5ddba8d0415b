//! What the queue makes of an arrival: one of its own, and what was said, as it is kept and compared.

ghost use Rattle.std.specs.Prelude.{◌≡◌, ◌∷◌, IfOk};
ghost use Rattle.std.specs.Str.{bytes_eq};
ghost use Rattle.fax_run.specs.Arrival.{said_of};

use fax_ask::Method;
use fax_job::Moment;
use fax_run::Arrival;
use std::alloc::{AllocError, Global};

/// A `GET` of that path, which needs no client and no number.
pub(crate) fn get<'a>(path: &'a str, moment: Moment) -> Arrival<'a>
    ensures method { result.method ≡ Method.Get }
    ensures path { result.path.now ≡ path.now }
    ensures moment { result.moment ≡ moment }
{
    Arrival {
        client: b"",
        number: b"",
        moment,
        method: Method::Get,
        path,
        body: b"",
    }
}

/// What was said, as it is kept beside its reply: the path, LF, the body.
pub(crate) fn said_by(alloc: Global, arrival: &Arrival<'_>) -> Result<Vec<u8>, AllocError>
    ensures { IfOk result (λ said. said.items ≡ said_of arrival.now) }
{
    let mut said = Vec::from_slice(alloc, arrival.path.as_bytes())?;
    said.extend_from_slice(b"\n")?;
    said.extend_from_slice(arrival.body)?;
    Ok(said)
}

/// Whether these bytes are what was said. It takes no memory.
pub(crate) fn says(arrival: &Arrival<'_>, said: &[u8]) -> bool
    ensures { result ≡ bytes_eq said.now (said_of arrival.now) }
{
    match said.strip_prefix(arrival.path.as_bytes()) {
        Some(rest) => is_behind_line_feed(arrival.body, rest),
        None => false,
    }
}

/// Whether the text is a line feed and then that body.
fn is_behind_line_feed(body: &[u8], text: &[u8]) -> bool
    ensures { result ≡ bytes_eq text.now (10 ∷ body.now) }
{
    match text.split_first() {
        Some((first, rest)) => *first == b'\n' && rest == body,
        None => false,
    }
}
