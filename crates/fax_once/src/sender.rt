//! Who sent a request.

ghost use Rattle.std.specs.Prelude.{◌≡◌, Err, IfErr, IfOk, IfSome, is_some};
ghost use Rattle.fax_value.specs.Name.{is_name as is_name_of};
ghost use Rattle.fax_once.specs.Sender.{IsSender};
ghost use Rattle.fax_run.specs.Arrival.{number_of};

use fax_job::{Refusal, RequestNumber, is_name};
use fax_run::Arrival;
use std::str;

/// Who sent a request, and the sender's number of it.
#[derive(Clone, Copy)]
pub(crate) struct Sender<'a> {
    pub client: &'a str,
    pub number: RequestNumber,
}

impl<'a> Sender<'a> {
    /// Who sent an arrival.
    ///
    /// # Errors
    ///
    /// `BadClient`, then `BadNumber`.
    pub(crate) fn of(arrival: &Arrival<'a>) -> Result<Sender<'a>, Refusal>
        ensures sender { IfOk result (IsSender arrival.now) }
        ensures refused { IfErr result (λ refusal. number_of arrival.now ≡ Err refusal) }
    {
        let client = read_client(arrival.client).ok_or(Refusal::BadClient)?;
        let number = RequestNumber::read(arrival.number).ok_or(Refusal::BadNumber)?;
        Ok(Sender { client, number })
    }
}

/// The client that the bytes name.
fn read_client(text: &[u8]) -> Option<&str>
    ensures named { is_some result ≡ is_name_of text.now }
    ensures same { IfSome result (λ client. client.now ≡ text.now) }
{
    if !is_name(text) {
        return None;
    }
    match str::from_utf8(text) {
        Ok(client) => Some(client),
        Err(_) => None,
    }
}
