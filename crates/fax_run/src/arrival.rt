//! A request as the queue gets it.

use fax_ask::Method;
use fax_job::Moment;

/// One request, its parts borrowed from the message that brought it.
#[derive(Clone, Copy)]
pub struct Arrival<'a> {
    /// The field `Fax-Client` as it was sent, empty where it is missing or occurs twice.
    pub client: &'a [u8],
    /// The field `Fax-Number`, likewise.
    pub number: &'a [u8],
    /// When it arrived, by the clock of whoever hands it over.
    pub moment: Moment,
    pub method: Method,
    /// The request target.
    pub path: &'a str,
    pub body: &'a [u8],
}
