//! Numbers of requests.

ghost use Rattle.std.specs.Prelude.{◌≡◌, ◌≤◌, ◌<◌, ◌^◌, ℕ, if◌then◌else◌, nat_lt};
ghost use Rattle.fax_value.specs.Number.{begins_with_zero, request_number, request_number_of};

use crate::number::number;
use std::marker::Model;

/// A client's number of a request, from 1 to 999999999999999999.
#[derive(Clone, Copy, Debug, PartialEq, Eq, PartialOrd, Ord)]
pub struct RequestNumber {
    number: u64,
}

impl Model for RequestNumber {
    ghost Value = { ℕ };

    ghost view = { λ request. request.number };

    ghost invariant = { λ request. (1 ≤ request.number) × (request.number < 10 ^ 18) };

    ghost inverse = { λ number. record { number = number } };
}

impl RequestNumber {
    /// The number that 1 to 18 digits write, of which the first isn't 0.
    pub fn read(text: &[u8]) -> Option<RequestNumber>
        ensures { result ≡ request_number_of text.now }
    {
        if begins_with_zero(text) {
            return None;
        }
        match number(text) {
            Some(number) => Some(RequestNumber { number }),
            None => None,
        }
    }

    /// The request number that this is, where it is one.
    pub fn new(number: u64) -> Option<RequestNumber>
        ensures { result ≡ request_number number }
    {
        if 0 < number && number < 1_000_000_000_000_000_000 {
            Some(RequestNumber { number })
        } else {
            None
        }
    }

    /// The number, or the floor where that is greater.
    pub fn at_least(self, floor: u64) -> RequestNumber
        requires { floor < 10 ^ 18 }
        ensures { result ≡ (if nat_lt floor self then self else floor) }
    {
        if floor < self.number {
            self
        } else {
            RequestNumber { number: floor }
        }
    }

    pub fn get(self) -> u64
        ensures number { result ≡ self }
        ensures from { 1 ≤ result }
        ensures below { result < 10 ^ 18 }
    {
        self.number
    }
}

fn begins_with_zero(text: &[u8]) -> bool
    ensures { result ≡ begins_with_zero text.now }
{
    match text {
        [byte, ..] => *byte == b'0',
        [] => false,
    }
}
