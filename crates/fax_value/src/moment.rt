//! Moments, in whole seconds.

ghost use Rattle.std.specs.Prelude.{◌≡◌, ◌≤◌, ℕ, min, max};
ghost use Rattle.fax_value.specs.Limits.{last_moment};

use crate::limits::LAST_MOMENT;
use std::marker::Model;

/// A moment in whole seconds since 1970-01-01T00:00:00Z, from 0 to 4102444800.
#[derive(Clone, Copy, Debug, PartialEq, Eq, PartialOrd, Ord)]
pub struct Moment {
    seconds: u32,
}

impl Model for Moment {
    ghost Value = { ℕ };

    ghost view = { λ moment. moment.seconds };

    ghost invariant = { λ moment. moment.seconds ≤ last_moment };

    ghost inverse = { λ seconds. record { seconds = seconds } };
}

impl Moment {
    /// The moment of that many seconds. A greater number counts as 4102444800.
    pub fn new(seconds: u64) -> Moment
        ensures { result ≡ min seconds last_moment }
    {
        Moment {
            seconds: seconds.min(u64::from(LAST_MOMENT)) as u32,
        }
    }

    /// Seconds since 1970-01-01T00:00:00Z.
    pub fn seconds(self) -> u32
        ensures seconds { result ≡ self }
        ensures bound { result ≤ last_moment }
    {
        self.seconds
    }

    /// The later of the two.
    pub fn later(self, other: Moment) -> Moment
        ensures { result ≡ max self other }
    {
        if self.seconds < other.seconds {
            other
        } else {
            self
        }
    }
}
