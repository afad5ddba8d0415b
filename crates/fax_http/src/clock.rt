//! Where the moment of a message comes from.
ghost use Rattle.std.specs.Prelude.{◌≡◌};
ghost use Rattle.fax_http.specs.Clock.{IsMoment};

use fax_job::{Moment, read_number};
use std::time::{SystemTime, UNIX_EPOCH};

/// Gives each message its moment.
pub trait Clock {
    ghost use Rattle.std.specs.Prelude.{ℕ, List};

    // The moments that may be given for what is said, and the clock after each.
    ghost gives: { Self → List ℕ → ℕ → Self → Type 0 };

    /// The moment of a message whose field `Fax-Moment` has these bytes (none where the field is
    /// missing or occurs twice).
    fn moment(&mut self, said: &[u8]) -> Moment
        ensures { gives self.old said.now result self.new };
}

/// A clock that believes what is said, and else gives its last answer, 0 at first.
#[derive(Clone, Copy)]
pub struct SaidClock {
    last: Moment,
}

impl SaidClock {
    pub fn new() -> SaidClock
        ensures { result.last ≡ 0 }
    {
        SaidClock {
            last: Moment::new(0),
        }
    }
}

impl Clock for SaidClock {
    ghost use Rattle.std.specs.Prelude.{◌≡◌};
    ghost use Rattle.fax_http.specs.Clock.{moment_said};

    ghost gives = { λ old said moment new. (moment ≡ moment_said old.last said) × (new.last ≡ moment) };

    fn moment(&mut self, said: &[u8]) -> Moment {
        if let Some(seconds) = read_number(said) {
            self.last = Moment::new(seconds);
        }
        self.last
    }
}

/// The machine's clock. It gives its last answer, 0 at first, where that can't be read.
#[derive(Drop)]
pub struct MachineClock<'r> {
    rt: &'r HostRuntime,
    last: Moment,
}

impl<'r> MachineClock<'r> {
    pub fn new(rt: &'r HostRuntime) -> MachineClock<'r>
        ensures { result.last ≡ 0 }
    {
        MachineClock {
            rt,
            last: Moment::new(0),
        }
    }
}

impl Clock for MachineClock<'_> {
    ghost use Rattle.std.specs.Prelude.{◌≡◌};

    // What the machine's clock shows is not known here.
    ghost gives = { λ old said moment new. new.last ≡ moment };

    fn moment(&mut self, _said: &[u8]) -> Moment {
        if let Ok(now) = SystemTime::now(self.rt)
            && let Ok(since) = now.duration_since(UNIX_EPOCH)
        {
            self.last = Moment::new(since.as_secs());
        }
        self.last
    }
}

/// The moment that is said, or else that of the machine's clock.
pub fn moment_of(rt: &HostRuntime, said: Option<u64>) -> Moment
    ensures { IsMoment said result }
{
    match said {
        Some(seconds) => Moment::new(seconds),
        None => MachineClock::new(rt).moment(b""),
    }
}
