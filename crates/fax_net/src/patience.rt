//! How long a peer may take.
ghost use Rattle.std.specs.Duration.{as_nanos};
ghost use Rattle.std.specs.Prelude.{◌≡◌, ◌↔◌, ◌-◌, ◌*◌, min, IsTrue};
ghost use Rattle.fax_net.specs.Patience.{IsFor, left};

use std::time::Duration;

/// How many times as long as a peer may move nothing its whole connection may take.
const WHOLE_FACTOR: u64 = 6;

/// How long a peer may move nothing, and how long its connection may go on in all.
#[derive(Clone, Copy)]
pub(crate) struct Patience {
    silent: Duration,
    whole: Duration,
}

impl Patience {
    /// A peer may move nothing for so many seconds, and its connection may go on for six times as many.
    pub(crate) fn limits(timeout: u64) -> Patience
        ensures { IsFor timeout result }
    {
        Patience {
            silent: Duration::from_secs(timeout),
            whole: Duration::from_secs(timeout.saturating_mul(WHOLE_FACTOR)),
        }
    }

    /// A peer may go on for so many seconds, whether it moves something or not.
    pub(crate) fn in_all(seconds: u64) -> Patience
        ensures silent { as_nanos result.silent ≡ seconds * 1_000_000_000 }
        ensures whole { as_nanos result.whole ≡ seconds * 1_000_000_000 }
    {
        let whole = Duration::from_secs(seconds);
        Patience {
            silent: whole,
            whole,
        }
    }

    /// How long it may go on, where nothing has moved for so long and its connection has gone on for that long.
    pub(crate) fn left(&self, silence: Duration, taken: Duration) -> Duration
        ensures { as_nanos result ≡ left self.now (as_nanos silence) (as_nanos taken) }
    {
        shorter(
            self.silent.saturating_sub(silence),
            self.whole.saturating_sub(taken),
        )
    }

    /// How long a peer that has moved nothing for so long may go on so.
    pub(crate) fn silence_left(&self, silence: Duration) -> Duration
        ensures { as_nanos result ≡ as_nanos self.now.silent - as_nanos silence }
    {
        self.silent.saturating_sub(silence)
    }

    /// Whether a connection that has gone on for so long has had all its time.
    pub(crate) fn is_over(&self, taken: Duration) -> bool
        ensures { IsTrue result ↔ (as_nanos self.now.whole - as_nanos taken ≡ 0) }
    {
        self.whole.saturating_sub(taken).is_zero()
    }
}

/// The shorter of two times: the first one without what it has more than the other.
pub(crate) fn shorter(one: Duration, other: Duration) -> Duration
    ensures { as_nanos result ≡ min (as_nanos one) (as_nanos other) }
{
    one.saturating_sub(one.saturating_sub(other))
}
