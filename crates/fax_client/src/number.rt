//! Request numbers that follow the clock.

ghost use Rattle.std.specs.Prelude.{◌<◌, ◌≤◌, IfSome};

use fax_job::RequestNumber;
use std::time::{SystemTime, UNIX_EPOCH};

/// How many ticks each second has.
const A_SECOND: u64 = 100_000;

/// For how many seconds the queue keeps a client's replies before that gives them up.
const A_WINDOW: u64 = 600;

/// A moment in hundred-thousandths of a second since 1970-01-01T00:00:00Z: as a number, seconds and five digits.
#[derive(Clone, Copy, Debug, PartialEq, Eq)]
pub struct Ticks {
    count: u64,
}

impl Ticks {
    /// The moment of the machine's clock, or 0 if it can't be read. No clause speaks of what it shows: `checks/run journals`
    /// tries journals that are lost.
    pub fn now(rt: &HostRuntime) -> Ticks {
        Ticks {
            count: read_clock(rt).unwrap_or(0),
        }
    }
}

fn read_clock(rt: &HostRuntime) -> Option<u64> {
    let now = SystemTime::now(rt).ok()?;
    let since = now.duration_since(UNIX_EPOCH).ok()?;
    let ticks = u64::from(since.subsec_nanos()) / 10_000;
    since.as_secs().checked_mul(A_SECOND)?.checked_add(ticks)
}

/// A number above the last one: that of the moment, or the next one if the clock isn't ahead of it. So a journal that was
/// lost uses none twice. There is none after 18 digits.
pub(crate) fn next_number(last: RequestNumber, now: Ticks) -> Option<RequestNumber>
    ensures above { IfSome result (λ number. last < number) }
    ensures follows { IfSome result (λ number. now.count ≤ number) }
{
    let next = last.get() + 1;
    RequestNumber::new(if now.count < next { next } else { now.count })
}

/// Whether the clock has come into another window since a client used the earlier of these numbers. A new journal has used
/// none.
pub(crate) fn is_in_later_window(number: RequestNumber, earlier: RequestNumber) -> bool {
    let window = A_SECOND * A_WINDOW;
    let from = earlier.get() / window;
    0 < from && from < number.get() / window
}
