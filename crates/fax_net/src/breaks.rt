//! Breaks between tries.
ghost use Rattle.std.specs.Duration.{as_nanos};
ghost use Rattle.std.specs.Prelude.{◌≡◌, ◌≤◌, ◌*◌, IfSome};

use crate::patience::{Patience, shorter};
use mio::{Events, Poll};
use std::time::{Duration, Instant};

/// The longest break, in seconds.
const LONGEST: u64 = 8;

/// Breaks between tries: of one second, then two, four, and eight at most, for as long as there is time.
///
/// No clause says that a break lasts so long, nor when the last one is over. The commands of a client rely on it: they end
/// after `--wait`, and don't send their request all the time. `checks/run journals.waits` tries both.
#[derive(Drop)]
pub struct Breaks<'r> {
    rt: &'r HostRuntime,
    /// When the first try began, if the machine's clock could be read.
    begun: Option<Instant>,
    /// For how many seconds there are tries.
    wait: Option<u64>,
    /// How many seconds the next break is to have.
    seconds: u64,
}

impl<'r> Breaks<'r> {
    /// Breaks of tries that begin now and go on for so many seconds, or for ever.
    pub fn new(rt: &'r HostRuntime, wait: Option<u64>) -> Breaks<'r> {
        Breaks {
            rt,
            begun: Instant::now(rt).ok(),
            wait,
            seconds: 1,
        }
    }

    /// Waits for the next try. Returns whether there is one: the time may be over, or the system gives no means to wait.
    pub fn take(&mut self) -> bool {
        let Some(pause) = self.pause() else {
            return false;
        };
        self.seconds = self.seconds.saturating_mul(2).min(LONGEST);
        sleep(self.rt, pause)
    }

    /// How long the next break is, if there is time for one.
    fn pause(&self) -> Option<Duration>
        ensures { IfSome result (λ pause. as_nanos pause ≤ self.now.seconds * 1_000_000_000) }
    {
        let pause = Duration::from_secs(self.seconds);
        let Some(wait) = self.wait else {
            return Some(pause);
        };
        let taken = self.begun?.elapsed(self.rt).ok()?;
        let left = Patience::in_all(wait).left(Duration::ZERO, taken);
        if left.is_zero() {
            return None;
        }
        Some(shorter(pause, left))
    }
}

/// Waits for so long, by a wait for events that never come.
fn sleep(rt: &HostRuntime, time: Duration) -> bool {
    let Ok(mut poll) = Poll::new(rt) else {
        return false;
    };
    let Ok(mut events) = Events::with_capacity(rt.alloc(), 1) else {
        return false;
    };
    poll.poll(&mut events, Some(time)).is_ok()
}
