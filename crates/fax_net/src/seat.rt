//! One connection's socket, which never waits, and how long its peer may go on.
ghost use Rattle.std.specs.Duration.{as_nanos};
ghost use Rattle.std.specs.Prelude.{◌≡◌, ◌↔◌, ◌⊎◌, ◌++◌, false, true, length, IsTrue};
ghost use Rattle.fax_net.specs.Patience.{left};
ghost use Rattle.fax_net.specs.Peers.{IsWithin};
ghost use Rattle.fax_net.specs.Seat.{HasTried, IsLate, IsNew, IsOver, IsReady, Leaves, Stays, silence, taken};

use crate::patience::Patience;
use crate::peers::Moved;
use mio::net::TcpStream;
use std::io::{ErrorKind, IoSlice, Read};
use std::net::Shutdown;
use std::time::{Duration, Instant};

/// How many seconds the peer has to close, once it gets nothing more.
const LEAVE_LIMIT: u64 = 1;

/// The most reads meanwhile, and the most bytes of one.
const LEAVE_READS: u32 = 64;

const LEAVE_PIECE: usize = 4_096;

/// A connection's socket. The system says when it may be read or written again; until then it isn't tried.
#[derive(Drop)]
pub(crate) struct Seat {
    pub(crate) stream: TcpStream,
    patience: Patience,
    begun: Instant,
    /// When bytes moved last.
    moved: Instant,
    pub(crate) may_read: bool,
    pub(crate) may_write: bool,
    /// Whether the peer says no more.
    has_ended: bool,
    /// Whether it gets nothing more, and is only waited for.
    pub(crate) is_leaving: bool,
    /// Whether it has to leave for another one.
    is_sent_away: bool,
}

impl Seat {
    /// A connection that came just now.
    pub(crate) fn new(stream: TcpStream, patience: Patience, now: Instant) -> Seat
        ensures { IsNew result patience now }
    {
        Seat {
            stream,
            patience,
            begun: now,
            moved: now,
            may_read: true,
            may_write: true,
            has_ended: false,
            is_leaving: false,
            is_sent_away: false,
        }
    }

    /// How long it may go on without moving anything.
    pub(crate) fn time_left(&self, now: Instant) -> Duration
        ensures { as_nanos result ≡ left self.now.patience (silence self.now now) (taken self.now now) }
    {
        let taken = now.saturating_duration_since(self.begun);
        self.patience.left(self.silence(now), taken)
    }

    /// How long nothing has moved.
    pub(crate) fn silence(&self, now: Instant) -> Duration
        ensures { as_nanos result ≡ silence self.now now }
    {
        now.saturating_duration_since(self.moved)
    }

    /// Whether its time is over, or its place is wanted.
    pub(crate) fn is_late(&self, now: Instant) -> bool
        ensures { IsTrue result ↔ (IsLate self.now now) }
    {
        self.is_sent_away || self.time_left(now).is_zero()
    }

    /// Whether the time of the whole connection is over.
    fn is_over(&self, now: Instant) -> bool
        ensures { IsTrue result ↔ (IsOver self.now now) }
    {
        let taken = now.saturating_duration_since(self.begun);
        self.is_sent_away || self.patience.is_over(taken)
    }

    /// Whether the connection waits for its peer: nothing can be read now, or nothing can be written.
    pub(crate) fn is_stalled(&self) -> bool
        ensures { IsTrue result ↔ ((self.now.may_read ≡ false) ⊎ (self.now.may_write ≡ false)) }
    {
        !self.may_read || !self.may_write
    }

    /// Has it leave.
    pub(crate) fn send_away(&mut self)
        ensures { self.new ≡ record self.old { is_sent_away = true } }
    {
        self.is_sent_away = true;
    }

    /// What a read or a write that moves nothing yet results in.
    fn stay(&self, now: Instant) -> Moved
        ensures { Stays self.now now result }
    {
        if self.is_late(now) {
            Moved::Failed
        } else {
            Moved::Nothing
        }
    }

    /// Reads once, where there is something to read.
    pub(crate) fn read(&mut self, room: &mut [u8], now: Instant) -> Moved
        ensures within { IsWithin result (length room.new) }
        ensures tried { HasTried self.old self.new now result }
        ensures reads { IsReady result self.new.may_read }
        ensures writes { self.new.may_write ≡ self.old.may_write }
    {
        if self.is_over(now) {
            return Moved::Failed;
        }
        if !self.may_read {
            return self.stay(now);
        }
        let mut stream = &self.stream;
        match stream.read(room) {
            Ok(0) => {
                self.has_ended = true;
                Moved::End
            }
            Ok(count) => {
                self.moved = now;
                Moved::Bytes(count)
            }
            Err(error) if error.kind() == ErrorKind::WouldBlock => {
                self.may_read = false;
                self.stay(now)
            }
            Err(_) => Moved::Failed,
        }
    }

    /// Writes once, where the system takes something.
    pub(crate) fn write(&mut self, front: &[u8], back: &[u8], now: Instant) -> Moved
        ensures within { IsWithin result (length (front.now ++ back.now)) }
        ensures tried { HasTried self.old self.new now result }
        ensures writes { IsReady result self.new.may_write }
        ensures reads { self.new.may_read ≡ self.old.may_read }
    {
        if self.is_over(now) {
            return Moved::Failed;
        }
        if !self.may_write {
            return self.stay(now);
        }
        match self
            .stream
            .write_vectored(&[IoSlice::new(front), IoSlice::new(back)])
        {
            Ok(0) => Moved::Failed,
            Ok(count) => {
                self.moved = now;
                Moved::Bytes(count)
            }
            Err(error) if error.kind() == ErrorKind::WouldBlock => {
                self.may_write = false;
                self.stay(now)
            }
            Err(_) => Moved::Failed,
        }
    }

    /// Holds the connection, which isn't the peer's fault: only the time of the whole connection counts. Returns whether
    /// that isn't over.
    pub(crate) fn hold(&mut self, now: Instant) -> bool
        ensures moved { self.new ≡ record self.old { moved = now } }
        ensures stays { (result ≡ false) ↔ (IsOver self.old now) }
    {
        self.moved = now;
        !self.is_over(now)
    }

    /// Says that nothing more is written, and gives whether the peer is to be waited for. Where bytes were left unread, the
    /// system might drop a reply that the peer hasn't read yet (RFC 9112, section 9.6).
    pub(crate) fn leave(&mut self, now: Instant) -> bool
        ensures { Leaves self.old self.new now result }
    {
        if self.has_ended || self.stream.shutdown(Shutdown::Write).is_err() {
            return false;
        }
        self.is_leaving = true;
        self.begun = now;
        self.moved = now;
        self.patience = Patience::in_all(LEAVE_LIMIT);
        true
    }

    /// Drops what comes from a peer that is leaving, and gives whether it is to be waited for longer.
    pub(crate) fn drain(&mut self, now: Instant) -> bool
        ensures { result ≡ true → ¬ IsLate self.new now }
    {
        let mut piece = [0; LEAVE_PIECE];
        for _ in 0..LEAVE_READS {
            match self.read(&mut piece, now) {
                Moved::Bytes(_) => {}
                Moved::Nothing => return true,
                Moved::End | Moved::Failed => return false,
            }
        }
        false
    }
}
