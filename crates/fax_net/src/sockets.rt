//! The sockets of a server: where connections come from, which of them are ready, and who has to leave.
//!
//! What is proved of a server is proved of any [`Peers`]. That [`Sockets`] are such is trusted: no clause can say what the
//! system's sockets do. Each method says for what it is trusted, and which check tries it.

ghost use Rattle.std.specs.Prelude.{◌≡◌, ◌++◌, false, length, IfOk};
ghost use Rattle.fax_net.specs.Patience.{IsFor};
ghost use Rattle.fax_net.specs.Peers.{IsWithin};
ghost use Rattle.fax_net.specs.Sockets.{IsFree};

use crate::joining::PLACES;
use crate::patience::{Patience, shorter};
use crate::peers::{BindFault, Coming, Moved, Network, Peers};
use crate::seat::Seat;
use mio::net::{TcpListener, TcpStream};
use mio::{Events, Interest, Poll, Token};
use std::alloc::{AllocError, Global};
use std::io::{self, ErrorKind};
use std::net::ToSocketAddrs;
use std::thread::yield_now;
use std::time::{Duration, Instant};

/// The token of the listening socket; those of connections are their places.
const DOOR: usize = PLACES;

/// The most events of one look.
const EVENT_LIMIT: usize = PLACES + 1;

/// How many milliseconds a peer may move nothing where all places are taken and another one waits.
const CROWD_LIMIT: u64 = 500;

/// How many milliseconds a peer may move nothing once no more connections are accepted.
const CLOSING_LIMIT: u64 = 1_000;

/// How many milliseconds nobody is accepted behind one that couldn't be.
const RETRY_LIMIT: u64 = 50;

/// How many milliseconds longer it waits, since the system counts whole ones.
const ROUNDING: u64 = 1;

/// The most looks while the last peers leave.
const LAST_LOOKS: u32 = 100_000;

/// A listening socket, and the connections that came, each at its place.
#[derive(Drop)]
pub struct Sockets<'r> {
    rt: &'r HostRuntime,
    poll: Poll,
    events: Events,
    door: TcpListener,
    seats: Vec<Option<Seat>>,
    patience: Patience,
    now: Instant,
    /// Whether somebody may wait to be accepted.
    may_accept: bool,
    /// Whether that was asked anew since all places are taken, so that it is so.
    is_asked: bool,
    /// Until when nobody is accepted.
    retry: Option<Instant>,
    /// Since when no more connections are accepted.
    closing: Option<Instant>,
}

impl<'r> Sockets<'r> {
    /// Listens on the address. A peer may move nothing for so many seconds.
    fn bind(rt: &'r HostRuntime, address: &str, timeout: u64) -> Result<Sockets<'r>, BindFault>
        ensures { IfOk result (λ sockets. IsFor timeout sockets.patience) }
    {
        let poll = Poll::new(rt)?;
        let mut door = listener(rt, address)?;
        poll.registry()
            .register(&mut door, Token(DOOR), Interest::READABLE)?;
        Ok(Sockets {
            rt,
            poll,
            events: Events::with_capacity(rt.alloc(), EVENT_LIMIT)?,
            door,
            seats: empty_seats(rt.alloc())?,
            patience: Patience::limits(timeout),
            now: Instant::now(rt)?,
            may_accept: true,
            is_asked: false,
            retry: None,
            closing: None,
        })
    }

    /// The machine's clock, or its last answer where that can't be read.
    fn read_clock(&mut self) -> Instant
        ensures { self.new ≡ record self.old { now = result } }
    {
        if let Ok(now) = Instant::now(self.rt) {
            self.now = now;
        }
        self.now
    }

    fn is_leaving(&self, place: usize) -> bool {
        match self.seats.get(place) {
            Some(Some(seat)) => seat.is_leaving,
            Some(None) | None => false,
        }
    }

    fn has_somebody(&self) -> bool {
        self.seats.iter().any(|seat| seat.is_some())
    }

    fn is_full(&self) -> bool {
        self.seats.iter().all(|seat| seat.is_some())
    }

    /// Whether all places are taken and another one waits.
    fn is_crowded(&self) -> bool {
        self.may_accept && self.is_asked && self.is_full()
    }

    /// Ends the connection at a place.
    fn free(&mut self, place: usize)
        ensures { IsFree self.new.seats.items place }
    {
        if let Some(seat) = self.seats.get_mut(place) {
            *seat = None;
        }
        self.is_asked = false;
        self.retry = None;
    }

    /// Once all places are taken, has the system say whether somebody waits: the last answer may be an old one.
    fn ask_anew(&mut self) {
        if self.may_accept && !self.is_asked && self.is_full() {
            self.may_accept = self
                .poll
                .registry()
                .reregister(&mut self.door, Token(DOOR), Interest::READABLE)
                .is_err();
            self.is_asked = true;
        }
    }

    /// How long to wait at most until something is to be done for a peer that does nothing.
    fn time_left(&self, is_admitting: bool) -> Option<Duration> {
        let mut least = self.time_to_retry();
        let silence = self.silence_limit(is_admitting);
        for seat in &self.seats {
            if let Some(seat) = seat {
                least = Some(sooner(least, seat.time_left(self.now)));
                if let Some(silence) = silence
                    && seat.is_stalled()
                {
                    let left = silence.saturating_sub(seat.silence(self.now));
                    least = Some(sooner(least, left));
                }
            }
        }
        if let Some(closing) = self.closing {
            least = Some(sooner(least, self.patience.silence_left(self.elapsed(closing))));
        }
        match least {
            Some(left) => Some(left.saturating_add(Duration::from_millis(ROUNDING))),
            None => None,
        }
    }

    /// How long a stalled peer may move nothing now, if its own limit isn't all that counts.
    fn silence_limit(&self, is_admitting: bool) -> Option<Duration> {
        if !is_admitting {
            Some(Duration::from_millis(CLOSING_LIMIT))
        } else if self.is_crowded() {
            Some(Duration::from_millis(CROWD_LIMIT))
        } else {
            None
        }
    }

    fn elapsed(&self, since: Instant) -> Duration {
        self.now.saturating_duration_since(since)
    }

    /// How long nobody is accepted yet.
    fn time_to_retry(&self) -> Option<Duration> {
        match self.retry {
            Some(retry) => Some(retry.saturating_duration_since(self.now)),
            None => None,
        }
    }

    /// Notes what the system says of the sockets.
    fn take_events(&mut self) {
        for event in self.events.iter() {
            let place = event.token().0;
            if place == DOOR {
                self.may_accept = true;
            } else if let Some(Some(seat)) = self.seats.get_mut(place) {
                let has_failed = event.is_error() || event.is_read_closed();
                seat.may_read |= event.is_readable() || has_failed;
                seat.may_write |= event.is_writable() || event.is_write_closed() || has_failed;
            }
        }
    }

    /// Drops what comes from peers that are leaving, and ends those that have left or whose time is over.
    fn drain_leaving(&mut self) {
        for place in 0..self.seats.len() {
            if self.is_leaving(place) && !self.is_draining(place) {
                self.free(place);
            }
        }
    }

    /// Whether a peer that is leaving is to be waited for longer.
    fn is_draining(&mut self, place: usize) -> bool {
        let now = self.now;
        match self.seats.get_mut(place) {
            Some(Some(seat)) => seat.drain(now),
            Some(None) | None => false,
        }
    }

    /// If all places are taken and another peer waits, sends away the stalled peer that has moved nothing for the longest
    /// time.
    fn make_room(&mut self) {
        if !self.is_crowded() {
            return;
        }
        let Some(place) = self.most_silent() else {
            return;
        };
        let now = self.now;
        if let Some(Some(seat)) = self.seats.get_mut(place)
            && seat.silence(now) >= Duration::from_millis(CROWD_LIMIT)
        {
            seat.send_away();
        }
    }

    /// The place of the stalled peer that has moved nothing for the longest time, if there is one. A peer that isn't
    /// stalled is read from or written to in this round.
    fn most_silent(&self) -> Option<usize> {
        let mut found = None;
        let mut longest = Duration::ZERO;
        for (place, seat) in self.seats.iter().enumerate() {
            if let Some(seat) = seat
                && seat.is_stalled()
                && (found.is_none() || seat.silence(self.now) > longest)
            {
                longest = seat.silence(self.now);
                found = Some(place);
            }
        }
        found
    }

    /// Once no more connections are accepted, sends away each stalled peer that has moved nothing for a second, and all
    /// after the time for which a peer may otherwise move nothing.
    fn close_silent(&mut self) {
        let now = self.now;
        let closing = *self.closing.get_or_insert(now);
        let is_over = self.patience.silence_left(self.elapsed(closing)).is_zero();
        let limit = Duration::from_millis(CLOSING_LIMIT);
        for seat in self.seats.iter_mut() {
            if let Some(seat) = seat
                && (is_over || seat.is_stalled() && seat.silence(now) >= limit)
            {
                seat.send_away();
            }
        }
    }

    /// Gives a place to a connection that was accepted.
    fn seat(&mut self, place: usize, mut stream: TcpStream) -> Coming {
        // A reply's head and body go out at once.
        let _ = stream.set_nodelay(true);
        let both = Interest::READABLE | Interest::WRITABLE;
        if self
            .poll
            .registry()
            .register(&mut stream, Token(place), both)
            .is_err()
        {
            return Coming::Missed;
        }
        let now = self.read_clock();
        match self.seats.get_mut(place) {
            Some(seat) => {
                *seat = Some(Seat::new(stream, self.patience, now));
                self.is_asked = false;
                Coming::One
            }
            None => Coming::Missed,
        }
    }

    /// Whether the place may be given to somebody.
    fn may_admit(&self, place: usize) -> bool {
        let is_free = matches!(self.seats.get(place), Some(None));
        is_free && self.may_accept && self.retry.is_none()
    }
}

/// The network of this machine.
#[derive(Drop)]
pub struct MachineNetwork<'r> {
    rt: &'r HostRuntime,
}

impl<'r> MachineNetwork<'r> {
    pub fn new(rt: &'r HostRuntime) -> MachineNetwork<'r> {
        MachineNetwork { rt }
    }
}

impl<'r> Network<Sockets<'r>> for MachineNetwork<'r> {
    ghost use Rattle.std.specs.Prelude.{⊤};

    // Where it listens, and who comes, is not known here.
    ghost opened = { λ sockets. ⊤ };

    // Trusted to listen on that address alone: `checks/run server.addresses server.two-addresses`.
    fn bind(self, address: &str, timeout: u64) -> Result<Sockets<'r>, BindFault> {
        Sockets::bind(self.rt, address, timeout)
    }
}

impl Peers for Sockets<'_> {
    ghost use Rattle.std.specs.Prelude.{⊤};

    // What peers do is not known here.
    ghost did = { λ old step new. ⊤ };

    // Trusted to wait until a connection is ready or its time is over, and no longer: `checks/run peers.idle server.waiting`.
    fn look(&mut self, is_busy: bool, is_admitting: bool) {
        self.ask_anew();
        let wait = if is_busy {
            // A peer on this machine that was just written to may wait for this very processor.
            yield_now();
            Some(Duration::ZERO)
        } else {
            self.time_left(is_admitting)
        };
        let _ = self.poll.poll(&mut self.events, wait);
        let now = self.read_clock();
        if let Some(retry) = self.retry
            && retry <= now
        {
            self.retry = None;
        }
        self.take_events();
        self.drain_leaving();
        if is_admitting {
            self.make_room();
        } else {
            self.close_silent();
        }
    }

    // Trusted to give the place to one that comes, and to count each once: `checks/run server.at-once server.count peers.misses`.
    fn admit(&mut self, place: usize) -> Coming {
        if !self.may_admit(place) {
            return Coming::Nobody;
        }
        match self.door.accept() {
            Ok((stream, _)) => self.seat(place, stream),
            Err(error) if error.kind() == ErrorKind::WouldBlock => {
                self.may_accept = false;
                Coming::Nobody
            }
            Err(_) => {
                self.retry = self.now.checked_add(Duration::from_millis(RETRY_LIMIT));
                Coming::Missed
            }
        }
    }

    // Trusted to read what that peer says next, each byte once: `checks/run server.pieces server.thousand`.
    fn read(&mut self, place: usize, room: &mut [u8]) -> Moved
        ensures within { IsWithin result (length room.new) }
        ensures freed { result ≡ Moved.Failed → IsFree self.new.seats.items place }
    {
        let now = self.read_clock();
        let moved = match self.seats.get_mut(place) {
            Some(Some(seat)) => seat.read(room, now),
            Some(None) | None => Moved::Failed,
        };
        if moved == Moved::Failed {
            self.free(place);
        }
        moved
    }

    // Trusted to hand that peer the first of these bytes, as many as it says: `checks/run server.pieces peers.unread`.
    fn write(&mut self, place: usize, front: &[u8], back: &[u8]) -> Moved
        ensures within { IsWithin result (length (front.now ++ back.now)) }
        ensures freed { result ≡ Moved.Failed → IsFree self.new.seats.items place }
    {
        let now = self.read_clock();
        let moved = match self.seats.get_mut(place) {
            Some(Some(seat)) => seat.write(front, back, now),
            Some(None) | None => Moved::Failed,
        };
        if moved == Moved::Failed {
            self.free(place);
        }
        moved
    }

    // That a connection is held as long as its time isn't over is `Seat::hold`'s clause. That its answer is passed on is
    // tried by `checks/run heavy-jobs`.
    fn hold(&mut self, place: usize) -> bool
        ensures { result ≡ false → IsFree self.new.seats.items place }
    {
        let now = self.read_clock();
        let stays = match self.seats.get_mut(place) {
            Some(Some(seat)) => seat.hold(now),
            Some(None) | None => false,
        };
        if !stays {
            self.free(place);
        }
        stays
    }

    // Trusted to end the connection once the peer has what was written: `checks/run server.last-messages server.leaving`.
    fn leave(&mut self, place: usize) {
        let now = self.read_clock();
        let stays = match self.seats.get_mut(place) {
            Some(Some(seat)) => seat.leave(now),
            Some(None) | None => false,
        };
        if !stays {
            self.free(place);
        }
    }

    // Trusted to end all connections, and to wait a second at most: `checks/run server.stops peers.last`.
    fn finish(&mut self) {
        for place in 0..self.seats.len() {
            if !self.is_leaving(place) {
                self.free(place);
            }
        }
        for _ in 0..LAST_LOOKS {
            if !self.has_somebody() {
                return;
            }
            self.look(false, false);
        }
    }
}

/// The lesser of a time, if there is one, and another.
fn sooner(least: Option<Duration>, left: Duration) -> Duration {
    match least {
        Some(least) => shorter(least, left),
        None => left,
    }
}

/// Places where nobody is.
fn empty_seats(alloc: Global) -> Result<Vec<Option<Seat>>, AllocError> {
    let mut seats = Vec::with_capacity(alloc, PLACES)?;
    for _ in 0..PLACES {
        seats.push(None)?;
    }
    Ok(seats)
}

/// A socket that listens on the first of a name's addresses that can be listened on.
fn listener(rt: &HostRuntime, address: &str) -> io::Result<TcpListener> {
    for one in address.to_socket_addrs(rt)? {
        if let Ok(listener) = TcpListener::bind(rt, one) {
            return Ok(listener);
        }
    }
    Err(ErrorKind::AddrNotAvailable.into())
}
