//! Connections that are served side by side, as their server sees them.

use std::alloc::AllocError;
use std::io;

/// What came of a read or a write.
#[derive(Clone, Copy, Debug, PartialEq, Eq)]
pub enum Moved {
    /// So many bytes were moved, at least one.
    Bytes(usize),
    /// None yet.
    Nothing,
    /// Nothing more comes.
    End,
    /// The connection failed, or its time is over, and it is closed.
    Failed,
}

/// What came of asking for a new connection.
#[derive(Clone, Copy, Debug, PartialEq, Eq)]
pub enum Coming {
    /// One, which has the place now.
    One,
    /// One that can't be accepted.
    Missed,
    /// Nobody waits.
    Nobody,
}

/// Why there are no connections to serve.
#[derive(Clone, Copy, Debug, PartialEq, Eq)]
pub enum BindFault {
    /// The address can't be listened on, or the system gives no means to wait.
    Refused,
    NoMemory,
}

impl From<io::Error> for BindFault {
    fn from(_error: io::Error) -> BindFault {
        BindFault::Refused
    }
}

impl From<AllocError> for BindFault {
    fn from(_error: AllocError) -> BindFault {
        BindFault::NoMemory
    }
}

/// Where connections come from.
pub trait Network<P: Peers> {
    ghost use Rattle.std.specs.Prelude.{IfOk};

    // Where it listens, and nobody came yet.
    ghost opened: { P → Type 0 };

    /// Listens on the address. A peer may move nothing for so many seconds.
    ///
    /// # Errors
    ///
    /// The address can't be listened on, or memory is wanting.
    fn bind(self, address: &str, timeout: u64) -> Result<P, BindFault>
        ensures { IfOk result opened };
}

/// Connections by their places. No call but `look` and `finish` waits.
pub trait Peers {
    ghost use Rattle.std.specs.Prelude.{◌++◌, ◌<◌, length};
    ghost use Rattle.fax_net.specs.History.{Step, Looked, At, Left};
    ghost use Rattle.fax_net.specs.Peers.{IsWithin, step_of_coming, step_of_hold, step_of_read, step_of_write};

    // What may happen, and the connections after it.
    ghost did: { Self → Step → Self → Type 0 };

    /// Looks which connections are ready. Where nothing is to be done, it waits until one is. Where more connections are to
    /// come, it is admitting.
    fn look(&mut self, is_busy: bool, is_admitting: bool)
        ensures { did self.old (Looked is_busy is_admitting) self.new };

    /// Gives the place, which is free, to a connection that waits to be accepted.
    fn admit(&mut self, place: usize) -> Coming
        ensures { did self.old (step_of_coming place result) self.new };

    /// Reads once into the front of `room`.
    fn read(&mut self, place: usize, room: &mut [u8]) -> Moved
        ensures within { IsWithin result (length room.new) }
        ensures step { did self.old (step_of_read place room.new result) self.new };

    /// Writes once of the front and of what follows it. One of them isn't empty.
    fn write(&mut self, place: usize, front: &[u8], back: &[u8]) -> Moved
        requires { 0 < length (front.now ++ back.now) }
        ensures within { IsWithin result (length (front.now ++ back.now)) }
        ensures step { did self.old (step_of_write place (front.now ++ back.now) result) self.new };

    /// Holds the connection, since there is no room for the listing that its peer asks for. Returns whether it is still
    /// there: where its time is over, it is closed.
    fn hold(&mut self, place: usize) -> bool
        ensures { did self.old (step_of_hold place result) self.new };

    /// Ends the connection, once its peer has what was written.
    fn leave(&mut self, place: usize)
        ensures { did self.old (At place Left) self.new };

    /// Ends all connections but those that are leaving, and waits for these, for a second at most.
    fn finish(&mut self);
}
