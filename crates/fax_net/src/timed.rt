//! One end of a connection, whose peer has only so much time.
ghost use Rattle.std.specs.Duration.{as_nanos};
ghost use Rattle.std.specs.Prelude.{◌≡◌, ◌≤◌, ◌<◌, IfOk};

use crate::patience::Patience;
use std::io::{self, ErrorKind, Read, Write};
use std::net::TcpStream;
use std::time::{Duration, Instant};

/// One end of a connection. A read or a write waits for a while at most, and fails once the time of the whole connection
/// is over.
#[derive(Drop)]
pub struct Timed<'c> {
    rt: &'c HostRuntime,
    stream: &'c TcpStream,
    /// How long one read or write may wait, and how long the connection may take from when it was begun.
    patience: Patience,
    /// When the connection began, where the machine's clock could be read.
    begun: Option<Instant>,
}

impl<'c> Timed<'c> {
    /// The end of a connection that begins now.
    pub fn new(rt: &'c HostRuntime, stream: &'c TcpStream, patience: Patience) -> Timed<'c>
        ensures stream { result.stream.now ≡ stream.now }
        ensures patience { result.patience ≡ patience }
    {
        Timed {
            rt,
            stream,
            patience,
            begun: Instant::now(rt).ok(),
        }
    }

    /// How long the next read or write may wait.
    ///
    /// # Errors
    ///
    /// `TimedOut` where the connection's time is over, or there is no clock to tell it.
    fn time_left(&self) -> io::Result<Duration>
        ensures some { IfOk result (λ left. 0 < as_nanos left) }
        ensures silent { IfOk result (λ left. as_nanos left ≤ as_nanos self.now.patience.silent) }
        ensures whole { IfOk result (λ left. as_nanos left ≤ as_nanos self.now.patience.whole) }
    {
        let Some(begun) = self.begun else {
            return Err(ErrorKind::TimedOut.into());
        };
        let taken = begun.elapsed(self.rt)?;
        let left = self.patience.left(Duration::ZERO, taken);
        if left.is_zero() {
            return Err(ErrorKind::TimedOut.into());
        }
        Ok(left)
    }
}

impl Read for Timed<'_> {
    fn read(&mut self, buf: &mut [u8]) -> io::Result<usize> {
        self.stream.set_read_timeout(Some(self.time_left()?))?;
        let mut stream = self.stream;
        stream.read(buf)
    }
}

impl Write for Timed<'_> {
    fn write(&mut self, buf: &[u8]) -> io::Result<usize> {
        self.stream.set_write_timeout(Some(self.time_left()?))?;
        let mut stream = self.stream;
        stream.write(buf)
    }

    fn flush(&mut self) -> io::Result<()> {
        Ok(())
    }
}
