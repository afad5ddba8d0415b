//! Readers and writers that are watched.
ghost use Rattle.std.specs.Prelude.{◌≡◌, ◌≤◌, ◌<◌, true, false, [], length, take, OnOk, OnErr, IfOk};
ghost use Rattle.std.specs.Io.KnownBytes.{IsAtEnd};
ghost use Rattle.fax_http.specs.Device.{BrokeOff, IsFresh, Put, Took};

use std::io::{Read, Write};

/// A read that failed.
#[derive(Clone, Copy, Debug, PartialEq, Eq)]
pub struct ReadFailed;

/// A write that failed or took no byte.
#[derive(Clone, Copy, Debug, PartialEq, Eq)]
pub struct WriteFailed;

/// A reader or a writer, with how many bytes went through it and whether it has failed.
#[derive(Drop)]
pub struct Watched<D: Drop> {
    device: D,
    passed: u128,
    failed: bool,
}

impl<D: Drop> Watched<D> {
    pub fn new(device: D) -> Watched<D>
        ensures device { result.device ≡ device }
        ensures fresh { IsFresh result }
    {
        Watched {
            device,
            passed: 0,
            failed: false,
        }
    }

    /// The device itself.
    pub fn device(&self) -> &D
        ensures { result.now ≡ self.now.device }
    {
        &self.device
    }

    /// How many bytes went through it. The count stays at its greatest value.
    pub fn passed(&self) -> u128
        ensures { result ≡ self.now.passed }
    {
        self.passed
    }

    /// Whether a read or a write failed, or a write took no byte.
    pub fn failed(&self) -> bool
        ensures { result ≡ self.now.failed }
    {
        self.failed
    }
}

impl<R: Read + Drop> Watched<R> {
    /// Reads once into the front of `room`, and gives how many bytes that were.
    pub(crate) fn fetch(&mut self, room: &mut [u8]) -> Result<usize, ReadFailed>
        requires { self.old.failed ≡ false }
        ensures within { IfOk result (λ n. n ≤ length room.new) }
        ensures ok { IfOk result (λ n. Took R.remaining self.old self.new (take n room.new) false) }
        ensures end { IfOk result (λ n. n ≡ 0 → 0 < length room.new → IsAtEnd (R.remaining self.new.device)) }
        ensures err { OnErr result (Took R.remaining self.old self.new [] true) }
    {
        match self.device.read(room) {
            Ok(count) => {
                self.passed = self.passed.saturating_add(count as u128);
                Ok(count)
            }
            Err(_) => {
                self.failed = true;
                Err(ReadFailed)
            }
        }
    }
}

impl<W: Write + Drop> Watched<W> {
    /// Writes the bytes in as many pieces as the writer takes, and nothing behind a piece that it doesn't.
    ///
    /// # Errors
    ///
    /// A write failed or took no byte. Then some of the bytes may be written.
    pub fn put(&mut self, bytes: &[u8]) -> Result<(), WriteFailed>
        requires { self.old.failed ≡ false }
        ensures ok { OnOk result (Put W.contents self.old self.new bytes.now false) }
        ensures err { OnErr result (BrokeOff W.contents self.old self.new bytes.now) }
    {
        let mut rest = bytes;
        while !rest.is_empty() {
            let count = self.put_piece(rest)?;
            rest = &rest[count..];
        }
        Ok(())
    }

    /// Writes once, and gives how many of the bytes were taken.
    fn put_piece(&mut self, bytes: &[u8]) -> Result<usize, WriteFailed>
        requires { self.old.failed ≡ false }
        ensures within { IfOk result (λ n. (0 < n) × (n ≤ length bytes.now)) }
        ensures ok { IfOk result (λ n. Put W.contents self.old self.new (take n bytes.now) false) }
        ensures err { OnErr result (Put W.contents self.old self.new [] true) }
    {
        if let Ok(count) = self.device.write(bytes)
            && count > 0
        {
            self.passed = self.passed.saturating_add(count as u128);
            return Ok(count);
        }
        self.failed = true;
        Err(WriteFailed)
    }
}
