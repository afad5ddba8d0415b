//! Bytes that were read and aren't answered yet.
ghost use Rattle.std.specs.Prelude.{◌≡◌, ◌+◌, ◌≤◌, ◌<◌, [], ◌++◌, drop, length, true, false, IfOk, OnErr};
ghost use Rattle.fax_http.specs.Buffer.{ReadMore};
ghost use Rattle.fax_http.specs.Device.{Took};

use crate::device::{ReadFailed, Watched};
use std::alloc::{AllocError, Global};
use std::io::Read;
use std::marker::Model;

/// The most bytes that it holds: a head and a body within their limits.
pub const BUFFER_LIMIT: usize = 81_920;

/// The most bytes of one read.
const PIECE_LIMIT: usize = 4_096;

/// Bytes that were read and aren't answered yet. It takes no memory once it is made.
pub struct Buffer {
    bytes: Vec<u8>,
}

// By hand, so that a proof lets it go in one step.
impl Drop for Buffer {
    fn drop(self) {
        let Buffer { bytes: _ } = self;
    }
}

impl Model for Buffer {
    ghost use Rattle.std.specs.Prelude.{ℕ, List, ◌≤◌, length, vec_capacity};

    ghost Value = { List ℕ };

    ghost view = { λ buffer. buffer.bytes.items };

    ghost invariant = { λ buffer. (81920 ≤ vec_capacity buffer.bytes) × (length buffer.bytes.items ≤ 81920) };
}

impl Buffer {
    /// An empty buffer, with room for `BUFFER_LIMIT` bytes.
    pub fn new(alloc: Global) -> Result<Buffer, AllocError>
        ensures { IfOk result (λ buffer. buffer ≡ []) }
    {
        let bytes = Vec::with_capacity(alloc, BUFFER_LIMIT)?;
        Ok(Buffer { bytes })
    }

    pub fn bytes(&self) -> &[u8]
        ensures { result.now ≡ self.now }
    {
        self.bytes.as_slice()
    }

    /// How many bytes more it can hold.
    pub fn room(&self) -> usize
        ensures { result + length self.now ≡ BUFFER_LIMIT }
    {
        BUFFER_LIMIT - self.bytes.len()
    }

    /// Puts bytes behind those that are there.
    pub fn put(&mut self, bytes: &[u8])
        requires { length self.old + length bytes.now ≤ BUFFER_LIMIT }
        ensures { self.new ≡ self.old ++ bytes.now }
    {
        self.bytes.extend_from_slice(bytes).unwrap();
    }

    /// Takes everything out.
    pub fn clear(&mut self)
        ensures { self.new ≡ [] }
    {
        self.bytes.clear();
    }

    /// Takes the first bytes out.
    pub fn drop_front(&mut self, count: usize)
        requires { count ≤ length self.old }
        ensures { self.new ≡ drop count self.old }
    {
        self.bytes.drain(..count);
    }

    /// Reads once, and puts what comes behind the bytes that are there. Nothing comes only at the end of the input.
    pub fn read_more<R: Read + Drop>(
        &mut self,
        reader: &mut Watched<R>,
    ) -> Result<usize, ReadFailed>
        requires room { length self.old < BUFFER_LIMIT }
        requires going { reader.old.failed ≡ false }
        ensures ok { IfOk result (ReadMore R.remaining reader.old reader.new self.old self.new) }
        ensures err { OnErr result ((self.new ≡ self.old) × Took R.remaining reader.old reader.new [] true) }
    {
        let mut piece = [0; PIECE_LIMIT];
        let room = PIECE_LIMIT.min(self.room());
        let count = reader.fetch(&mut piece[..room])?;
        self.put(&piece[..count]);
        Ok(count)
    }
}
