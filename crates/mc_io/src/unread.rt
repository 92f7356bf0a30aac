//! Bytes in memory that are read from the front.

ghost use Rattle.std.specs.Prelude.{◌≡◌, ℕ, ◌≤◌, ◌++◌, List, length, take, drop, min, vec_len};

use std::marker::Model;

/// Bytes in memory. A contract sees those that are left.
#[derive(Drop)]
pub(crate) struct Unread {
    bytes: Vec<u8>,
    at: usize,
}

impl Model for Unread {
    ghost Value = { List ℕ };

    ghost view = { λ s. drop s.at s.bytes.items };

    ghost invariant = { λ s. s.at ≤ vec_len s.bytes };
}

impl Unread {
    pub(crate) fn new(bytes: Vec<u8>) -> Unread
        ensures { result ≡ bytes.items }
    {
        Unread { bytes, at: 0 }
    }

    /// Puts the next bytes at the front of the buffer, at most so many, and gives their number.
    pub(crate) fn give(&mut self, most: usize, buf: &mut [u8]) -> usize
        ensures count { result ≡ min most (min (length buf.new) (length self.old)) }
        ensures bytes { self.old ≡ take result buf.new ++ self.new }
    {
        let count = most.min(buf.len().min(self.bytes.len() - self.at));
        let from = self.at;
        buf[..count].copy_from_slice(&self.bytes[from..from + count]);
        self.at = from + count;
        count
    }
}
