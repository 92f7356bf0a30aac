//! Bytes that are kept up to a room.

ghost use Rattle.std.specs.Prelude.{◌≡◌, ◌↔◌, ℕ, ◌-◌, ◌≤◌, ◌++◌, List, [], length, take, min};
ghost use Rattle.std.specs.Prelude.{vec_len, vec_capacity, IfOk, IsTrue};

use mc_model::Memory;
use std::alloc::Global;
use std::marker::Model;

/// Bytes, at most as many as there is room for. A contract sees the bytes and the room.
#[derive(Drop)]
pub(crate) struct Store {
    bytes: Vec<u8>,
    room: usize,
}

impl Model for Store {
    ghost Value = { List ℕ × ℕ };

    ghost view = { λ s. (s.bytes.items, s.room) };

    ghost invariant = { λ s. (vec_len s.bytes ≤ s.room) × (s.room ≤ vec_capacity s.bytes) };
}

impl Store {
    /// An empty store, which takes its room at once.
    pub(crate) fn new(alloc: Global, room: usize) -> Result<Store, Memory>
        ensures { IfOk result (λ s. s ≡ ([], room)) }
    {
        match Vec::with_capacity(alloc, room) {
            Ok(bytes) => Ok(Store { bytes, room }),
            Err(_) => Err(Memory),
        }
    }

    pub(crate) fn bytes(&self) -> &[u8]
        ensures { result.now ≡ self.now.0 }
    {
        self.bytes.as_slice()
    }

    pub(crate) fn is_full(&self) -> bool
        ensures { IsTrue result ↔ (self.now.1 ≤ length self.now.0) }
    {
        self.room <= self.bytes.len()
    }

    /// Keeps the first bytes of the part, at most so many and as many as there is room for, and gives
    /// their number.
    pub(crate) fn keep(&mut self, most: usize, part: &[u8]) -> usize
        ensures within { length self.old.0 ≤ self.old.1 }
        ensures count { result ≡ min most (min (length part.now) (self.old.1 - length self.old.0)) }
        ensures bytes { self.new.0 ≡ self.old.0 ++ take result part.now }
        ensures room { self.new.1 ≡ self.old.1 }
    {
        let count = most.min(part.len().min(self.room - self.bytes.len()));
        self.bytes.extend_from_slice(&part[..count]).unwrap();
        count
    }
}
