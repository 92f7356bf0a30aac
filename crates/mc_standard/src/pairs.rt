//! Pairs of qubits that are entangled an odd number of times.

ghost use Rattle.std.specs.Prelude.{◌≡◌, ℕ, ◌<◌, ◌≤◌, ◌++◌, false, length, map, IfOk, OnOk};
ghost use Rattle.mc_model.specs.Bits.{◌⊻◌, same_pair};
ghost use Rattle.mc_model.specs.Numbers.{pairs_at, pairs_below};
ghost use Rattle.mc_model.specs.Pattern.{Ent};
ghost use Rattle.mc_standard.specs.OddPairs.{is_odd};
ghost use Rattle.mc_standard.specs.Plain.{plain_edge};

use crate::bits::next_one;
use crate::listing::append;
use mc_model::Memory;
use std::alloc::Global;

/// A bit for each pair of qubits takes so many words.
const WORDS: usize = 1024;

/// A bit for each pair of qubits, in a row for each lower one.
pub(crate) fn no_pairs(alloc: Global) -> Result<Vec<u64>, Memory>
    ensures long { IfOk result (λ odd. length odd.items ≡ 1024) }
    ensures none { IfOk result (λ odd. (i j : ℕ) → i < j → j < 256 →
        is_odd odd.items i j ≡ false) }
{
    match vec![in alloc; 0; WORDS] {
        Ok(odd) => Ok(odd),
        Err(_) => Err(Memory),
    }
}

/// Flips the bit of a pair.
fn flip(odd: &mut Vec<u64>, low: u16, high: u16)
    requires long { length odd.old.items ≡ 1024 }
    requires order { low < high }
    requires within { high < 256 }
    ensures long { length odd.new.items ≡ 1024 }
    ensures flipped { (i j : ℕ) → i < j → j < 256 →
        is_odd odd.new.items i j ≡ (is_odd odd.old.items i j ⊻ same_pair i j low high) }
{
    let place = low as usize * 256 + high as usize;
    odd[place / 64] ^= 1 << (place % 64);
}

/// Counts an entangling of two qubits.
pub(crate) fn toggle(odd: &mut Vec<u64>, q: u16, r: u16)
    requires long { length odd.old.items ≡ 1024 }
    requires first { q < 256 }
    requires second { r < 256 }
    requires apart { q ≡ r → ⊥ }
    ensures long { length odd.new.items ≡ 1024 }
    ensures counted { (i j : ℕ) → i < j → j < 256 →
        is_odd odd.new.items i j ≡ (is_odd odd.old.items i j ⊻ same_pair i j q r) }
{
    if q < r {
        flip(odd, q, r);
    } else {
        flip(odd, r, q);
    }
}

/// Adds the pairs with the lower qubit `i`, in rising order.
fn push_row(edges: &mut Vec<(u16, u16)>, odd: &[u64], i: u16, qubits: u16) -> Result<(), Memory>
    requires long { length odd.now ≡ 1024 }
    requires within { i < qubits }
    requires few { qubits ≤ 256 }
    ensures { OnOk result (map plain_edge edges.new.items ≡
        map plain_edge edges.old.items ++ pairs_at Ent (is_odd odd.now) i qubits) }
{
    let row = i as usize * 256;
    let end = row + qubits as usize;
    let mut place = next_one(odd, row + i as usize + 1, end);
    'higher: while place < end {
        append(edges, (i, (place - row) as u16))?;
        place = next_one(odd, place + 1, end);
    }
    Ok(())
}

/// The pairs, the lower number first, in rising order.
pub(crate) fn edges_of(alloc: Global, odd: &[u64], qubits: u16) -> Result<Vec<(u16, u16)>, Memory>
    requires long { length odd.now ≡ 1024 }
    requires few { qubits ≤ 256 }
    ensures { IfOk result (λ edges.
        map plain_edge edges.items ≡ pairs_below Ent (is_odd odd.now) qubits qubits) }
{
    let mut edges = Vec::new(alloc);
    'lower: for i in 0..qubits {
        push_row(&mut edges, odd, i, qubits)?;
    }
    Ok(edges)
}
