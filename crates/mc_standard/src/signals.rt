//! A sum of signals for each qubit.

ghost use Rattle.std.specs.Prelude.{◌≡◌, ◌<◌, ◌≤◌, ◌++◌, false, length, map, IfOk, OnOk};
ghost use Rattle.mc_model.specs.Signals.{signal_sum};
ghost use Rattle.mc_model.specs.StandardForm.{fix_x, fix_z, corrections_below};
ghost use Rattle.mc_rules.specs.OnePass.{none_carried, joined, handed, handed_out};
ghost use Rattle.mc_standard.specs.Running.{signals_of};
ghost use Rattle.mc_standard.specs.Plain.{plain_fix};

use crate::listing::append;
use crate::standard::Fix;
use crate::sum::Sum;
use mc_model::Memory;
use mc_signal::Signal;
use std::alloc::Global;

/// The most qubits of a pattern.
const MOST_QUBITS: u16 = 256;

/// An empty sum for each qubit.
pub(crate) fn no_sums(alloc: Global) -> Result<Vec<Sum>, Memory>
    ensures long { IfOk result (λ sums. length sums.items ≡ 256) }
    ensures none { IfOk result (λ sums. signals_of sums.items ≡ none_carried) }
{
    let mut sums = Vec::new(alloc);
    'qubits: for _ in 0..MOST_QUBITS {
        append(&mut sums, Sum::new())?;
    }
    Ok(sums)
}

/// Adds to the sum of a qubit.
pub(crate) fn add(sums: &mut Vec<Sum>, q: u16, s: &Signal)
    requires { q < length sums.old.items }
    ensures long { length sums.new.items ≡ length sums.old.items }
    ensures sum { signals_of sums.new.items ≡ joined (signals_of sums.old.items) q s.now }
{
    sums[q as usize].add(s);
}

/// Adds a sum to that of a qubit.
fn add_sum(sums: &mut Vec<Sum>, q: u16, s: &Sum)
    requires { q < length sums.old.items }
    ensures long { length sums.new.items ≡ length sums.old.items }
    ensures sum { signals_of sums.new.items ≡ joined (signals_of sums.old.items) q s.now }
{
    sums[q as usize].add_sum(s);
}

/// Hands out the sum of a qubit.
fn take(alloc: Global, sums: &mut Vec<Sum>, q: u16) -> Result<Signal, Memory>
    requires { q < length sums.old.items }
    ensures long { OnOk result (length sums.new.items ≡ length sums.old.items) }
    ensures signal { IfOk result (λ signal. signal ≡ signals_of sums.old.items q) }
    ensures rest { OnOk result
        (signals_of sums.new.items ≡ handed_out (signals_of sums.old.items) q) }
{
    let signal = sums[q as usize].signal(alloc)?;
    sums[q as usize] = Sum::new();
    Ok(signal)
}

/// Hands out the sum of a qubit, with a signal added.
pub(crate) fn take_with(
    alloc: Global,
    sums: &mut Vec<Sum>,
    q: u16,
    s: &Signal,
) -> Result<Signal, Memory>
    requires { q < length sums.old.items }
    ensures long { OnOk result (length sums.new.items ≡ length sums.old.items) }
    ensures sum { IfOk result (λ sum. sum ≡ signal_sum (signals_of sums.old.items q) s.now) }
    ensures rest { OnOk result
        (signals_of sums.new.items ≡ handed_out (signals_of sums.old.items) q) }
{
    add(sums, q, s);
    take(alloc, sums, q)
}

/// At an entangling the `X` sum of each operand is added to the `Z` sum of the other.
pub(crate) fn hand_on(xs: &[Sum], zs: &mut Vec<Sum>, q: u16, r: u16)
    requires long { length zs.old.items ≡ length xs.now }
    requires first { q < length xs.now }
    requires second { r < length xs.now }
    ensures long { length zs.new.items ≡ length zs.old.items }
    ensures handed { signals_of zs.new.items
        ≡ handed (signals_of xs.now) (signals_of zs.old.items) q r }
{
    add_sum(zs, q, &xs[r as usize]);
    add_sum(zs, r, &xs[q as usize]);
}

/// Adds an `X`, unless its signal is empty.
fn push_x(fixes: &mut Vec<Fix>, q: u16, s: Signal) -> Result<(), Memory>
    ensures { OnOk result
        (map plain_fix fixes.new.items ≡ map plain_fix fixes.old.items ++ fix_x q s) }
{
    if s.is_empty() {
        return Ok(());
    }
    append(fixes, Fix::X { q, s })
}

/// Adds a `Z`, unless its signal is empty.
fn push_z(fixes: &mut Vec<Fix>, q: u16, s: Signal) -> Result<(), Memory>
    ensures { OnOk result
        (map plain_fix fixes.new.items ≡ map plain_fix fixes.old.items ++ fix_z q s) }
{
    if s.is_empty() {
        return Ok(());
    }
    append(fixes, Fix::Z { q, s })
}

/// The corrections by rising qubit, `X` before `Z`, by the sums.
pub(crate) fn fixes_of(
    alloc: Global,
    xs: &[Sum],
    zs: &[Sum],
    qubits: u16,
) -> Result<Vec<Fix>, Memory>
    requires first { qubits ≤ length xs.now }
    requires second { qubits ≤ length zs.now }
    ensures { IfOk result (λ fixes. map plain_fix fixes.items ≡
        corrections_below (λ q. false) (signals_of xs.now) (signals_of zs.now) qubits) }
{
    let mut fixes = Vec::new(alloc);
    'qubits: for q in 0..qubits {
        push_x(&mut fixes, q, xs[q as usize].signal(alloc)?)?;
        push_z(&mut fixes, q, zs[q as usize].signal(alloc)?)?;
    }
    Ok(fixes)
}
