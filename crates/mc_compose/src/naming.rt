//! Names of the qubits of a whole.

ghost use Rattle.std.specs.Prelude.{◌≡◌, ◌+◌, ◌-◌, ◌<◌, ◌≤◌, [], ◌∷◌, ◌++◌, false, IfOk, OnOk};
ghost use Rattle.std.specs.Prelude.{length, take, drop};
ghost use Rattle.mc_model.specs.Limits.{most_qubits};
ghost use Rattle.mc_model.specs.Names.{AreNames, is_held};
ghost use Rattle.mc_compose.specs.Composed.{free_name, free_names};

use mc_model::Memory;
use mc_names::{Name, Names, NamesEnd};
use std::alloc::Global;

/// The name, or a fresh one where it is held.
fn free_name(names: &Names, name: Name) -> Name
    ensures { result ≡ free_name names.now name }
{
    if names.find(&name).is_some() {
        names.fresh()
    } else {
        name
    }
}

/// Adds a name that is not held.
fn add(names: &mut Names, name: Name) -> Result<(), Memory>
    requires new { is_held names.old name ≡ false }
    requires few { length names.old < most_qubits }
    ensures { OnOk result (names.new ≡ names.old ++ name ∷ []) }
{
    match names.add(name) {
        Ok(_) => Ok(()),
        Err(NamesEnd::Memory) => Err(Memory),
        Err(NamesEnd::Twice(_)) => unreachable!(),
        Err(NamesEnd::Full) => unreachable!(),
    }
}

/// Adds the names from a number on, each that is held as a fresh one.
pub(crate) fn add_free(names: &mut Names, more: &Names, start: u16) -> Result<(), Memory>
    requires start { start ≤ length more.now }
    requires few { length names.old + (length more.now - start) ≤ most_qubits }
    ensures { OnOk result (names.new ≡ names.old ++ free_names names.old (drop start more.now)) }
{
    'names: for number in start..more.len() {
        let name = free_name(names, more.name(number));
        add(names, name)?;
    }
    Ok(())
}

/// Adds so many names from a number on.
fn add_range(names: &mut Names, more: &Names, start: u16, count: u16) -> Result<(), Memory>
    requires range { start + count ≤ length more.now }
    requires names { AreNames (names.old ++ take count (drop start more.now)) }
    ensures { OnOk result (names.new ≡ names.old ++ take count (drop start more.now)) }
{
    // the proof needs that there are at most 256 names
    let _more = more.len();
    'names: for k in 0..count {
        add(names, more.name(start + k))?;
    }
    Ok(())
}

/// The names of two lists, the second's made free of the first's.
fn both(first: &Names, second: &Names) -> Result<Names, Memory>
    requires { length first.now + length second.now ≤ most_qubits }
    ensures { IfOk result (λ names. names ≡ first.now ++ free_names first.now second.now) }
{
    let mut names = first.copy()?;
    add_free(&mut names, second, 0)?;
    Ok(names)
}

/// The names of two lists, the second's made free of the first's: so many of either first, then the
/// others.
pub(crate) fn inputs_first(
    alloc: Global,
    first: &Names,
    heads: u16,
    second: &Names,
    more_heads: u16,
) -> Result<Names, Memory>
    requires first { heads ≤ length first.now }
    requires second { more_heads ≤ length second.now }
    requires few { length first.now + length second.now ≤ most_qubits }
    ensures { IfOk result (λ names. names ≡
        take heads first.now
        ++ (take more_heads (free_names first.now second.now)
        ++ (drop heads first.now
        ++ drop more_heads (free_names first.now second.now)))) }
{
    // the proof needs that the second are names
    let _more = second.len();
    let count = first.len();
    let all = both(first, second)?;
    let mut names = Names::new(alloc);
    add_range(&mut names, &all, 0, heads)?;
    add_range(&mut names, &all, count, more_heads)?;
    add_range(&mut names, &all, heads, count - heads)?;
    let behind = count + more_heads;
    add_range(&mut names, &all, behind, all.len() - behind)?;
    Ok(names)
}
