//! Lists of distinct names.

ghost use Rattle.std.specs.Prelude.{◌||◌, ◌≡◌, ◌↔◌, ℕ, ◌<◌, [], ◌∷◌, ◌++◌, length, IfOk, OnErr};
ghost use Rattle.std.specs.Prelude.{OnOk, Err, Some, None, slice_get, is_some};
ghost use Rattle.std.specs.List.{list_all};
ghost use Rattle.mc_model.specs.Limits.{most_qubits};
ghost use Rattle.mc_model.specs.Names.{AreNames, place_of, is_held, fresh_name};

use crate::name::Name;
use indexmap::IndexSet;
use mc_model::Memory;
use std::alloc::Global;
use std::marker::Model;
use thiserror::Error;

/// The most names that a list holds.
const MOST: u16 = 256;

/// Why a name was not added.
#[derive(Clone, Copy, Debug, PartialEq, Eq, Error)]
pub enum NamesEnd {
    /// The name stands in the list already, with this number.
    #[error("the name has the number {0}")]
    Twice(u16),
    /// The list holds 256 names.
    #[error("there are 256 names")]
    Full,
    /// Memory ran out.
    #[error("no memory")]
    Memory,
}

/// Up to 256 distinct names, numbered from 0 in the order in which they were added.
#[derive(Drop)]
pub struct Names {
    set: IndexSet<Name>,
}

impl Model for Names {
    ghost use Rattle.std.specs.Prelude.{List, ℕ};
    ghost use Rattle.mc_model.specs.Names.{AreNames};

    ghost Value = { List (List ℕ) };

    ghost view = { λ n. n.set.keys };

    ghost invariant = { λ n. AreNames n.set.keys };
}

impl Names {
    /// No names, which takes no memory.
    pub fn new(alloc: Global) -> Names
        ensures { result ≡ [] }
    {
        Names {
            set: IndexSet::new(alloc),
        }
    }

    /// How many names there are. Every list of names is distinct and holds at most 256.
    pub fn len(&self) -> u16
        ensures len { result ≡ length self.now }
        ensures names { AreNames self.now }
    {
        self.set.len() as u16
    }

    /// The number of a name; `None` where it is not held.
    pub fn find(&self, name: &Name) -> Option<u16>
        ensures place { result ≡ place_of self.now name.now }
        ensures held { is_some result ≡ is_held self.now name.now }
    {
        match self.set.get_index_of(name) {
            Some(place) => Some(place as u16),
            None => None,
        }
    }

    /// The name with a number.
    pub fn name(&self, number: u16) -> Name
        requires { number < length self.now }
        ensures { slice_get self.now number ≡ Some result }
    {
        *self.set.get_index(number as usize).unwrap()
    }

    /// Adds a name, which goes last, and gives its number. A refusal leaves the names as they were;
    /// a name that is held is refused as `Twice` also where the list is full, and `Memory` comes
    /// last.
    pub fn add(&mut self, name: Name) -> Result<u16, NamesEnd>
        ensures number { IfOk result (λ number. number ≡ length self.old) }
        ensures added { OnOk result (self.new ≡ self.old ++ name ∷ []) }
        ensures err { OnErr result (self.new ≡ self.old) }

        ensures twice { (q : ℕ) →
            (result ≡ Err (NamesEnd.Twice q)) ↔ (place_of self.old name ≡ Some q) }
        ensures full { (result ≡ Err NamesEnd.Full) ↔
            ((place_of self.old name ≡ None) × (length self.old ≡ most_qubits)) }
        // the cause of no refusal stands where the name is added, nor where memory ran out
        ensures room { OnOk result ((place_of self.old name ≡ None) × (length self.old < most_qubits)) }
        ensures memory_last { result ≡ Err NamesEnd.Memory →
            (place_of self.old name ≡ None) × (length self.old < most_qubits) }
    {
        if let Some(number) = self.find(&name) {
            return Err(NamesEnd::Twice(number));
        }
        let count = self.len();
        if count >= MOST {
            return Err(NamesEnd::Full);
        }
        match self.set.insert_full(name) {
            Ok(_) => Ok(count),
            Err(_) => Err(NamesEnd::Memory),
        }
    }

    /// Whether the other list holds each of these names.
    pub fn is_subset(&self, other: &Names) -> bool
        ensures { result ≡ list_all (λ name. is_held other.now name) self.now }
    {
        self.set
            .as_slice()
            .iter()
            .all(|name| other.find(name).is_some())
    }

    /// Whether one or the other of two lists holds each of these names.
    pub fn is_subset_of_union(&self, first: &Names, second: &Names) -> bool
        ensures { result ≡
            list_all (λ name. is_held first.now name || is_held second.now name) self.now }
    {
        self.set.as_slice().iter().all(|name| first.find(name).is_some()
            || second.find(name).is_some())
    }

    /// The same names with the same numbers.
    pub fn copy(&self) -> Result<Names, Memory>
        ensures { IfOk result (λ names. names ≡ self.now) }
    {
        match self.set.clone() {
            Ok(set) => Ok(Names { set }),
            Err(_) => Err(Memory),
        }
    }

    /// `q` and the least positive number, in decimal, for which the name is not held.
    pub fn fresh(&self) -> Name
        ensures { result ≡ fresh_name self.now }
    {
        let _count = self.len();
        let mut number = 1;
        'numbers: while self.find(&Name::numbered(number)).is_some() {
            number += 1;
        }
        Name::numbered(number)
    }
}
