//! Stuck sets.

ghost use Rattle.std.specs.Prelude.{◌≡◌};

use mc_signal::QSet;
use std::marker::Model;

/// A set of vertices of which no causal flow corrects a first (Mhalla and Perdrix 2008). The calls that give or take one say
/// of which graph it is a stuck set.
#[derive(Drop)]
pub struct Stuck {
    set: QSet,
}

impl Model for Stuck {
    ghost use Rattle.std.specs.Prelude.{List, ℕ};

    ghost Value = { List ℕ };

    ghost view = { λ s. s.set };
}

impl Stuck {
    /// The set of vertices that are stuck.
    pub fn new(set: QSet) -> Stuck
        ensures { result ≡ set }
    {
        Stuck { set }
    }

    /// The vertices that are stuck.
    pub fn set(&self) -> &QSet
        ensures { result.now ≡ self.now }
    {
        &self.set
    }
}
