//! Kinds of section.

ghost use Rattle.std.specs.Prelude.{◌≡◌, Some};
ghost use Rattle.mc_lex.specs.Kinds.{spelling, kind_of};

/// The kind of a section, which the first word of its header names.
#[derive(Clone, Copy, Debug, PartialEq, Eq)]
pub enum Kind {
    Circuit,
    Pattern,
    Graph,
    Change,
    Flow,
    NoFlow,
    NoCausal,
    Trace,
    Least,
    Gates,
}

impl Kind {
    /// The kind that a word names, if it names one.
    pub fn read(word: &[u8]) -> Option<Kind>
        ensures { result ≡ kind_of word.now }
    {
        match word {
            b"circuit" => Some(Kind::Circuit),
            b"pattern" => Some(Kind::Pattern),
            b"graph" => Some(Kind::Graph),
            b"change" => Some(Kind::Change),
            b"flow" => Some(Kind::Flow),
            b"noflow" => Some(Kind::NoFlow),
            b"nocausal" => Some(Kind::NoCausal),
            b"trace" => Some(Kind::Trace),
            b"least" => Some(Kind::Least),
            b"gates" => Some(Kind::Gates),
            _ => None,
        }
    }

    /// The word that names the kind.
    pub fn word(&self) -> &'static [u8]
        ensures spelled { result.now ≡ spelling self.now }
        ensures read_back { kind_of result.now ≡ Some self.now }
    {
        match self {
            Kind::Circuit => b"circuit",
            Kind::Pattern => b"pattern",
            Kind::Graph => b"graph",
            Kind::Change => b"change",
            Kind::Flow => b"flow",
            Kind::NoFlow => b"noflow",
            Kind::NoCausal => b"nocausal",
            Kind::Trace => b"trace",
            Kind::Least => b"least",
            Kind::Gates => b"gates",
        }
    }
}
