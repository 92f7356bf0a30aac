//! Record words.

ghost use Rattle.std.specs.Prelude.{◌≡◌, Some};
ghost use Rattle.mc_text.specs.Heads.{spelling, head_of, is_end as ends};

/// The record word at the head of a line, of every kind of section.
#[derive(Clone, Copy, Debug, PartialEq, Eq)]
pub enum Head {
    In,
    Plus,
    Out,
    End,
    J,
    Cz,
    N,
    E,
    M,
    X,
    Z,
    O,
    Depth,
    G,
    Y,
    B,
    U,
    L,
    H,
    S,
    Sdg,
    T,
    Tdg,
    Cx,
    Swap,
    Ccx,
}

impl Head {
    /// The record word that a word spells, if it spells one.
    pub fn read(word: &[u8]) -> Option<Head>
        ensures { result ≡ head_of word.now }
    {
        match word {
            b"in" => Some(Head::In),
            b"plus" => Some(Head::Plus),
            b"out" => Some(Head::Out),
            b"end" => Some(Head::End),
            b"j" => Some(Head::J),
            b"cz" => Some(Head::Cz),
            b"n" => Some(Head::N),
            b"e" => Some(Head::E),
            b"m" => Some(Head::M),
            b"x" => Some(Head::X),
            b"z" => Some(Head::Z),
            b"o" => Some(Head::O),
            b"depth" => Some(Head::Depth),
            b"g" => Some(Head::G),
            b"y" => Some(Head::Y),
            b"b" => Some(Head::B),
            b"u" => Some(Head::U),
            b"l" => Some(Head::L),
            b"h" => Some(Head::H),
            b"s" => Some(Head::S),
            b"sdg" => Some(Head::Sdg),
            b"t" => Some(Head::T),
            b"tdg" => Some(Head::Tdg),
            b"cx" => Some(Head::Cx),
            b"swap" => Some(Head::Swap),
            b"ccx" => Some(Head::Ccx),
            _ => None,
        }
    }

    /// The word itself.
    pub fn word(&self) -> &'static [u8]
        ensures spelled { result.now ≡ spelling self.now }
        ensures read_back { head_of result.now ≡ Some self.now }
    {
        match self {
            Head::In => b"in",
            Head::Plus => b"plus",
            Head::Out => b"out",
            Head::End => b"end",
            Head::J => b"j",
            Head::Cz => b"cz",
            Head::N => b"n",
            Head::E => b"e",
            Head::M => b"m",
            Head::X => b"x",
            Head::Z => b"z",
            Head::O => b"o",
            Head::Depth => b"depth",
            Head::G => b"g",
            Head::Y => b"y",
            Head::B => b"b",
            Head::U => b"u",
            Head::L => b"l",
            Head::H => b"h",
            Head::S => b"s",
            Head::Sdg => b"sdg",
            Head::T => b"t",
            Head::Tdg => b"tdg",
            Head::Cx => b"cx",
            Head::Swap => b"swap",
            Head::Ccx => b"ccx",
        }
    }
}

/// Whether a line ends its section.
pub(crate) fn is_end(head: Option<Head>) -> bool
    ensures { result ≡ ends head }
{
    matches!(head, Some(Head::End))
}
