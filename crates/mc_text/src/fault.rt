//! Rules that a text breaks, and why reading stops.

ghost use Rattle.std.specs.Prelude.{◌≡◌, Option};
ghost use Rattle.mc_text.specs.Faults.{code_of};
ghost use Rattle.mc_text.specs.Judged.{Judgement, placed};
ghost use Rattle.mc_text.specs.Stops.{IsStop, IsEnd};

use mc_lex::TextEnd;
use mc_model::Memory;

/// A rule of texts that is broken. Each has a code, by which a refusal names it.
#[derive(Clone, Copy, Debug, PartialEq, Eq)]
pub enum Fault {
    /// A byte stands outside comments that is no blank and belongs to no word.
    StrayByte = 2,
    /// The first word names no kind of section that a document may begin with.
    NoKind = 3,
    /// The first word names a kind that is not taken.
    KindNotTaken = 4,
    /// A version is due.
    NotVersion = 5,
    /// A fixed word is due, and another one stands there.
    NotFixed = 6,
    /// A line ends where a further word is due.
    LineEnds = 7,
    /// A word stands behind a line that is whole.
    Surplus = 8,
    /// A name is due.
    NotName = 9,
    /// An angle is due.
    NotAngle = 10,
    /// A number is due.
    NotNumber = 11,
    /// A name is defined a second time.
    DefinedTwice = 12,
    /// A name is used that is not defined.
    NotDefined = 13,
    /// An operand or an output was measured, or has an angle already.
    Measured = 14,
    /// An operand equals an earlier one of its line.
    SameOperand = 15,
    /// An edge is there already.
    EdgeTwice = 16,
    /// A member of a signal was not measured before.
    NotMeasured = 17,
    /// A name stands twice in one list.
    ListedTwice = 18,
    /// A list of outputs lacks one.
    OutputsLack = 19,
    /// The text ends inside a section.
    TextEnds = 20,
    /// A word stands behind the end of the document.
    BehindEnd = 21,
    /// A row is not for the next qubit, or `end` stands before the last one has its row.
    OtherRow = 22,
    /// A vertex has a second row.
    RowTwice = 23,
    /// The text ends behind its first section, and a second one is due.
    NoSecond = 24,
    /// There are more or fewer bits than measured qubits.
    BitsDiffer = 25,
    /// A vertex is fixed twice in the same way.
    FixedTwice = 26,
    /// The first of two patterns has more or fewer outputs than the second has inputs.
    SizesDiffer = 27,
    /// A second section has another step than its document.
    StepDiffers = 28,
}

impl Fault {
    /// The number by which a refusal names the rule.
    pub fn code(&self) -> u8
        ensures { result ≡ code_of self.now }
    {
        *self as u8
    }

    /// The refusal of a text that breaks the rule at a place.
    pub fn at(self, line: u32, column: u32) -> TextEnd
        ensures { result ≡ TextEnd.Refused (code_of self) line column }
    {
        TextEnd::Refused {
            code: self.code(),
            line,
            column,
        }
    }
}

/// Why a word, or the end of a line, is not taken.
#[derive(Clone, Copy, Debug, PartialEq, Eq)]
pub enum Stop {
    /// A rule is broken.
    Fault(Fault),
    /// A limit is passed, by its number, and what was found.
    Limit { which: u8, found: u64 },
    /// Memory ran out.
    Memory,
}

impl From<Memory> for Stop {
    ghost use Rattle.std.specs.Prelude.{◌≡◌};
    ghost use Rattle.mc_text.specs.declared.fault.Stop.TheVariants as variants;

    ghost from_gives = { λ _ stop. stop ≡ variants.Memory };

    fn from(_: Memory) -> Stop {
        Stop::Memory
    }
}

impl Stop {
    /// The answer to what stops reading at a place.
    pub(crate) fn at(self, line: u32, column: u32) -> TextEnd
        ensures { (judged : Option Judgement) → IsStop self judged
            → IsEnd result (placed (line, column) judged) }
    {
        match self {
            Stop::Fault(fault) => fault.at(line, column),
            Stop::Limit { which, found } => TextEnd::Limit { which, found },
            Stop::Memory => TextEnd::Memory,
        }
    }
}
