//! How a run ended.

ghost use Rattle.std.specs.Prelude.{◌≡◌, if◌then◌else◌};
ghost use Rattle.mc_top.specs.Status.{exit_of};

use mc_lex::TextEnd;

/// How a run of the command ended.
#[derive(Clone, Copy, Debug, PartialEq, Eq)]
pub enum Status {
    /// The whole answer was written, and what was asked holds.
    Done,
    /// The whole answer was written, and what was asked does not hold.
    No,
    /// The words are none that the command knows.
    Usage,
    /// The text breaks the rule with this code, first at this place.
    Refused { code: u8, line: u32, column: u32 },
    /// A limit is passed: its number, and what was found.
    Limit { which: u8, found: u64 },
    /// A read failed.
    ReadFault,
    /// A write failed, and a part of the answer was written.
    WriteFault,
    /// Memory ran out.
    Memory,
}

impl Status {
    ghost use Rattle.mc_top.specs.Ends.{status_by_end};

    /// The status of a text that is refused or passes a limit, or for which memory ran out.
    pub(crate) fn from_end(end: TextEnd) -> Status
        ensures { result ≡ status_by_end end }
    {
        match end {
            TextEnd::Refused { code, line, column } => Status::Refused { code, line, column },
            TextEnd::Limit { which, found } => Status::Limit { which, found },
            TextEnd::Memory => Status::Memory,
        }
    }

    /// The status of an answer that was written, by whether what was asked holds.
    pub(crate) fn of_answer(holds: bool) -> Status
        ensures { result ≡ (if holds then Status.Done else Status.No) }
    {
        if holds { Status::Done } else { Status::No }
    }

    /// The number with which the program ends.
    pub fn exit(&self) -> u8
        ensures { result ≡ exit_of self.now }
    {
        match self {
            Status::Done => 0,
            Status::No => 1,
            Status::Usage => 2,
            Status::Refused { .. } => 3,
            Status::Limit { .. } => 4,
            Status::ReadFault => 5,
            Status::WriteFault => 6,
            Status::Memory => 7,
        }
    }
}
