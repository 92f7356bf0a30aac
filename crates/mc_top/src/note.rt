//! The line that is noted behind an answer.

ghost use Rattle.std.specs.Prelude.{◌≡◌, ◌++◌, ◌+◌, ◌≤◌, length};
ghost use Rattle.std.specs.Fmt.{decimal};
ghost use Rattle.arrayvec.specs.ArrayVec.{array_vec_len};
ghost use Rattle.mc_top.specs.Status.{note_of};

use crate::status::Status;
use arrayvec::ArrayVec;
use itoa::Buffer;

/// A line of at most 96 bytes, which takes no memory.
pub(crate) type Line = ArrayVec<u8, 96>;

fn add(line: &mut Line, part: &[u8])
    requires { array_vec_len line.old + length part.now ≤ 96 }
    ensures { line.new.items ≡ line.old.items ++ part.now }
{
    line.try_extend_from_slice(part).unwrap();
}

fn add_number(line: &mut Line, number: u64)
    requires { array_vec_len line.old + 20 ≤ 96 }
    ensures items { line.new.items ≡ line.old.items ++ decimal number }
    ensures len { array_vec_len line.new ≤ array_vec_len line.old + 20 }
{
    let mut buffer = Buffer::new();
    add(line, buffer.format(number).as_bytes());
}

/// The line that a status is noted by: none where the whole answer was written and what was asked holds, or a part of the
/// answer was written.
pub(crate) fn note(status: &Status) -> Line
    ensures { result.items ≡ note_of status.now }
{
    let mut line = Line::new();
    match *status {
        Status::Done | Status::WriteFault => {}
        Status::No => add(&mut line, b"mcalc: no\n"),
        Status::Usage => add(&mut line, b"mcalc: usage\n"),
        Status::Refused {
            code,
            line: number,
            column,
        } => {
            add(&mut line, b"mcalc: refused ");
            add_number(&mut line, code.into());
            add(&mut line, b" at ");
            add_number(&mut line, number.into());
            add(&mut line, b":");
            add_number(&mut line, column.into());
            add(&mut line, b"\n");
        }
        Status::Limit { which, found } => {
            add(&mut line, b"mcalc: limit ");
            add_number(&mut line, which.into());
            add(&mut line, b" found ");
            add_number(&mut line, found);
            add(&mut line, b"\n");
        }
        Status::ReadFault => add(&mut line, b"mcalc: read fault\n"),
        Status::Memory => add(&mut line, b"mcalc: no memory\n"),
    }
    line
}
