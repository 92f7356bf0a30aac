//! Words behind one another.

ghost use Rattle.std.specs.Prelude.{◌≡◌, ◌++◌, ◌∷◌, [], OnOk};
ghost use Rattle.std.specs.Fmt.{decimal};

use itoa::Buffer;
use mc_model::Memory;

/// Writes the first word of a line.
pub fn start_line(text: &mut Vec<u8>, head: &[u8]) -> Result<(), Memory>
    ensures { OnOk result (text.new.items ≡ text.old.items ++ head.now) }
{
    text.extend_from_slice(head).map_err(|_| Memory)
}

/// Writes a further word of a line.
pub fn add_word(text: &mut Vec<u8>, word: &[u8]) -> Result<(), Memory>
    ensures { OnOk result (text.new.items ≡ text.old.items ++ 32 ∷ word.now) }
{
    if text.push(b' ').is_err() {
        return Err(Memory);
    }
    text.extend_from_slice(word).map_err(|_| Memory)
}

/// Writes a number as a further word of a line, in decimal.
pub fn add_number(text: &mut Vec<u8>, number: u32) -> Result<(), Memory>
    ensures { OnOk result (text.new.items ≡ text.old.items ++ 32 ∷ decimal number) }
{
    let mut buffer = Buffer::new();
    add_word(text, buffer.format(number).as_bytes())
}

/// Ends a line.
pub fn end_line(text: &mut Vec<u8>) -> Result<(), Memory>
    ensures { OnOk result (text.new.items ≡ text.old.items ++ 10 ∷ []) }
{
    match text.push(b'\n') {
        Ok(_) => Ok(()),
        Err(_) => Err(Memory),
    }
}
