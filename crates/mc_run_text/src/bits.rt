//! Bits as words of a line.

ghost use Rattle.std.specs.Prelude.{◌≡◌, ◌∷◌, ◌++◌, [], ◌<◌, cond, OnOk};
ghost use Rattle.mc_run.specs.Settings.{spelled};
ghost use Rattle.mc_run_text.specs.Canonical.{digits, bits_word};

use mc_model::Memory;
use mc_write::add_word;

fn push_bit(text: &mut Vec<u8>, bit: bool) -> Result<(), Memory>
    ensures { OnOk result (text.new.items ≡ text.old.items ++ cond bit 49 48 ∷ []) }
{
    match text.push(if bit { b'1' } else { b'0' }) {
        Ok(_) => Ok(()),
        Err(_) => Err(Memory),
    }
}

fn push_bits(text: &mut Vec<u8>, bits: &[bool]) -> Result<(), Memory>
    ensures { OnOk result (text.new.items ≡ text.old.items ++ digits bits.now) }
{
    'bits: for bit in bits {
        push_bit(text, *bit)?;
    }
    Ok(())
}

/// Writes bits as a further word of a line.
pub fn add_bits(text: &mut Vec<u8>, bits: &[bool]) -> Result<(), Memory>
    ensures { OnOk result (text.new.items ≡ text.old.items ++ 32 ∷ bits_word bits.now) }
{
    if bits.is_empty() {
        return add_word(text, b"-");
    }
    add_word(text, b"")?;
    push_bits(text, bits)
}

fn push_digits(text: &mut Vec<u8>, count: u16, number: usize) -> Result<(), Memory>
    requires { count < 64 }
    ensures { OnOk result (text.new.items ≡ text.old.items ++ digits (spelled count number)) }
{
    let mut left = count;
    'digits: while left > 0 {
        left -= 1;
        push_bit(text, (number >> left) % 2 == 1)?;
    }
    Ok(())
}

/// Writes the last binary digits of a number, so many, as a further word of a line.
pub fn add_digits(text: &mut Vec<u8>, count: u16, number: usize) -> Result<(), Memory>
    requires { count < 64 }
    ensures { OnOk result (text.new.items ≡ text.old.items ++ 32 ∷ bits_word (spelled count number)) }
{
    if count == 0 {
        return add_word(text, b"-");
    }
    add_word(text, b"")?;
    push_digits(text, count, number)
}
