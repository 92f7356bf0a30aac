//! Names by their numbers.

ghost use Rattle.std.specs.Prelude.{◌≡◌, ◌++◌, ◌∷◌, ◌-◌, ◌<◌, ◌≤◌, OnOk, All, length, map, take};
ghost use Rattle.std.specs.Prelude.{drop};
ghost use Rattle.mc_write.specs.Text.{words_behind};
ghost use Rattle.mc_write.specs.Named.{name_at};

use crate::words::add_word;
use mc_model::Memory;
use mc_names::Names;

/// Writes the name with a number as a further word of a line.
pub fn add_name(text: &mut Vec<u8>, names: &Names, number: u16) -> Result<(), Memory>
    requires { number < length names.now }
    ensures { OnOk result (text.new.items ≡ text.old.items ++ 32 ∷ name_at names.now number) }
{
    add_word(text, names.name(number).bytes())
}

/// Writes the names with some numbers as further words of a line.
pub fn add_names(text: &mut Vec<u8>, names: &Names, numbers: &[u16]) -> Result<(), Memory>
    requires { All (λ q. q < length names.now) numbers.now }
    ensures { OnOk result (text.new.items ≡ text.old.items ++ words_behind (map (name_at names.now) numbers.now)) }
{
    'numbers: for number in numbers {
        add_name(text, names, *number)?;
    }
    Ok(())
}

/// Writes the names from one number to before another as further words of a line.
pub fn add_names_between(
    text: &mut Vec<u8>,
    names: &Names,
    from: u16,
    to: u16,
) -> Result<(), Memory>
    requires order { from ≤ to }
    requires within { to ≤ length names.now }
    ensures { OnOk result (text.new.items ≡ text.old.items ++ words_behind (take (to - from) (drop from names.now))) }
{
    'numbers: for number in from..to {
        add_name(text, names, number)?;
    }
    Ok(())
}
