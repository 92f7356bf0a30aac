//! Lists of numbers that are chosen one by one.

ghost use Rattle.std.specs.Prelude.{◌≡◌, [], ◌∷◌, ◌++◌, cond, OnOk};

use mc_model::Memory;

/// Appends a number if told to.
pub fn push_if(numbers: &mut Vec<u16>, told: bool, number: u16) -> Result<(), Memory>
    ensures { OnOk result (numbers.new.items ≡ numbers.old.items ++ cond told (number ∷ []) []) }
{
    if told {
        match numbers.push(number) {
            Ok(()) => Ok(()),
            Err(_) => Err(Memory),
        }
    } else {
        Ok(())
    }
}
