//! The text of amplitudes.

ghost use Rattle.std.specs.Prelude.{◌≡◌, ◌∷◌, ◌++◌, map, OnOk};
ghost use Rattle.std.specs.Fmt.{signed_decimal};
ghost use Rattle.mc_write.specs.Text.{words_behind};
ghost use Rattle.mc_cyclo.specs.Text.{spaced};

use itoa::Buffer;
use mc_model::Memory;
use mc_write::add_word;

fn write_first(text: &mut Vec<u8>, coordinate: i64) -> Result<(), Memory>
    ensures { OnOk result (text.new.items ≡ text.old.items ++ signed_decimal coordinate) }
{
    let mut buffer = Buffer::new();
    text.extend_from_slice(buffer.format(coordinate).as_bytes())
        .map_err(|_| Memory)
}

fn add_coordinate(text: &mut Vec<u8>, coordinate: i64) -> Result<(), Memory>
    ensures { OnOk result (text.new.items ≡ text.old.items ++ 32 ∷ signed_decimal coordinate) }
{
    let mut buffer = Buffer::new();
    add_word(text, buffer.format(coordinate).as_bytes())
}

fn add_coordinates(text: &mut Vec<u8>, coordinates: &[i64]) -> Result<(), Memory>
    ensures { OnOk result
        (text.new.items ≡
        text.old.items ++ words_behind (map signed_decimal coordinates.now)) }
{
    'coordinates: for coordinate in coordinates {
        add_coordinate(text, *coordinate)?;
    }
    Ok(())
}

/// Appends the coordinates in decimal, with a blank between.
pub fn write_coordinates(text: &mut Vec<u8>, coordinates: &[i64]) -> Result<(), Memory>
    ensures { OnOk result
        (text.new.items ≡ text.old.items ++ spaced (map signed_decimal coordinates.now)) }
{
    match coordinates {
        [] => Ok(()),
        [first, rest @ ..] => {
            write_first(text, *first)?;
            add_coordinates(text, rest)
        }
    }
}
