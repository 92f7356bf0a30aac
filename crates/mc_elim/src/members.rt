//! Sets as rows of bits.

ghost use Rattle.std.specs.Prelude.{◌≡◌, ℕ, ◌<◌, ◌≤◌, length, nat_eq};
ghost use Rattle.mc_model.specs.Bits.{◌⊻◌};
ghost use Rattle.mc_model.specs.Numbers.{is_member};
ghost use Rattle.mc_bits.specs.Rows.{bit_of};

use mc_bits::BitRow;
use mc_signal::QSet;

/// Changes the bit of a number, if the row has one.
fn flip_within(row: &mut BitRow, number: u16)
    ensures bits { (k : ℕ) → k < length row.old →
        bit_of row.new k ≡ (bit_of row.old k ⊻ nat_eq k number) }
    ensures length { length row.new ≡ length row.old }
{
    if number < row.len() {
        row.flip_if(number, true);
    }
}

/// So many bits: of each number whether it is a member of the set. It takes no memory.
pub fn row_of(set: &QSet, bits: u16) -> BitRow
    requires { bits ≤ 1024 }
    ensures bits { (k : ℕ) → k < bits → bit_of result k ≡ is_member set.now k }
    ensures length { length result ≡ bits }
{
    let mut row = BitRow::new(bits);
    'members: for i in 0..set.len() {
        flip_within(&mut row, set.get(i));
    }
    row
}
