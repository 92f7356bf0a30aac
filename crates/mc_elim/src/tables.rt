//! Single rows.

ghost use Rattle.std.specs.Prelude.{◌≡◌, ◌≢◌, ◌<◌, ◌≤◌, ◌&&◌, ℕ, MatchOption, length};
ghost use Rattle.std.specs.Prelude.{nat_eq};
ghost use Rattle.std.specs.Prelude.{slice_index};
ghost use Rattle.mc_model.specs.Bits.{◌⊻◌};
ghost use Rattle.mc_bits.specs.Rows.{bit_of};
ghost use Rattle.mc_elim.specs.Reduced.{IsNumberedBy, null_set};
ghost use Rattle.mc_elim.specs.Tables.{row_at, entry};

use mc_bits::{BitRow, Rows};

/// A column with the bit `mark` behind it.
pub fn marked(column: &BitRow, width: u16, mark: u16) -> BitRow
    requires { (length column.now ≤ mark) × (mark < width) × (width ≤ 1024) }
    ensures bits { (r : ℕ) → bit_of result r ≡ (bit_of column.now r ⊻ nat_eq r mark) }
    ensures length { length result ≡ width }
{
    let mut row = column.widened(width);
    row.flip_if(mark, true);
    row
}

/// The vector with this first row. It stands in the list of numbers at that row, where numbers of
/// no vector may stand too.
pub fn vector_of(firsts: &[u16], numbers: &[u16], count: u16, u: u16) -> Option<u16>
    requires row { u < length numbers.now }
    requires count { count ≤ length firsts.now }
    requires numbers { IsNumberedBy count (slice_index firsts.now) (slice_index numbers.now) }
    ensures { MatchOption result ((i : ℕ) → i < count → slice_index firsts.now i ≢ u)
        (λ i. (i < count) × (slice_index firsts.now i ≡ u)) }
{
    let i = numbers[u as usize];
    if i < count && firsts[i as usize] == u {
        return Some(i);
    }
    None
}

/// Writes the row `f` and the first rows of the vectors that hold it.
pub fn write_null_set(vectors: &Rows, firsts: &[u16], count: u16, f: u16, out: &mut BitRow)
    requires row { f < length out.old }
    requires count { (count ≤ length firsts.now) × (count ≤ length vectors.now) }
    requires firsts { (i : ℕ) → i < count → slice_index firsts.now i < length out.old }
    requires width { (i : ℕ) → i < count → f < length (row_at vectors.now i) }
    ensures bits { (r : ℕ) → bit_of out.new r
        ≡ null_set count (slice_index firsts.now) (entry vectors.now) f r }
    ensures length { length out.new ≡ length out.old }
{
    *out = BitRow::new(out.len());
    out.flip_if(f, true);
    'vectors: for i in 0..count {
        out.flip_if(firsts[i as usize], vectors.row(i).bit(f));
    }
}
