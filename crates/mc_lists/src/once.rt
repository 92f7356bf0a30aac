//! Lists that have each number once.

ghost use Rattle.std.specs.Prelude.{◌≡◌, ◌↔◌, ℕ, ◌<◌, ◌≤◌, All, IsTrue, length, count_by, nat_eq};
ghost use Rattle.std.specs.Prelude.{cond, slice_index_or, false};
ghost use Rattle.mc_model.specs.Numbers.{ListsOnce};

/// How often a number stands in a list.
pub fn count(numbers: &[u16], number: u16) -> usize
    ensures { result ≡ count_by (nat_eq number) numbers.now }
{
    numbers.iter().filter(|other| number == **other).count()
}

fn are_below(numbers: &[u16], bound: usize) -> bool
    ensures { IsTrue result ↔ All (λ q. q < bound) numbers.now }
{
    numbers.iter().all(|number| (*number as usize) < bound)
}

fn are_there_as_due(numbers: &[u16], due: &[bool]) -> bool
    requires { length due.now ≤ 65_536 }
    ensures { IsTrue result ↔ ((q : ℕ) → q < length due.now
        → count_by (nat_eq q) numbers.now ≡ cond (slice_index_or due.now q false) 1 0) }
{
    'numbers: for q in 0..due.len() {
        if count(numbers, q as u16) != due[q] as usize {
            return false;
        }
    }
    true
}

/// Whether a list has each number that is due once, and no other. The place of a number in `due`
/// says whether it is due.
pub fn lists_once(numbers: &[u16], due: &[bool]) -> bool
    requires { length due.now ≤ 65_536 }
    ensures { IsTrue result ↔ ListsOnce (length due.now) (λ q. slice_index_or due.now q false) numbers.now }
{
    are_below(numbers, due.len()) && are_there_as_due(numbers, due)
}
