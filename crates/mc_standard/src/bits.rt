//! Bits in words.

ghost use Rattle.std.specs.Prelude.{◌*◌, ◌≤◌, length};
ghost use Rattle.mc_bits.specs.Words.{word_bit};
ghost use Rattle.mc_standard.specs.NextBits.{IsNext};

/// The first place from `from` on whose bit is 1, or `end` where there is none before it.
pub(crate) fn next_one(words: &[u64], from: usize, end: usize) -> usize
    requires within { end ≤ 64 * length words.now }
    requires small { end ≤ 65536 }
    requires order { from ≤ end }
    ensures { IsNext (word_bit words.now) from end result }
{
    let mut place = from;
    'words: while place < end {
        let rest = words[place / 64] >> (place % 64);
        if rest != 0 {
            return end.min(place + rest.trailing_zeros() as usize);
        }
        place = place / 64 * 64 + 64;
    }
    end
}
