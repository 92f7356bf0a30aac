//! What the words ask for: an answer to the text that comes in, or a sample.

ghost use Rattle.std.specs.Prelude.{◌≡◌, ◌≤◌, map, IfSome};
ghost use Rattle.std.specs.Option.{option_map};
ghost use Rattle.std.specs.String.{string_bytes};
ghost use Rattle.mc_top.specs.Requests.{IsInRange, plain_request, requested, sample_in};

use crate::sample::{self, sample_number};
use crate::task::{Task, task_of};

/// What the words ask for.
#[derive(Clone, Copy)]
pub(crate) enum Request<'w> {
    /// An answer to the text that comes in.
    OfText(Task<'w>),
    /// The summary of the sample of a number, for which nothing is read.
    Sample(u32),
}

/// The number of a sample, where the words ask for one.
fn sample_of(words: &[String]) -> Option<u32>
    ensures number { result ≡ sample_in (map string_bytes words.now) }
    ensures within { IfSome result (λ n. (1 ≤ n) × (n ≤ 200)) }
{
    match words {
        [word, number] if word.as_bytes() == sample::WORD => sample_number(number.as_bytes()),
        _ => None,
    }
}

/// What the words ask for; `None` where they are none of the lists of words that are known.
pub(crate) fn request_of(words: &[String]) -> Option<Request<'_>>
    ensures request { option_map plain_request result ≡ requested (map string_bytes words.now) }
    ensures within { IfSome result IsInRange }
{
    match task_of(words) {
        Some(task) => Some(Request::OfText(task)),
        None => match sample_of(words) {
            Some(number) => Some(Request::Sample(number)),
            None => None,
        },
    }
}
