//! Answers.

ghost use Rattle.std.specs.Prelude.{◌≡◌, ℕ, List, Ok, Err, None, Option, Some, IfOk, IfErr};
ghost use Rattle.mc_top.specs.Due.{Gives, Holds, due_unless, holding, run_limit};

use mc_lex::TextEnd;
use mc_model::Memory;
use mc_run::RunEnd;

/// The whole text of an answer, and whether what was asked holds.
#[derive(Drop)]
pub(crate) struct Answer {
    pub(crate) text: Vec<u8>,
    pub(crate) holds: bool,
}

/// The answer with a text, that holds; or want of memory.
pub(crate) fn told(made: Result<Vec<u8>, Memory>) -> Result<Answer, TextEnd>
    ensures due { (text : List ℕ) → IfOk made (λ told. told.items ≡ text) → Gives result (holding text) }
    ensures ok { IfOk result (λ answer. made ≡ Ok answer.text) }
    ensures holds { IfOk result Holds }
{
    match made {
        Ok(text) => Ok(Answer { text, holds: true }),
        Err(Memory) => Err(TextEnd::Memory),
    }
}

/// The answer with a text, and whether what was asked holds; or want of memory.
pub(crate) fn judged(made: Result<Vec<u8>, Memory>, holds: bool) -> Result<Answer, TextEnd>
    ensures ok { IfOk result (λ answer. made ≡ Ok answer.text) }
    ensures holds { IfOk result (λ answer. answer.holds ≡ holds) }
    ensures err { IfErr result (λ end. end ≡ TextEnd.Memory) }
{
    match made {
        Ok(text) => Ok(Answer { text, holds }),
        Err(Memory) => Err(TextEnd::Memory),
    }
}

/// The answer with the text of a run; or the limit that is passed, or want of memory.
pub(crate) fn ran(made: Result<Vec<u8>, RunEnd>) -> Result<Answer, TextEnd>
    ensures due { (limit : Option (ℕ × ℕ)) (text : List ℕ) →
        IfOk made (λ told. told.items ≡ text) → IfOk made (λ told. limit ≡ None) →
        ((which found : ℕ) → made ≡ Err (RunEnd.Limit which found) → limit ≡ Some (which, found)) →
        Gives result (due_unless (run_limit limit) (holding text)) }
    ensures holds { IfOk result Holds }
{
    match made {
        Ok(text) => Ok(Answer { text, holds: true }),
        Err(RunEnd::Limit { which, found }) => Err(TextEnd::Limit { which, found }),
        Err(RunEnd::Memory) => Err(TextEnd::Memory),
    }
}
