//! The commands, the words that ask for them, and their answers.

ghost use Rattle.std.specs.Prelude.{◌≡◌, [], ◌∷◌, false, map, IfOk, IsTrue, OnOk};
ghost use Rattle.std.specs.List.{list_all};
ghost use Rattle.std.specs.Option.{option_map};
ghost use Rattle.std.specs.String.{string_bytes};
ghost use Rattle.mc_model.specs.Steps.{is_permitted};
ghost use Rattle.mc_document.specs.Documents.{IsDocument, plain_document};
ghost use Rattle.mc_document.specs.Documents.{IsTaken};
ghost use Rattle.mc_top.specs.Commands.{are_outcomes, asked_in, command_of, is_count, is_outcome};
ghost use Rattle.mc_top.specs.Commands.{may_deny, plain_task};
ghost use Rattle.mc_top.specs.Due.{GivesDue, Holds};

use crate::answer::Answer;
use crate::beside::answer_beside;
use crate::branch::answer_branch;
use crate::chain::answer_chain;
use crate::check::answer_check;
use crate::compile::answer_compile;
use crate::extract::answer_extract;
use crate::flow::answer_flow;
use crate::graph::answer_graph;
use crate::least::answer_least;
use crate::lower::answer_lower;
use crate::make::answer_make;
use crate::print::answer_print;
use crate::run::answer_run;
use crate::shift::answer_shift;
use crate::standard::answer_standard;
use crate::trace::answer_trace;
use crate::translate::answer_translate;
use crate::{
    beside, chain, check, compile, extract, flow, graph, least, lower, make, print, run, shift,
    standard, trace, translate,
};
use mc_document::{Placed, Takes};
use mc_lex::TextEnd;
use std::alloc::Global;

/// What the words ask for.
#[derive(Clone, Copy)]
pub enum Task<'w> {
    /// The pattern of a circuit.
    Translate,
    /// The document in canonical spelling.
    Print,
    /// The standard form of a pattern.
    Standard,
    /// The shifted form of a pattern, and the change of outcomes.
    Shift,
    /// The table of a circuit, or of all branches of a pattern or of a graph.
    Run,
    /// The table of the branch with these outcomes, a digit each, in measuring order.
    RunBranch(&'w [u8]),
    /// The open graph of a pattern.
    Graph,
    /// A graph, and its chosen flow or chosen refuter.
    Flow,
    /// Whether a graph's certificate holds.
    Check,
    /// The pattern that is made from the chosen flow of a graph.
    Make,
    /// The circuit that is extracted by the chosen causal flow of a graph.
    Extract,
    /// The pattern that a circuit is compiled into.
    Compile,
    /// A pattern, and a derivation of its standard form.
    Trace,
    /// Two patterns as one, the second behind the first.
    Chain,
    /// Two patterns as one, side by side.
    Beside,
    /// The circuit that a list of gates is lowered to.
    Lower,
    /// A graph, and the bound of depth that is chosen for its chosen flow, or its chosen refuter.
    Least,
}

impl<'w> Task<'w> {
    /// The kinds of document that are taken.
    pub(crate) fn takes(&self) -> Takes
        ensures { result ≡ (command_of (plain_task self.now)).takes }
    {
        match self {
            Task::Translate | Task::Compile => Takes::circuits(),
            Task::Print => Takes::all(),
            Task::Run | Task::Flow | Task::Make | Task::Extract | Task::Least => Takes::sources(),
            Task::Standard | Task::Shift | Task::Graph | Task::Trace => {
                Takes::circuits_and_patterns()
            }
            Task::RunBranch(_) => Takes::patterns_and_graphs(),
            Task::Check => Takes::certified(),
            Task::Chain | Task::Beside => Takes::two_patterns(),
            Task::Lower => Takes::gates(),
        }
    }
}

/// The answer to a document that is taken.
pub(crate) fn answer_document<const H: usize>(
    alloc: Global,
    task: Task<'_>,
    read: Placed<H>,
) -> Result<Answer, TextEnd>
    requires permitted { IsTrue (is_permitted H) }
    requires valid { IsDocument H (plain_document read.document) }
    requires taken { IsTaken (command_of (plain_task task)).takes (plain_document read.document) }
    ensures due { GivesDue ((command_of (plain_task task.entry)).IsDue H (read.entry.line, read.entry.column)
        (plain_document read.entry.document)) result }
    ensures meaning { OnOk result ((command_of (plain_task task.entry)).Means H (plain_document read.entry.document)) }
    ensures holds { may_deny (plain_task task.entry) ≡ false → IfOk result Holds }
{
    let place = (read.line, read.column);
    match task {
        Task::Translate => answer_translate(alloc, read.document),
        Task::Print => answer_print(alloc, read.document),
        Task::Standard => answer_standard(alloc, read.document),
        Task::Shift => answer_shift(alloc, read.document),
        Task::Run => answer_run(alloc, read.document),
        Task::RunBranch(digits) => answer_branch(alloc, place, digits, read.document),
        Task::Graph => answer_graph(alloc, read.document),
        Task::Flow => answer_flow(alloc, read.document),
        Task::Check => answer_check(alloc, read.document),
        Task::Make => answer_make(alloc, read.document),
        Task::Extract => answer_extract(alloc, read.document),
        Task::Compile => answer_compile(alloc, read.document),
        Task::Trace => answer_trace(alloc, read.document),
        Task::Chain => answer_chain(alloc, read.document),
        Task::Beside => answer_beside(alloc, read.document),
        Task::Lower => answer_lower(alloc, read.document),
        Task::Least => answer_least(alloc, read.document),
    }
}

/// The task that one word asks for.
fn task_of_word<'w>(word: &[u8]) -> Option<Task<'w>>
    ensures { option_map plain_task result ≡ asked_in (word.now ∷ []) }
{
    if word == translate::WORD {
        return Some(Task::Translate);
    }
    if word == print::WORD {
        return Some(Task::Print);
    }
    if word == standard::WORD {
        return Some(Task::Standard);
    }
    if word == shift::WORD {
        return Some(Task::Shift);
    }
    if word == run::WORD {
        return Some(Task::Run);
    }
    if word == graph::WORD {
        return Some(Task::Graph);
    }
    if word == flow::WORD {
        return Some(Task::Flow);
    }
    if word == check::WORD {
        return Some(Task::Check);
    }
    if word == make::WORD {
        return Some(Task::Make);
    }
    if word == extract::WORD {
        return Some(Task::Extract);
    }
    if word == compile::WORD {
        return Some(Task::Compile);
    }
    if word == trace::WORD {
        return Some(Task::Trace);
    }
    if word == chain::WORD {
        return Some(Task::Chain);
    }
    if word == beside::WORD {
        return Some(Task::Beside);
    }
    if word == lower::WORD {
        return Some(Task::Lower);
    }
    if word == least::WORD {
        return Some(Task::Least);
    }
    None
}

fn is_outcome(digit: u8) -> bool
    ensures { result ≡ is_outcome digit }
{
    digit == b'0' || digit == b'1'
}

fn all_outcomes(digits: &[u8]) -> bool
    ensures { result ≡ list_all is_outcome digits.now }
{
    digits.iter().all(|digit| is_outcome(*digit))
}

fn is_count(count: usize) -> bool
    ensures { result ≡ is_count count }
{
    1 <= count && count <= 256
}

/// Whether a word is one to 256 outcomes.
fn are_outcomes(digits: &[u8]) -> bool
    ensures { result ≡ are_outcomes digits.now }
{
    is_count(digits.len()) && all_outcomes(digits)
}

/// The task that a word with outcomes behind it asks for.
fn task_with<'w>(word: &[u8], digits: &'w [u8]) -> Option<Task<'w>>
    ensures { option_map plain_task result ≡ asked_in (word.now ∷ digits.now ∷ []) }
{
    if word == run::WORD && are_outcomes(digits) {
        Some(Task::RunBranch(digits))
    } else {
        None
    }
}

/// What the words ask for; `None` where they are none of the lists of words that are known.
pub(crate) fn task_of(words: &[String]) -> Option<Task<'_>>
    ensures { option_map plain_task result ≡ asked_in (map string_bytes words.now) }
{
    match words {
        [word] => task_of_word(word.as_bytes()),
        [word, digits] => task_with(word.as_bytes(), digits.as_bytes()),
        _ => None,
    }
}
