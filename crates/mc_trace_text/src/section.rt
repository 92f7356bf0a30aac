//! The section of a trace.

ghost use Rattle.std.specs.Prelude.{◌≡◌, [], None, OnOk, IfErr};
ghost use Rattle.mc_text.specs.Stops.{IsStop};
ghost use Rattle.mc_standard.specs.Uses.{plain_rule};
ghost use Rattle.mc_trace_text.specs.declared.section.Role.TheVariants as role;
ghost use Rattle.mc_trace_text.specs.Traces.{follows_in_trace, is_use as uses_rule, role_of};
ghost use Rattle.mc_trace_text.specs.Traces.{judge_by, lacks_by};
ghost use Rattle.mc_trace_text.specs.Kept.{IsKept, Takes, Ends};

use crate::rule::read_rule;
use mc_text::{Fault, Head, Point, Section, Stop, number};
use mc_trace::{Derivation, Rule, Use};
use std::alloc::Global;

/// The number of the limit on uses.
const USES: u8 = 7;

/// The uses that a text may say.
const MOST_USES: usize = 65_536;

/// What a word of a line is.
#[derive(Clone, Copy, Debug, PartialEq, Eq)]
pub(crate) enum Role {
    /// The record word.
    Record,
    /// The place of a use.
    Place,
    /// The word of its rule.
    Rule,
    /// A word behind a line that is whole.
    Surplus,
}

/// What is kept of the lines of a trace: the uses so far, and of the current line the place and the rule, once they are read.
#[derive(Drop)]
pub(crate) struct TraceReader {
    pub(crate) uses: Derivation,
    place: u16,
    rule: Rule,
}

impl TraceReader {
    /// Before the first line.
    pub(crate) fn new(alloc: Global) -> TraceReader
        ensures { IsKept result.uses result.place (plain_rule result.rule) [] [] }
    {
        TraceReader {
            uses: Derivation::new(alloc),
            place: 0,
            rule: Rule::Swap,
        }
    }
}

fn follows(last: Option<Head>, head: Option<Head>) -> bool
    ensures { result ≡ follows_in_trace last head }
{
    match (last, head) {
        (None | Some(Head::U), Some(Head::U | Head::End)) => true,
        _ => false,
    }
}

fn is_use(head: Option<Head>) -> bool
    ensures { result ≡ uses_rule head }
{
    matches!(head, Some(Head::U))
}

/// What a further word of a line is.
fn role_at(point: Point) -> Role
    ensures { result ≡ role_of point }
{
    if point.count == 0 {
        return Role::Record;
    }
    if !is_use(point.head) {
        return Role::Surplus;
    }
    match point.count {
        1 => Role::Place,
        2 => Role::Rule,
        _ => Role::Surplus,
    }
}

/// Judges a record word behind so many uses.
fn judge_head(uses: usize, last: Option<Head>, word: &[u8]) -> Result<(), Stop>
    ensures clean { OnOk result (judge_by uses last role.Record word.now ≡ None) }
    ensures err { IfErr result (λ stop. IsStop stop (judge_by uses last role.Record word.now)) }
{
    let head = Head::read(word);
    if !follows(last, head) {
        return Err(Stop::Fault(Fault::NotFixed));
    }
    if is_use(head) && uses >= MOST_USES {
        return Err(Stop::Limit {
            which: USES,
            found: MOST_USES as u64 + 1,
        });
    }
    Ok(())
}

/// Judges a word behind so many uses, and takes it.
fn take(
    place: &mut u16,
    rule: &mut Rule,
    uses: usize,
    point: Point,
    word: &[u8],
) -> Result<(), Stop>
    ensures ok { OnOk result
        (Takes uses place.old place.new (plain_rule rule.new) point word.now) }
    ensures err { IfErr result (λ stop.
        IsStop stop (judge_by uses point.last (role_of point) word.now)) }
{
    match role_at(point) {
        Role::Record => judge_head(uses, point.last, word),
        Role::Place => match number(word) {
            Ok(number) => {
                *place = number;
                Ok(())
            }
            Err(stop) => Err(stop),
        },
        Role::Rule => match read_rule(word) {
            Some(named) => {
                *rule = named;
                Ok(())
            }
            None => Err(Stop::Fault(Fault::NotFixed)),
        },
        Role::Surplus => Err(Stop::Fault(Fault::Surplus)),
    }
}

/// Judges the end of a line, and takes its use.
fn end_use(uses: &mut Derivation, place: u16, rule: Rule, point: Point) -> Result<(), Stop>
    ensures ok { OnOk result (Ends uses.old uses.new place (plain_rule rule) point) }
    ensures err { IfErr result (λ stop. IsStop stop (lacks_by (role_of point))) }
{
    if role_at(point) != Role::Surplus {
        return Err(Stop::Fault(Fault::LineEnds));
    }
    if !is_use(point.head) {
        return Ok(());
    }
    let place = place as u64;
    match uses.push(Use { place, rule }) {
        Ok(()) => Ok(()),
        Err(_) => Err(Stop::Memory),
    }
}

impl Section for TraceReader {
    ghost use Rattle.mc_standard.specs.Uses.{plain_rule};
    ghost use Rattle.mc_trace_text.specs.Traces.{trace_rules};
    ghost use Rattle.mc_trace_text.specs.Kept.{IsKept};

    ghost rules = { λ _. trace_rules };

    ghost means = { λ k before here. IsKept k.uses k.place (plain_rule k.rule) before here };

    fn word(&mut self, point: Point, word: &[u8]) -> Result<(), Stop> {
        let uses = self.uses.len();
        match take(&mut self.place, &mut self.rule, uses, point, word) {
            Ok(()) => Ok(()),
            Err(stop) => Err(stop),
        }
    }

    fn end_line(&mut self, point: Point) -> Result<(), Stop> {
        match end_use(&mut self.uses, self.place, self.rule, point) {
            Ok(()) => Ok(()),
            Err(stop) => Err(stop),
        }
    }
}
