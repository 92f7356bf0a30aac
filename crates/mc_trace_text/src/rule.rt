//! The words of the rules.

ghost use Rattle.std.specs.Prelude.{◌≡◌, Some};
ghost use Rattle.std.specs.Option.{option_map};
ghost use Rattle.mc_standard.specs.Uses.{plain_rule};
ghost use Rattle.mc_trace_text.specs.Words.{rule_of, rule_word as spelling};

use mc_trace::Rule;

/// The rule that a word names, if it names one.
pub(crate) fn read_rule(word: &[u8]) -> Option<Rule>
    ensures { option_map plain_rule result ≡ rule_of word.now }
{
    match word {
        b"xe" => Some(Rule::XE),
        b"ze" => Some(Rule::ZE),
        b"xm" => Some(Rule::XM),
        b"zm" => Some(Rule::ZM),
        b"swap" => Some(Rule::Swap),
        b"join" => Some(Rule::Join),
        b"ee" => Some(Rule::EE),
        b"cancel" => Some(Rule::Cancel),
        b"xz" => Some(Rule::XZ),
        b"turn" => Some(Rule::Turn),
        b"drop" => Some(Rule::DropEmpty),
        _ => None,
    }
}

/// The word that names a rule.
pub(crate) fn rule_word(rule: Rule) -> &'static [u8]
    ensures { result.now ≡ spelling (plain_rule rule) }
{
    match rule {
        Rule::XE => b"xe",
        Rule::ZE => b"ze",
        Rule::XM => b"xm",
        Rule::ZM => b"zm",
        Rule::Swap => b"swap",
        Rule::Join => b"join",
        Rule::EE => b"ee",
        Rule::Cancel => b"cancel",
        Rule::XZ => b"xz",
        Rule::Turn => b"turn",
        Rule::DropEmpty => b"drop",
    }
}
