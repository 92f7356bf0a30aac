//! Reading a certificate behind its graph.

ghost use Rattle.std.specs.Prelude.{◌≡◌, ℕ, [], Err, None, OnOk, IfOk, IfErr};
ghost use Rattle.mc_lex.specs.Left.{IsFurther};
ghost use Rattle.mc_text.specs.Judged.{first_in_section, section_lines, behind_section};
ghost use Rattle.mc_text.specs.Stops.{IsEnd};
ghost use Rattle.mc_rows.specs.Judge.{row_rules};
ghost use Rattle.mc_rows.specs.Rows.{rows_in};
ghost use Rattle.mc_cert_text.specs.Certs.{HasApartRows, IsCertOf, plain_cert};
ghost use Rattle.mc_cert_text.specs.Kinds.{IsCertKind, cert_rules, cert_in};

use crate::cert::Cert;
use crate::kept_flow::KeptFlow;
use crate::kept_least::KeptLeast;
use crate::kept_refuter::KeptRefuter;
use crate::kept_stuck::KeptStuck;
use mc_cert::short_bounds_are_few;
use mc_graph::OpenGraph;
use mc_lex::{Kind, TextEnd, Words};
use mc_names::Names;
use mc_rows::{RowReader, Rows};
use mc_text::read_section;
use std::alloc::Global;

/// Reads the lines of a certificate of a kind behind its header, through its `end`. `Refused` is the first fault, and no limit
/// can be passed; the words then stand somewhere in the text.
pub fn read_cert<const H: usize>(
    alloc: Global,
    words: &mut Words<'_>,
    kind: Kind,
    g: &OpenGraph<H>,
) -> Result<Cert, TextEnd>
    requires { IsCertKind kind }
    ensures clean { OnOk result
        (first_in_section (cert_rules kind g.now.names) [] words.old.later words.old.last ≡ None) }
    ensures value { IfOk result (λ cert.
        plain_cert cert ≡ cert_in kind g.now.names (section_lines words.old.later)) }
    ensures fits { IfOk result (λ cert. IsCertOf g.now (plain_cert cert)) }
    ensures behind { OnOk result (words.new.later ≡ behind_section words.old.later) }
    ensures whole { OnOk result (words.new.here ≡ []) }
    ensures further { IsFurther words.old words.new }
    ensures err { IfErr result (λ end.
        IsEnd end (first_in_section (cert_rules kind g.now.names) [] words.old.later words.old.last)) }
    ensures no_limit { (which found : ℕ) → result ≡ Err (TextEnd.Limit which found) → ⊥ }
{
    short_bounds_are_few();
    read_kind(alloc, words, kind, g.names())
}

/// Reads the rows of a certificate of a kind.
fn read_kind(
    alloc: Global,
    words: &mut Words<'_>,
    kind: Kind,
    names: &Names,
) -> Result<Cert, TextEnd>
    requires { IsCertKind kind }
    ensures clean { OnOk result
        (first_in_section (cert_rules kind names.now) [] words.old.later words.old.last ≡ None) }
    ensures value { IfOk result (λ cert.
        plain_cert cert ≡ cert_in kind names.now (section_lines words.old.later)) }
    ensures apart { IfOk result (λ cert. HasApartRows (plain_cert cert)) }
    ensures behind { OnOk result (words.new.later ≡ behind_section words.old.later) }
    ensures whole { OnOk result (words.new.here ≡ []) }
    ensures further { IsFurther words.old words.new }
    ensures err { IfErr result (λ end.
        IsEnd end (first_in_section (cert_rules kind names.now) [] words.old.later words.old.last)) }
{
    match kind {
        Kind::Flow => match read_rows(alloc, words, names, KeptFlow::new(alloc)) {
            Ok(kept) => Ok(kept.cert()),
            Err(end) => Err(end),
        },
        Kind::NoFlow => match read_rows(alloc, words, names, KeptRefuter::new(alloc)) {
            Ok(kept) => Ok(kept.cert()),
            Err(end) => Err(end),
        },
        Kind::NoCausal => match read_rows(alloc, words, names, KeptStuck::new(alloc)) {
            Ok(kept) => Ok(kept.cert()),
            Err(end) => Err(end),
        },
        Kind::Least => match read_rows(alloc, words, names, KeptLeast::new(alloc)) {
            Ok(kept) => Ok(kept.cert()),
            Err(end) => Err(end),
        },
        _ => unreachable!(),
    }
}

/// Reads rows; gives what is kept of them.
fn read_rows<K: Rows + Drop>(
    alloc: Global,
    words: &mut Words<'_>,
    names: &Names,
    kept: K,
) -> Result<K, TextEnd>
    requires { K.holds kept [] }
    ensures clean { OnOk result (first_in_section (row_rules (K.kind kept) names.now) []
        words.old.later words.old.last ≡ None) }
    ensures rows { IfOk result (λ read. K.holds read
        (rows_in (K.kind read).shape names.now (section_lines words.old.later))) }
    ensures behind { OnOk result (words.new.later ≡ behind_section words.old.later) }
    ensures whole { OnOk result (words.new.here ≡ []) }
    ensures further { IsFurther words.old words.new }
    ensures err { IfErr result (λ end. IsEnd end (first_in_section (row_rules (K.kind kept) names.now) []
        words.old.later words.old.last)) }
{
    let mut reader = RowReader::new(alloc, names, kept);
    if let Err(end) = read_section(words, &mut reader) {
        return Err(end);
    }
    Ok(reader.kind)
}
