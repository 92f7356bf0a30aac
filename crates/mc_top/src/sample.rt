//! `sample`: a summary of what a sample circuit is compiled into.

ghost use Rattle.std.specs.Prelude.{◌≡◌, ◌≤◌, ◌++◌, ◌%◌, OnOk, IfOk, IfSome, IsTrue, sum};
ghost use Rattle.mc_write.specs.Text.{line_text};
ghost use Rattle.mc_top.specs.Sample.{begins_with_zero, counted, is_sample, sample_number};
ghost use Rattle.mc_top.specs.Sample.{IsDueSample, summary_of, summary_text};
ghost use Rattle.mc_compile.specs.Compilations.{IsCompilation};
ghost use Rattle.mc_sample.specs.Generator.{sample_circuit};
ghost use Rattle.mc_top.specs.Due.{holding};

use itoa::Buffer;
use mc_angle::read_number;
use mc_compile::{Compiled, compile};
use mc_model::Memory;
use mc_pattern_text::print_pattern;
use mc_sample::sample;
use mc_translate::BuildEnd;
use mc_write::{add_word, end_line, start_line};
use std::alloc::Global;

/// The word that asks for it.
pub(crate) const WORD: &[u8] = b"sample";

/// What is said of a sample: the numbers of qubits and of edges of its graph, the depth of the graph's flow, and the numbers
/// of commands of the compiled pattern, of bytes of its text, and the sum of these bytes modulo 65,536.
#[derive(Drop)]
pub(crate) struct Summary {
    pub(crate) qubits: usize,
    pub(crate) edges: usize,
    pub(crate) depth: usize,
    pub(crate) commands: usize,
    pub(crate) bytes: usize,
    pub(crate) sum: usize,
}

fn begins_with_zero(word: &[u8]) -> bool
    ensures { result ≡ begins_with_zero word.now }
{
    match word {
        [digit, ..] => *digit == b'0',
        [] => false,
    }
}

fn is_sample(number: u16) -> bool
    ensures result { result ≡ is_sample number }
    ensures within { IsTrue (is_sample number) → (1 ≤ number) × (number ≤ 200) }
{
    1 <= number && number <= 200
}

/// The number of a sample that a word spells, from 1 to 200 without a leading zero.
pub(crate) fn sample_number(word: &[u8]) -> Option<u32>
    ensures number { result ≡ sample_number word.now }
    ensures within { IfSome result (λ n. (1 ≤ n) × (n ≤ 200)) }
{
    if begins_with_zero(word) {
        return None;
    }
    let number = read_number(word)?;
    if is_sample(number) {
        Some(number.into())
    } else {
        None
    }
}

/// Writes a line of a word and a number.
fn add_counted(text: &mut Vec<u8>, word: &[u8], number: usize) -> Result<(), Memory>
    ensures { OnOk result (text.new.items ≡ text.old.items ++ line_text (counted word.now number)) }
{
    let mut buffer = Buffer::new();
    start_line(text, word)?;
    add_word(text, buffer.format(number).as_bytes())?;
    end_line(text)
}

/// The sum of bytes modulo 65,536.
fn sum_of(bytes: &[u8]) -> usize
    ensures { result ≡ sum bytes.now % 65536 }
{
    let mut total = 0;
    'bytes: for byte in bytes {
        total = (total + usize::from(*byte)) % 65_536;
    }
    total
}

/// The lines of a summary.
fn print_summary(alloc: Global, summary: &Summary) -> Result<Vec<u8>, Memory>
    ensures { IfOk result (λ text. text.items ≡ summary_text summary.now) }
{
    let mut text = Vec::new(alloc);
    add_counted(&mut text, b"qubits", summary.qubits)?;
    add_counted(&mut text, b"edges", summary.edges)?;
    add_counted(&mut text, b"depth", summary.depth)?;
    add_counted(&mut text, b"commands", summary.commands)?;
    add_counted(&mut text, b"bytes", summary.bytes)?;
    add_counted(&mut text, b"sum", summary.sum)?;
    Ok(text)
}

/// What is said of a compiled pattern.
fn summary_of(alloc: Global, compiled: &Compiled<4>) -> Result<Summary, Memory>
    ensures { IfOk result (λ summary. summary
        ≡ summary_of compiled.now.pattern compiled.now.edges compiled.now.depth) }
{
    let text = print_pattern(alloc, &compiled.pattern)?;
    Ok(Summary {
        qubits: compiled.pattern.names().len().into(),
        edges: compiled.edges as usize,
        depth: compiled.depth as usize,
        commands: compiled.pattern.commands().len(),
        bytes: text.len(),
        sum: sum_of(text.as_slice()),
    })
}

/// What the sample circuit of a number is compiled into. It has at most 208 qubits.
fn compiled_sample(alloc: Global, number: u32) -> Result<Compiled<4>, Memory>
    requires { (1 ≤ number) × (number ≤ 200) }
    ensures { IfOk result (λ compiled. IsCompilation 4 (sample_circuit number)
        compiled.pattern compiled.edges compiled.depth) }
{
    let circuit = sample(alloc, number)?;
    match compile(alloc, &circuit) {
        Ok(compiled) => Ok(compiled),
        Err(BuildEnd::Limit { .. }) => unreachable!(),
        Err(BuildEnd::Memory) => Err(Memory),
    }
}

/// The summary of the sample of a number.
pub(crate) fn print_sample(alloc: Global, number: u32) -> Result<Vec<u8>, Memory>
    requires { (1 ≤ number) × (number ≤ 200) }
    ensures { IfOk result (λ text. IsDueSample number (holding text.items)) }
{
    let compiled = compiled_sample(alloc, number)?;
    let summary = summary_of(alloc, &compiled)?;
    print_summary(alloc, &summary)
}
