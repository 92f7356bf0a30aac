//! Printing tables.

ghost use Rattle.std.specs.Prelude.{◌≡◌, ◌++◌, ◌∷◌, [], ◌<◌, ◌≤◌, ◌^◌, IfOk, OnOk, map, codes};
ghost use Rattle.mc_model.specs.Numbers.{numbers_from};
ghost use Rattle.mc_write.specs.Text.{line_text, text_of, words_behind};
ghost use Rattle.mc_run_text.specs.Canonical.{bits_word, reduced_words, amplitude_line};
ghost use Rattle.mc_run_text.specs.Canonical.{amplitude_lines, table_text, branch_text};

use crate::bits::{add_bits, add_digits};
use mc_cyclo::{Amp, Cyclo};
use mc_model::Memory;
use mc_ring::Ring;
use mc_run::Table;
use mc_write::{add_word, end_line, start_line};
use std::alloc::Global;

fn print_header(text: &mut Vec<u8>) -> Result<(), Memory>
    ensures { OnOk result (text.new.items ≡ text.old.items ++ line_text (codes "table" ∷ codes "1" ∷ [])) }
{
    start_line(text, b"table")?;
    add_word(text, b"1")?;
    end_line(text)
}

fn two_to(count: u16) -> usize
    requires { count ≤ 16 }
    ensures { result ≡ 2 ^ count }
{
    1 << count
}

/// Writes an element over a power of the root of two, reduced, as further words of a line.
fn add_amplitude<const H: usize>(
    text: &mut Vec<u8>,
    entry: &Cyclo<H>,
    halves: u32,
) -> Result<(), Memory>
    ensures { OnOk result (text.new.items ≡ text.old.items ++ words_behind (reduced_words H entry.now halves)) }
{
    entry.known();
    let amplitude = Amp::reduced(*entry, halves);
    amplitude.num().known();
    add_word(text, b"")?;
    amplitude.print(text)
}

/// The line of the amplitude at the bits of `y` on the outputs and of `b` on the inputs.
fn print_amplitude<const H: usize>(
    text: &mut Vec<u8>,
    table: &Table<H>,
    y: usize,
    b: usize,
) -> Result<(), Memory>
    requires output { y < 2 ^ table.now.outputs }
    requires input { b < 2 ^ table.now.inputs }
    ensures { OnOk result (text.new.items ≡ text.old.items ++ line_text (amplitude_line H table.now y b)) }
{
    table.known();
    start_line(text, b"amp")?;
    add_digits(text, table.outputs(), y)?;
    add_digits(text, table.inputs(), b)?;
    add_amplitude(text, &table.at(y, b), table.halves())?;
    end_line(text)
}

/// The lines of the amplitudes at the bits of `b` on the inputs.
fn print_column<const H: usize>(
    text: &mut Vec<u8>,
    table: &Table<H>,
    b: usize,
) -> Result<(), Memory>
    requires { b < 2 ^ table.now.inputs }
    ensures { OnOk result (text.new.items ≡ text.old.items ++ text_of
        (map (λ y. amplitude_line H table.now y b) (numbers_from 0 (2 ^ table.now.outputs)))) }
{
    'outputs: for y in 0..two_to(table.outputs()) {
        print_amplitude(text, table, y, b)?;
    }
    Ok(())
}

/// The lines of all amplitudes.
pub(crate) fn print_amplitudes<const H: usize>(
    text: &mut Vec<u8>,
    table: &Table<H>,
) -> Result<(), Memory>
    ensures { OnOk result (text.new.items ≡ text.old.items ++ text_of (amplitude_lines H table.now)) }
{
    'inputs: for b in 0..two_to(table.inputs()) {
        print_column(text, table, b)?;
    }
    Ok(())
}

pub(crate) fn print_end(text: &mut Vec<u8>) -> Result<(), Memory>
    ensures { OnOk result (text.new.items ≡ text.old.items ++ line_text (codes "end" ∷ [])) }
{
    start_line(text, b"end")?;
    end_line(text)
}

fn print_outcomes(text: &mut Vec<u8>, outcomes: &[bool]) -> Result<(), Memory>
    ensures { OnOk result (text.new.items ≡
        text.old.items ++ line_text (codes "branch" ∷ bits_word outcomes.now ∷ [])) }
{
    start_line(text, b"branch")?;
    add_bits(text, outcomes)?;
    end_line(text)
}

/// The text of a table: a line for each amplitude, reduced, by rising input bits and for each of
/// these by rising output bits.
pub fn print_table<const H: usize>(alloc: Global, table: &Table<H>) -> Result<Vec<u8>, Memory>
    ensures { IfOk result (λ text. text.items ≡ table_text H table.now) }
{
    let mut text = Vec::new(alloc);
    print_header(&mut text)?;
    print_amplitudes(&mut text, table)?;
    print_end(&mut text)?;
    Ok(text)
}

/// The text of a branch's table, with its outcomes in measuring order.
pub fn print_branch<const H: usize>(
    alloc: Global,
    table: &Table<H>,
    outcomes: &[bool],
) -> Result<Vec<u8>, Memory>
    ensures { IfOk result (λ text. text.items ≡ branch_text H outcomes.now table.now) }
{
    let mut text = Vec::new(alloc);
    print_header(&mut text)?;
    print_outcomes(&mut text, outcomes)?;
    print_amplitudes(&mut text, table)?;
    print_end(&mut text)?;
    Ok(text)
}
