//! From the words and the source to the answer, the note and the status.

ghost use Rattle.std.specs.Prelude.{◌≡◌, ◌≢◌, ◌↔◌, ◌≤◌, true, false};
ghost use Rattle.std.specs.Prelude.{length, map, IfOk, IfSome, IsSomeAnd};
ghost use Rattle.std.specs.Prelude.{IsTrue, OnOk};
ghost use Rattle.std.specs.String.{string_bytes};
ghost use Rattle.std.specs.Io.KnownBytes.{IsAtEnd};
ghost use Rattle.mc_io.specs.Faults.{Rose};
ghost use Rattle.mc_io.specs.Told.{TakesAtMost, TellsAsBefore};
ghost use Rattle.mc_top.specs.Status.{note_of};
ghost use Rattle.mc_model.specs.Limits.{most_bytes};
ghost use Rattle.mc_model.specs.Steps.{is_permitted};
ghost use Rattle.mc_top.specs.Commands.{may_deny, plain_task};
ghost use Rattle.mc_top.specs.Requests.{input_for, may_be_denied, requested, IsDueTo, IsListed};
ghost use Rattle.mc_top.specs.Requests.{MeansTo, ReadsText};
ghost use Rattle.mc_top.specs.Sample.{IsDueSample};
ghost use Rattle.mc_top.specs.Due.{GivesDue, Holds};
ghost use Rattle.mc_top.specs.Serve.{Appends, IsAnswered, IsStatus, IsUnwritten, IsWhole};
ghost use Rattle.mc_top.specs.Serve.{IsDue, IsDueIn, MakesReadsFor, Means, MeansIn, Notes};
ghost use Rattle.mc_document.specs.Turns.{half_of};

use crate::answer::Answer;
use crate::note::note as status_line;
use crate::request::{Request, request_of};
use crate::sample::print_sample;
use crate::status::Status;
use crate::task::{Task, answer_document};
use mc_document::{read_placed, turn_of};
use mc_io::{ReadEnd, Sink, Source, read_all, write_all};
use mc_lex::TextEnd;
use mc_model::Memory;
use std::alloc::Global;

/// The most bytes of a text.
const MOST_BYTES: usize = 8_388_608;

/// The answer of a task to a text.
fn answer<const H: usize>(alloc: Global, task: Task<'_>, text: &[u8]) -> Result<Answer, TextEnd>
    requires permitted { IsTrue (is_permitted H) }
    requires short { length text.now ≤ most_bytes }
    ensures due { GivesDue (IsDueIn H (plain_task task.entry) text.now) result }
    ensures meaning { OnOk result (MeansIn H (plain_task task.entry) text.now) }
    ensures holds { may_deny (plain_task task.entry) ≡ false → IfOk result Holds }
{
    match read_placed::<H>(alloc, text, task.takes()) {
        Ok(read) => answer_document(alloc, task, read),
        Err(end) => Err(end),
    }
}

/// The answer of a task to a text, whose header says how many steps a turn has.
fn answer_in_turn(alloc: Global, task: Task<'_>, text: &[u8]) -> Result<Answer, TextEnd>
    requires { length text.now ≤ most_bytes }
    ensures due { GivesDue (IsDueIn (half_of text.now) (plain_task task.entry) text.now) result }
    ensures meaning { OnOk result (Means (plain_task task.entry) text.now) }
    ensures holds { may_deny (plain_task task.entry) ≡ false → IfOk result Holds }
{
    match turn_of(text) {
        8 => answer::<8>(alloc, task, text),
        _ => answer::<4>(alloc, task, text),
    }
}

/// Reads the whole source and makes the whole answer, and writes it.
fn run<S: Source, K: Sink>(alloc: Global, task: Task<'_>, source: &mut S, out: &mut K) -> Status
    ensures status { IfSome (S.left source.old) (λ input.
        IsStatus (IsDue (plain_task task.entry) input) result) }
    ensures written { IfSome (S.left source.old) (λ input.
        Appends (IsDue (plain_task task.entry) input) result (K.written out.old) (K.written out.new)) }
    ensures untouched { IsUnwritten result → out.new ≡ out.old }
    ensures meaning { IsWhole result → IfSome (S.left source.old) (λ input. Means (plain_task task.entry) input) }
    ensures never_no { result ≡ Status.No → may_deny (plain_task task.entry) ≡ true }
    ensures no_usage { result ≢ Status.Usage }
    ensures read { result ≡ Status.ReadFault → Rose (S.faults source.old) (S.faults source.new) }
    ensures write { result ≡ Status.WriteFault → Rose (K.faults out.old) (K.faults out.new) }
    ensures all_read { IsAnswered result → IsAtEnd (S.left source.new) }
    ensures taken { TakesAtMost (S.left source.old) (S.left source.new) 8_388_609 }
    ensures tells { TellsAsBefore (S.left source.old) (S.left source.new) }
    ensures later { S.faults source.old ≤ S.faults source.new }
    ensures later_out { K.faults out.old ≤ K.faults out.new }
    ensures reads { MakesReadsFor S.reads source.old result source.new }
{
    let bytes = match read_all(alloc, source, MOST_BYTES) {
        Ok(bytes) => bytes,
        Err(ReadEnd::Fault) => return Status::ReadFault,
        Err(ReadEnd::TooLong) => {
            return Status::Limit {
                which: 1,
                found: 8_388_609,
            };
        }
        Err(ReadEnd::Memory) => return Status::Memory,
    };
    let made = match answer_in_turn(alloc, task, bytes.as_slice()) {
        Ok(made) => made,
        Err(end) => return Status::from_end(end),
    };
    match write_all(out, made.text.as_slice()) {
        Ok(()) => Status::of_answer(made.holds),
        Err(_) => Status::WriteFault,
    }
}

/// Makes the summary of a sample and writes it.
fn run_sample<K: Sink>(alloc: Global, number: u32, out: &mut K) -> Status
    requires { (1 ≤ number) × (number ≤ 200) }
    ensures status { IsStatus (IsDueSample number) result }
    ensures written { Appends (IsDueSample number) result (K.written out.old) (K.written out.new) }
    ensures untouched { IsUnwritten result → out.new ≡ out.old }
    ensures never_no { result ≢ Status.No }
    ensures no_usage { result ≢ Status.Usage }
    ensures no_read { result ≢ Status.ReadFault }
    ensures write { result ≡ Status.WriteFault → Rose (K.faults out.old) (K.faults out.new) }
    ensures later_out { K.faults out.old ≤ K.faults out.new }
{
    match print_sample(alloc, number) {
        Ok(text) => match write_all(out, text.as_slice()) {
            Ok(()) => Status::Done,
            Err(_) => Status::WriteFault,
        },
        Err(Memory) => Status::Memory,
    }
}

/// Makes and writes what the words ask for.
fn answer_words<S: Source, K: Sink>(
    alloc: Global,
    words: &[String],
    source: &mut S,
    out: &mut K,
) -> Status
    ensures usage { (result ≡ Status.Usage) ↔ (¬ IsListed (map string_bytes words.now)) }
    ensures unread { ¬ ReadsText (requested (map string_bytes words.now)) → source.new ≡ source.old }
    ensures status { IfSome (requested (map string_bytes words.now)) (λ request.
        IfSome (input_for request (S.left source.old)) (λ input. IsStatus (IsDueTo request input) result)) }
    ensures never_no { result ≡ Status.No →
        IsSomeAnd (requested (map string_bytes words.now)) (λ request. may_be_denied request ≡ true) }
    ensures read { result ≡ Status.ReadFault →
        ReadsText (requested (map string_bytes words.now)) × Rose (S.faults source.old) (S.faults source.new) }
    ensures write { result ≡ Status.WriteFault → Rose (K.faults out.old) (K.faults out.new) }
    ensures written { IfSome (requested (map string_bytes words.now)) (λ request.
        IfSome (input_for request (S.left source.old)) (λ input.
        Appends (IsDueTo request input) result (K.written out.old) (K.written out.new))) }
    ensures untouched { IsUnwritten result → out.new ≡ out.old }
    ensures meaning { IsWhole result → IfSome (requested (map string_bytes words.now)) (λ request.
        IfSome (input_for request (S.left source.old)) (λ input. MeansTo request input)) }
    ensures all_read { ReadsText (requested (map string_bytes words.now)) →
        IsAnswered result → IsAtEnd (S.left source.new) }
    ensures taken { TakesAtMost (S.left source.old) (S.left source.new) 8_388_609 }
    ensures tells { TellsAsBefore (S.left source.old) (S.left source.new) }
    ensures reads { ReadsText (requested (map string_bytes words.now)) →
        MakesReadsFor S.reads source.old result source.new }
    ensures later { S.faults source.old ≤ S.faults source.new }
    ensures later_out { K.faults out.old ≤ K.faults out.new }
{
    match request_of(words) {
        Some(Request::OfText(task)) => run(alloc, task, source, out),
        Some(Request::Sample(number)) => run_sample(alloc, number, out),
        None => Status::Usage,
    }
}

/// Notes on one line how a run of the command ended, where it did not end well. `serve` does so; a run that ends before its
/// words are known calls it alone.
pub fn write_note<E: Sink>(status: Status, note: &mut E)
    ensures later { E.faults note.old ≤ E.faults note.new }
    ensures noted { Notes (E.written note.old) (E.written note.new) (E.faults note.old) (E.faults note.new) (note_of status) }
{
    let line = status_line(&status);
    let _ = write_all(note, line.as_slice());
}

/// Does all that the command does: reads the whole source, makes the whole answer to the words and writes it to `out`, and
/// then notes on one line how it ended, where it did not end well. For a sample nothing is read.
///
/// The status is `Usage` exactly where the words are not known; then the source is not read. `Limit` 1 comes where the source
/// holds more than 8,388,608 bytes, `Refused` and the other limits by the text, `ReadFault` and `WriteFault` only where a call
/// of the source or of `out` failed, and `Memory` for want of memory.
pub fn serve<S: Source, K: Sink, E: Sink>(
    alloc: Global,
    words: &[String],
    source: &mut S,
    out: &mut K,
    note: &mut E,
) -> Status
    // the words decide whether there is anything to do; where no text is asked for, the source is left as it was
    ensures usage { (result ≡ Status.Usage) ↔ (¬ IsListed (map string_bytes words.now)) }
    ensures unread { ¬ ReadsText (requested (map string_bytes words.now)) → source.new ≡ source.old }

    // the status is that of what is due for the bytes that were left in the source, or `ReadFault`, `Memory`, or
    // `WriteFault` in place of `Done` or `No`; most commands never answer `No`
    ensures status { IfSome (requested (map string_bytes words.now)) (λ request.
        IfSome (input_for request (S.left source.old)) (λ input. IsStatus (IsDueTo request input) result)) }
    ensures never_no { result ≡ Status.No →
        IsSomeAnd (requested (map string_bytes words.now)) (λ request. may_be_denied request ≡ true) }
    ensures read { result ≡ Status.ReadFault →
        ReadsText (requested (map string_bytes words.now)) × Rose (S.faults source.old) (S.faults source.new) }
    ensures write { result ≡ Status.WriteFault → Rose (K.faults out.old) (K.faults out.new) }

    // what was appended to `out` is the answer that is due, a part of it at `WriteFault`, and nothing after the others
    ensures written { IfSome (requested (map string_bytes words.now)) (λ request.
        IfSome (input_for request (S.left source.old)) (λ input.
        Appends (IsDueTo request input) result (K.written out.old) (K.written out.new))) }
    ensures untouched { IsUnwritten result → out.new ≡ out.old }

    // what the answer means
    ensures meaning { IsWhole result → IfSome (requested (map string_bytes words.now)) (λ request.
        IfSome (input_for request (S.left source.old)) (λ input. MeansTo request input)) }

    // a text that is asked for was read to its end where the answer was made, and never more than one byte past the limit;
    // the source tells what is left where it did before; the calls were those of `read_all`; no count of faults falls
    ensures all_read { ReadsText (requested (map string_bytes words.now)) →
        IsAnswered result → IsAtEnd (S.left source.new) }
    ensures taken { TakesAtMost (S.left source.old) (S.left source.new) 8_388_609 }
    ensures tells { TellsAsBefore (S.left source.old) (S.left source.new) }
    ensures reads { ReadsText (requested (map string_bytes words.now)) →
        MakesReadsFor S.reads source.old result source.new }
    ensures later { S.faults source.old ≤ S.faults source.new }
    ensures later_out { K.faults out.old ≤ K.faults out.new }
    ensures later_note { E.faults note.old ≤ E.faults note.new }
    ensures noted { Notes (E.written note.old) (E.written note.new) (E.faults note.old) (E.faults note.new) (note_of result) }
{
    let status = answer_words(alloc, words, source, out);
    write_note(status, note);
    status
}
