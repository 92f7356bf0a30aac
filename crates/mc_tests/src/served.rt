//! How a row is served and compared.

use mc_io::{HonestSink, HonestSource};
use mc_top::{Status, serve};
use std::alloc::Global;
use std::process::Abort;
use std::test::Fail;

/// A text of one or two sections, each on one line.
pub(crate) type Sections = [&'static str; 2];

/// What is due: a text of one or two sections with `Done` or `No`, or a status without any.
#[derive(Clone, Copy)]
pub(crate) enum Due {
    Done(&'static str, &'static str),
    No(&'static str, &'static str),
    Refused(u8, u32, u32),
    Limit(u8, u64),
    Usage,
}

impl Due {
    fn status(&self) -> Status {
        match self {
            Due::Done(..) => Status::Done,
            Due::No(..) => Status::No,
            Due::Refused(code, line, column) => Status::Refused {
                code: *code,
                line: *line,
                column: *column,
            },
            Due::Limit(which, found) => Status::Limit {
                which: *which,
                found: *found,
            },
            Due::Usage => Status::Usage,
        }
    }

    fn answer(&self) -> Sections {
        match self {
            Due::Done(first, second) | Due::No(first, second) => [first, second],
            _ => ["", ""],
        }
    }
}

/// The words of a line.
pub(crate) fn listed(alloc: Global, line: &str) -> Result<Vec<String>, Fail> {
    let mut words = Vec::new(alloc);
    for word in line.split(' ') {
        words.push(String::from_str(alloc, word)?)?;
    }
    Ok(words)
}

/// Appends a line that a row writes between two `;`.
fn add_line(text: &mut Vec<u8>, line: &str) -> Result<(), Fail> {
    let mut first = true;
    for word in line.split(' ') {
        if !word.is_empty() {
            if !first {
                text.push(b' ')?;
            }
            text.extend_from_slice(word.as_bytes())?;
            first = false;
        }
    }
    text.push(b'\n')?;
    Ok(())
}

/// Appends a section; none where it is empty.
fn add_section(text: &mut Vec<u8>, section: &str) -> Result<(), Fail> {
    if section.is_empty() {
        return Ok(());
    }
    for line in section.split(';') {
        add_line(text, line)?;
    }
    Ok(())
}

/// The text of sections that are each on one line.
pub(crate) fn spelled(alloc: Global, sections: Sections) -> Result<Vec<u8>, Fail> {
    let mut text = Vec::new(alloc);
    add_section(&mut text, sections[0])?;
    add_section(&mut text, sections[1])?;
    Ok(text)
}

/// Serves words on a text, and gives the status and the answer.
pub(crate) fn served(alloc: Global, words: &str, text: &[u8]) -> Result<(Status, Vec<u8>), Fail> {
    let words = listed(alloc, words)?;
    let mut source = HonestSource::new(Vec::from_slice(alloc, text)?);
    let mut out = HonestSink::new(alloc, 16_777_216)?;
    let mut note = HonestSink::new(alloc, 96)?;
    let status = serve(alloc, words.as_slice(), &mut source, &mut out, &mut note);
    Ok((status, Vec::from_slice(alloc, out.bytes())?))
}

/// Serves words on a text, and compares the status and the answer.
pub(crate) fn check(
    rt: &impl Abort,
    alloc: Global,
    words: &str,
    text: &[u8],
    due: Due,
) -> Result<(), Fail> {
    let (status, answer) = served(alloc, words, text)?;
    assert_eq!(rt; status, due.status());
    assert_eq!(rt; answer.as_slice(), spelled(alloc, due.answer())?.as_slice());
    Ok(())
}

/// Serves the words of each row on its text.
pub(crate) fn check_rows(
    rt: &impl Abort,
    alloc: Global,
    rows: &[(&'static str, Sections, Due)],
) -> Result<(), Fail> {
    for row in rows {
        let text = spelled(alloc, row.1)?;
        check(rt, alloc, row.0, text.as_slice(), row.2)?;
    }
    Ok(())
}
