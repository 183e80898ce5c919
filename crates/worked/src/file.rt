// A file of lines: one that begins with # is text, every other one a case.
ghost use Rattle.std.specs.Prelude.{◌≡◌, ◌≤◌, length, IfSome};

use crate::case;
use crate::case::Outcome;
use printing::Page;
use reading::read_full;
use std::fmt;
use std::fmt::Write;
use std::fs::File;
use std::rt::Files;

// More than the longest file.
const TEXT: usize = 131072;

#[derive(Clone, Copy, Debug, PartialEq, Eq)]
pub struct Count {
    pub right: u64,
    pub wrong: u64,
}

impl Count {
    // The same with one case more. A line that is no case is wrong.
    fn with(self, outcome: Option<Outcome>) -> Count {
        match outcome {
            Some(Outcome { judged: Ok(()), .. }) => Count {
                right: self.right.wrapping_add(1),
                wrong: self.wrong,
            },
            _ => Count {
                right: self.right,
                wrong: self.wrong.wrapping_add(1),
            },
        }
    }
}

impl fmt::Display for Outcome {
    fn fmt<W: fmt::Write>(&self, f: &mut fmt::Formatter<W>) -> fmt::Result {
        let number = self.answer.number();
        let place = self.answer.place();
        let steps = self.answer.steps();
        let length = case::length_of(self.answer);
        write!(f, "{number} {place} {steps} {length} ")?;
        match self.judged {
            Ok(()) => f.write_str("ok"),
            Err(fault) => write!(f, "{fault}"),
        }
    }
}

// (Standard output and error stay two parameters: a struct of both would bring their two types into each signature.)
fn print_case(
    stdout: &impl Print,
    stderr: &impl Print,
    name: &str,
    number: u64,
    outcome: Option<Outcome>,
) {
    let mut room = [0u8; 256];
    let mut page = Page::new(&mut room);
    let _ = write!(page, "{name}:{number} ");
    let _ = match outcome {
        Some(outcome) => writeln!(page, "{outcome}"),
        None => writeln!(page, "wrong line: it is no case, or too long"),
    };
    page.send(stdout, stderr);
}

// A line's number makes what stands in the stores and the output differ from case to case.
fn line_tried(
    stdout: &impl Print,
    stderr: &impl Print,
    name: &str,
    line: &[u8],
    number: u64,
    count: Count,
) -> Count {
    if line.is_empty() || line.starts_with(b"#") {
        return count;
    }
    let outcome = case::tried(line, number);
    print_case(stdout, stderr, name, number, outcome);
    count.with(outcome)
}

fn lines_tried(
    stdout: &impl Print,
    stderr: &impl Print,
    name: &str,
    text: &[u8],
    before: Count,
) -> Count {
    let mut count = before;
    for (number, line) in (1..u64::MAX).zip(text.split(|b| *b == b'\n')) {
        count = line_tried(stdout, stderr, name, line, number, count);
    }
    count
}

// How many bytes were read; none, and it is told, where the file cannot be opened.
fn loaded(rt: &impl Files, stderr: &impl Print, name: &str, text: &mut [u8]) -> Option<usize>
    ensures { IfSome result (λ n. n ≤ length text.new) }
{
    match File::open(rt, name) {
        Ok(mut file) => Some(read_full(&mut file, text)),
        Err(why) => {
            let mut room = [0u8; 256];
            let mut page = Page::new(&mut room);
            let _ = write!(
                page,
                "worked: run it in the folder that has its data; it cannot open {name}"
            );
            page.warn_errno(stderr, &why);
            None
        }
    }
}

// The promise of the length spares its user from counting it out.
fn room() -> [u8; TEXT]
    ensures { 131072 ≡ length result }
{
    [0; TEXT]
}

// A file with nothing in it counts as wrong.
pub fn tried(rt: &(impl Files + Print), stderr: &impl Print, name: &str, count: Count) -> Count {
    let mut text = room();
    match loaded(rt, stderr, name, &mut text) {
        Some(length) if length > 0 => lines_tried(rt, stderr, name, &text[..length], count),
        _ => count.with(None),
    }
}
