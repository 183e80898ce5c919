// One case: a program, what it is given and what has to come of it.
use crate::pattern::{begins, fill};
use crate::word::{bytes, word};
use gablestrand::evaluate;
use reading::number;
use rules::Answer;
use std::fmt;

// What 01 asks of the stores.
const WORDS: usize = 8192;

const BYTES: usize = 16384;

// The longest image and output of the data's lines, with room to spare.
const ROOM: usize = 4160;

// What a line tells.
#[derive(Clone, Copy)]
struct Case<'a> {
    image: &'a [u8],
    budget: u64,
    // the lengths of what is lent
    out: usize,
    words: usize,
    bytes: usize,
    // the answer
    number: u64,
    place: u64,
    steps: u64,
    output: &'a [u8],
}

#[derive(Clone, Copy, Debug, PartialEq, Eq)]
pub enum Fault {
    // its number, place, steps or length
    Answer,
    Output,
    Words,
    Bytes,
}

impl fmt::Display for Fault {
    fn fmt<W: fmt::Write>(&self, f: &mut fmt::Formatter<W>) -> fmt::Result {
        f.write_str(match self {
            Fault::Answer => "wrong answer",
            Fault::Output => "wrong output",
            Fault::Words => "wrong word store",
            Fault::Bytes => "wrong byte store",
        })
    }
}

// What came of a case, and whether that is what had to.
#[derive(Clone, Copy)]
pub struct Outcome {
    pub answer: Answer,
    pub judged: Result<(), Fault>,
}

// How long the answer's output is.
pub fn length_of(answer: Answer) -> usize {
    match answer {
        Answer::Value(length, _) => length,
        _ => 0,
    }
}

fn is_due(answer: Answer, case: Case<'_>) -> bool {
    u64::from(answer.number()) == case.number
        && answer.place() as u64 == case.place
        && answer.steps() == case.steps
        && length_of(answer) == case.output.len()
}

// The stores and the output afterwards. A case is lent the start of each, and what stands behind that is compared too.
#[derive(Clone, Copy)]
struct Left<'a> {
    words: &'a [u64],
    bytes: &'a [u8],
    out: &'a [u8],
}

// After refusal 5 the stores are as found, after any other answer their first parts are zero.
fn words_are_right(words: &[u64], number: u64, first: u64) -> bool {
    let zeros = [0u64; WORDS];
    if number == 5 {
        return begins(words, &[], first);
    }
    begins(words, &zeros, first)
}

fn bytes_are_right(bytes: &[u8], number: u64, first: u64) -> bool {
    let zeros = [0u8; BYTES];
    if number == 5 {
        return begins(bytes, &[], first);
    }
    begins(bytes, &zeros, first)
}

fn judged(answer: Answer, case: Case<'_>, left: Left<'_>, first: u64) -> Result<(), Fault> {
    if !is_due(answer, case) {
        return Err(Fault::Answer);
    }
    if !begins(left.out, case.output, first) {
        return Err(Fault::Output);
    }
    if !words_are_right(left.words, case.number, first) {
        return Err(Fault::Words);
    }
    if !bytes_are_right(left.bytes, case.number, first) {
        return Err(Fault::Bytes);
    }
    Ok(())
}

// (No struct of the three: the borrow checker does not cover fields of one that are lent at once behind a reference.)
fn evaluated(
    case: Case<'_>,
    words: &mut [u64],
    bytes: &mut [u8],
    out: &mut [u8],
    first: u64,
) -> Option<Outcome> {
    if case.words > words.len() || case.bytes > bytes.len() || case.out > out.len() {
        return None;
    }
    let answer = evaluate(
        case.image,
        case.budget,
        &mut words[..case.words],
        &mut bytes[..case.bytes],
        &mut out[..case.out],
    );
    let judged = judged(answer, case, Left { words, bytes, out }, first);
    Some(Outcome { answer, judged })
}

fn on_stores(case: Case<'_>, first: u64) -> Option<Outcome> {
    let mut words = [0u64; WORDS + 32];
    let mut bytes = [0u8; BYTES + 32];
    let mut out = [0u8; ROOM];
    fill(&mut words, first);
    fill(&mut bytes, first);
    fill(&mut out, first);
    evaluated(case, &mut words, &mut bytes, &mut out, first)
}

fn number_at(line: &[u8], n: usize) -> Option<u64> {
    number(word(line, n)?)
}

// The line's program is evaluated, on stores and an output that are filled from this number on; none where the line is no
// case, which has nine words.
pub fn tried(line: &[u8], first: u64) -> Option<Outcome> {
    let mut image = [0u8; ROOM];
    let mut output = [0u8; ROOM];
    let image_length = bytes(word(line, 0)?, &mut image)?;
    let output_length = bytes(word(line, 8)?, &mut output)?;
    if word(line, 9).is_some() {
        return None;
    }
    let case = Case {
        image: &image[..image_length],
        budget: number_at(line, 1)?,
        out: number_at(line, 2)? as usize,
        words: number_at(line, 3)? as usize,
        bytes: number_at(line, 4)? as usize,
        number: number_at(line, 5)?,
        place: number_at(line, 6)?,
        steps: number_at(line, 7)?,
        output: &output[..output_length],
    };
    on_stores(case, first)
}
