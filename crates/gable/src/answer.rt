// What an image comes to, printed.
ghost use Rattle.gable.specs.Within.{Fits};

use crate::arguments::{Asked, Command};
use crate::meaning::meaning;
use crate::value::value;
use gablestrand::evaluate;
use printing::Page;
use rules::Answer;
use std::fmt;
use std::fmt::Write;

// Room for the longest text that an image has, alone: 20 bits and 65,535 bytes.
const OUTPUT: usize = 65538;

// Room for any output as text: a unit takes 4 bits there and `unit, ` here, and nothing grows more.
const PAGE: usize = 12 * OUTPUT + 64;

// How many steps were taken, in words.
#[derive(Clone, Copy)]
struct Steps(u64);

impl fmt::Display for Steps {
    fn fmt<W: fmt::Write>(&self, f: &mut fmt::Formatter<W>) -> fmt::Result {
        let steps = self.0;
        if steps == 1 {
            f.write_str("1 step")
        } else {
            write!(f, "{steps} steps")
        }
    }
}

// Where a refusal of this number stands: refusal 3 at a byte of the image, the others at a node or nowhere.
#[derive(Clone, Copy)]
struct Place {
    number: u8,
    place: usize,
}

impl fmt::Display for Place {
    fn fmt<W: fmt::Write>(&self, f: &mut fmt::Formatter<W>) -> fmt::Result {
        let place = self.place;
        if self.number == 3 {
            write!(f, ", at byte {place}")
        } else if place == 0 {
            Ok(())
        } else {
            write!(f, ", at node {place}")
        }
    }
}

// A refusal is an answer of `eval`; of `hex` nothing but the bytes goes to standard output. (Standard output and error stay two
// parameters: a struct of both would bring their two types into each signature.)
fn print_refusal(stdout: &impl Print, stderr: &impl Print, answer: Answer, command: Command) {
    let number = answer.number();
    let means = meaning(number);
    let place = Place {
        number,
        place: answer.place(),
    };
    let steps = Steps(answer.steps());
    let mut room = [0u8; 256];
    let mut page = Page::new(&mut room);
    let _ = writeln!(page, "refused: {number}, {means}{place}, after {steps}");
    match command {
        Command::Eval => page.send(stdout, stderr),
        Command::Hex => page.warn(stderr),
    };
}

// The page's room is lent by its length, so that no proof has to count it out.
fn print_value(
    stdout: &impl Print,
    stderr: &impl Print,
    output: &[u8],
    steps: u64,
    command: Command,
    room: &mut [u8; PAGE],
) {
    let mut page = Page::new(room);
    match command {
        Command::Eval => {
            value(output, &mut page);
            let steps = Steps(steps);
            let _ = write!(page, "\n{steps}");
        }
        Command::Hex => page.hex_bytes(output),
    }
    page.byte(b'\n');
    page.send(stdout, stderr);
}

// (Not inlined: a refusal would wait for the page to be filled with zeros too.)
#[inline(never)]
fn print_on_a_page(
    stdout: &impl Print,
    stderr: &impl Print,
    output: &[u8],
    steps: u64,
    command: Command,
) {
    let mut room = [0u8; PAGE];
    print_value(stdout, stderr, output, steps, command, &mut room);
}

fn print_answer(
    stdout: &impl Print,
    stderr: &impl Print,
    answer: Answer,
    output: &[u8],
    command: Command,
)
    requires { Fits answer output.now }
{
    let Answer::Value(length, steps) = answer else {
        print_refusal(stdout, stderr, answer, command);
        return;
    };
    print_on_a_page(stdout, stderr, &output[..length], steps, command);
}

pub fn evaluate_and_print(stdout: &impl Print, stderr: &impl Print, image: &[u8], asked: Asked) {
    let mut words = [0u64; 8192];
    let mut text = [0u8; 16384];
    let mut output = [0u8; OUTPUT];
    let answer = evaluate(image, asked.budget, &mut words, &mut text, &mut output);
    print_answer(stdout, stderr, answer, &output, asked.command);
}
