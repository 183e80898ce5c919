// Evaluates an image and prints what it comes to: `gable eval IMAGE [BUDGET]`, `gable hex IMAGE [BUDGET]`.
#![tactic(auto)]

mod answer; // what an image comes to, on a page
mod arguments; // what the program was asked for
mod file; // an image from a file
mod meaning; // what a refusal means, in a few words
mod value; // a value as people read it

use arguments::Asked;
use printing::Page;
use std::rt::{Env, Files};

// The longest image of edition 1: its header, 255 functions, 4,095 nodes, 4,095 literals and 65,535 bytes of text.
const LONGEST: usize = 8 + 4 * 255 + 8 * 4095 + 10 * 4095 + 65535;

fn load_and_print(
    rt: &(impl Env + Files + Print),
    stderr: &impl Print,
    image: &mut [u8],
    asked: Asked,
) {
    if let Some(length) = file::load(rt, stderr, image) {
        answer::evaluate_and_print(rt, stderr, &image[..length], asked);
    }
}

// (Not inlined: `main` would take the stack of these arrays where nothing is evaluated too.)
#[inline(never)]
fn run(rt: &(impl Env + Files + Print), stderr: &impl Print, asked: Asked) {
    let mut image = [0u8; LONGEST];
    load_and_print(rt, stderr, &mut image, asked);
}

fn usage(stdout: &impl Print, stderr: &impl Print) {
    let mut room = [0u8; 512];
    let mut page = Page::new(&mut room);
    page.bytes(
        b"gable eval IMAGE [BUDGET]   evaluates an image; prints its value and the steps taken, or the refusal\n\
gable hex IMAGE [BUDGET]    the same, with the value's output bytes in hexadecimal\n\
IMAGE is a file. BUDGET is how many steps it may take: 1000000 if it is left out.\n",
    );
    page.send(stdout, stderr);
}

fn main(rt: HostRuntime) {
    let stderr = rt.stderr();
    match arguments::read(&rt) {
        Ok(Some(asked)) => run(&rt, &stderr, asked),
        Ok(None) => usage(&rt, &stderr),
        Err(unclear) => {
            let _ = stderr.println(format_args!("gable: {unclear}"));
        }
    }
}
