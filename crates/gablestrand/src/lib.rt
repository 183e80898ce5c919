// One call of the constant evaluator: an image, a budget and lent stores in, an answer out.
#![tactic(auto)]

ghost use Rattle.std.specs.Prelude.{◌≡◌, length};
ghost use Rattle.image.specs.Load.{load_of};
ghost use Rattle.rules.specs.Runs.{start, Budgeted};
ghost use Rattle.stores.specs.Lent.{seen_in};
ghost use Rattle.gablestrand.specs.Evaluate.{store_words, store_bytes, Decided, Evaluated, Told, length_of};
ghost use Rattle.gablestrand.specs.Answering.{Finished};

use eval::ir_expr;
use image::load;
use outcomes::Outcome;
use output::write_value;
use packed::image::Image;
use pouring::NoPlace;
use rules::{Answer, Refusal, Value};
use stores::lent::{Shared, Stores};
use stores::run::Run;

// "Word store at least 8,192 words, byte store at least 16,384"
pub const WORDS: usize = 8192;

pub const BYTES: usize = 16384;

// The answer of a run that came to a value: "26, 27 last", at the root.
fn finish(image: &Image, stores: &Shared, v: Value, steps: u64, out: &mut [u8]) -> Answer
    ensures { Finished image.now.bytes.now image.now.header (seen_in stores.now) v steps out.old out.new result }
{
    let root = usize::from(image.header.root);
    match write_value(image, stores, v, out) {
        Ok(length) => Answer::Value(length, steps),
        Err(NoPlace::Nested) => Answer::Refused(Refusal::Nesting, root, steps),
        Err(NoPlace::Full) => Answer::Refused(Refusal::Room, root, steps),
    }
}

// An image that loads, evaluated from its root at depth 1 with nothing in the store.
fn run_image(
    image: &Image,
    budget: u64,
    words: &mut [u64],
    bytes: &mut [u8],
    out: &mut [u8],
) -> Answer
    requires { (load_of image.now.bytes.now ≡ Ok image.now.header) × (length words.old ≡ store_words) × (length bytes.old ≡ store_bytes) }
    ensures { Budgeted image.now.bytes.now image.now.header out.old (start image.now.bytes.now image.now.header) budget result out.new }
{
    let run = Run {
        takes: budget,
        bound: 0,
        scope: 0,
        floor: 0,
        pending: 0,
        cells: 0,
        text: 0,
    };
    let mut stores = Stores { words, bytes, run };
    let outcome = ir_expr(image, &mut stores, image.header.root, 1);
    let steps = budget - stores.run.takes;
    match outcome {
        Outcome::Done(v) => finish(image, &stores.shared(), v, steps, out),
        Outcome::Broke(n, _) => Answer::Refused(Refusal::BreakOutside, usize::from(n), steps),
        Outcome::Refused(why, place) => Answer::Refused(why, usize::from(place), steps),
        Outcome::Spent(place) => Answer::Spent(usize::from(place), steps),
    }
}

// The answer of stores that are long enough.
fn answer_of(
    image: &[u8],
    budget: u64,
    words: &mut [u64],
    bytes: &mut [u8],
    out: &mut [u8],
) -> Answer
    requires { (length words.old ≡ store_words) × (length bytes.old ≡ store_bytes) }
    ensures { Decided image.now budget out.old result out.new }
{
    match load(image) {
        Ok(header) => {
            let whole = Image {
                bytes: image,
                header,
            };
            run_image(&whole, budget, words, bytes, out)
        }
        Err(error) => Answer::NotLoaded(error),
    }
}

// Evaluates an image with so many takes. Whatever stands in the stores at entry changes nothing; where both are long enough, their first parts are zero afterwards.
pub fn evaluate(
    image: &[u8],
    budget: u64,
    words: &mut [u64],
    bytes: &mut [u8],
    out: &mut [u8],
) -> Answer
    ensures { Evaluated image.now budget words.old bytes.old out.old result words.new bytes.new out.new }
{
    if words.len() < WORDS || bytes.len() < BYTES {
        return Answer::StoreTooShort;
    }
    let words = &mut words[..WORDS];
    let bytes = &mut bytes[..BYTES];
    let answer = answer_of(image, budget, words, bytes, out);
    words.fill(0);
    bytes.fill(0);
    answer
}

// A value's length in bytes; 0 for a refusal.
fn length_of(answer: Answer) -> u64
    ensures { result ≡ length_of answer }
{
    match answer {
        Answer::Value(length, _) => length as u64,
        _ => 0,
    }
}

// The same in numbers, for callers in C and Rust (`gablestrand_c` exports it): 0 for a value, whose place is 0, or the refusal's number, whose length is 0.
pub fn gablestrand_evaluate(
    image: &[u8],
    budget: u64,
    words: &mut [u64],
    bytes: &mut [u8],
    out: &mut [u8],
    place: &mut u64,
    steps: &mut u64,
    length: &mut u64,
) -> u8
    ensures { Told image.now budget words.old bytes.old out.old result place.new steps.new length.new words.new bytes.new out.new }
{
    let answer = evaluate(image, budget, words, bytes, out);
    *place = answer.place() as u64;
    *steps = answer.steps();
    *length = length_of(answer);
    answer.number()
}
