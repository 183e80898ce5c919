// The one call of `gablestrand`, with its promise, for callers in C and Rust.
#![tactic(auto)]

ghost use Rattle.gablestrand.specs.Evaluate.{Told};

// 0 for a value, whose place is 0, or the refusal's number, whose length is 0.
#[unsafe(no_mangle)]
pub extern "C" fn gablestrand_evaluate(
    image: &[u8],
    budget: u64,
    words: &mut [u64],
    bytes: &mut [u8],
    out: &mut [u8],
    place: &mut u64,
    steps: &mut u64,
    length: &mut u64,
) -> u8
    ensures { Told image.now budget words.old bytes.old out.old result place.new steps.new length.new words.new bytes.new out.new }
{
    gablestrand::gablestrand_evaluate(image, budget, words, bytes, out, place, steps, length)
}
