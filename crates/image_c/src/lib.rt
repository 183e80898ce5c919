// Loading for callers in C and Rust.
#![tactic(auto)]

ghost use Rattle.std.specs.Prelude.{◌≡◌, ◌+◌, ◌*◌};
ghost use Rattle.image.specs.Load.{load_of, number_of, place_of};

use image::load;

// Eight times the place of the refusal, and its number: 0 where the image loads.
#[unsafe(no_mangle)]
pub extern "C" fn gablestrand_load(image: &[u8]) -> u64
    ensures { result ≡ place_of (load_of image.now) * 8 + number_of (load_of image.now) }
{
    match load(image) {
        Ok(_) => 0,
        Err(refusal) => refusal.place() as u64 * 8 + u64::from(refusal.number()),
    }
}
