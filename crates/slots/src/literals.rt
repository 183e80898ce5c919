// Literals of a loaded image.
ghost use Rattle.std.specs.Prelude.{◌≡◌, ◌≤◌, ◌<◌, length};
ghost use Rattle.packed.specs.Layout.{size_of, literal_at};
ghost use Rattle.rules.specs.Building.{literal_value};

use crate::literal_of;
use packed::image::Image;
use packed::layout::Header;
use rules::Value;

#[tactic(auto, unfolding(rules::specs::Building::literal_value))]
pub fn literal_value(image: &Image, l: u16) -> Value
    requires { (l < image.now.header.literals) }
    ensures { result ≡ literal_value image.now.bytes.now image.now.header l }
{
    let literal = image.literal(usize::from(l));
    literal_of(u64::from(literal.kind), literal.payload)
}

// The key that a text literal is.
pub fn key_of(image: &Image, l: u16) -> u64
    requires { (l < image.now.header.literals) }
    ensures { result ≡ (literal_at image.now.bytes.now image.now.header l).payload }
{
    image.literal(usize::from(l)).payload
}
