// Bits poured into an output, the most significant first. Eight times an output's length may not fit 64 bits, so a place in it is
// whole bytes and bits of the next one. The same calls measure: where `writing` is false they only tell the place.
#![tactic(auto)]

ghost use Rattle.std.specs.Prelude.{◌≡◌, [], ◌∷◌, ◌+◌, ◌*◌, ◌/◌, ◌^◌, ◌≤◌, ◌<◌, leb, length};
ghost use Rattle.rules.specs.Output.{bits_of, byte_pieces};
ghost use Rattle.rules.specs.Output.{put as piece};
ghost use Rattle.pouring.specs.Pouring.{Pours, Puts, IsPlace, bits_before, spot_at, filled, byte_bits};

use fields::cut;

// Where the next bit goes: behind so many whole bytes, and bits of the next one. That those are fewer than eight stands in `IsPlace`: as a
// ghost field it would be one more proof in each equation of two places, which is no plainer.
#[derive(Clone, Copy, Debug, PartialEq, Eq)]
pub struct Spot {
    pub bytes: usize,
    pub bits: u32,
}

// Why there is no place.
#[derive(Clone, Copy, Debug, PartialEq, Eq)]
pub enum NoPlace {
    Nested,
    Full,
}

impl Spot {
    // Whether so many bytes and bits more have room in so many bytes.
    fn has_room(self, len: usize, whole: usize, more: u32) -> bool
        requires { (self.bits < 8) × (self.bytes ≤ len) × (more ≤ 64) }
        ensures { result ≡ leb (bits_before self + 8 * whole + more) (8 * len) }
    {
        let left = len - self.bytes;
        let used = ((self.bits + more + 7) / 8) as usize;
        whole <= left && used <= left - whole
    }

    // The place so many bytes and bits on.
    fn on(self, whole: usize, more: u32) -> Spot
        requires { (self.bits < 8) × (more ≤ 64) × ((bits_before self + 8 * whole + more) / 8 < 2 ^ 64) }
        ensures { result ≡ spot_at (bits_before self + 8 * whole + more) }
    {
        let bits = self.bits + more;
        Spot {
            bytes: self.bytes + whole + (bits / 8) as usize,
            bits: bits % 8,
        }
    }
}

// A byte that keeps its first `used` bits, with x in the `width` bits after them and then zeros.
fn with_bits(old: u8, used: u32, width: u32, x: u64) -> u8
    requires { (used + width ≤ 8) × (x < 2 ^ width) }
    ensures { result ≡ filled old used width x }
{
    let rest = 8 - used;
    ((u64::from(old) >> rest << rest) + (x << (rest - width))) as u8
}

// Pours bits into one byte.
fn fill(out: &mut [u8], at: usize, used: u32, width: u32, x: u64)
    requires { (at < length out.old) × (1 ≤ width) × (used + width ≤ 8) × (x < 2 ^ width) }
    ensures { Pours (8 * at + used) (bits_of width x) out.old out.new }
{
    out[at] = with_bits(out[at], used, width, x);
}

// Pours the low `width` bits of x, a byte's part at a time.
fn pour(out: &mut [u8], spot: Spot, width: u32, x: u64)
    requires { (spot.bits < 8) × (width ≤ 64) × (bits_before spot + width ≤ 8 * length out.old) }
    ensures { Pours (bits_before spot) (bits_of width x) out.old out.new }
{
    let end = spot.bytes + ((spot.bits + width) / 8) as usize;
    let mut used = spot.bits;
    let mut left = width;
    for at in spot.bytes..end {
        let part = 8 - used;
        left -= part;
        fill(out, at, used, part, cut(x, left, part));
        used = 0;
    }
    if left > 0 {
        fill(out, end, used, left, cut(x, 0, left));
    }
}

// Pours a byte: what has room in the byte that it begins in, and the rest in the next. (`pour` would go by a loop, for each byte of a text.)
fn pour_byte(out: &mut [u8], at: usize, used: u32, byte: u8)
    requires { (used < 8) × (8 * at + used + 8 ≤ 8 * length out.old) }
    ensures { Pours (8 * at + used) (bits_of 8 byte) out.old out.new }
{
    let x = u64::from(byte);
    let part = 8 - used;
    let left = 8 - part;
    fill(out, at, used, part, cut(x, left, part));
    if left > 0 {
        fill(out, at + 1, 0, left, cut(x, 0, left));
    }
}

// Pours bytes.
fn pour_bytes(source: &[u8], out: &mut [u8], spot: Spot)
    requires { (spot.bits < 8) × (bits_before spot + 8 * length source.now ≤ 8 * length out.old) }
    ensures { Pours (bits_before spot) (byte_bits source.now) out.old out.new }
{
    for (i, byte) in source.iter().enumerate() {
        pour_byte(out, spot.bytes + i, spot.bits, *byte);
    }
}

// The low `width` bits of x.
pub fn put(out: &mut [u8], writing: bool, spot: Spot, width: u32, x: u64) -> Result<Spot, NoPlace>
    requires { IsPlace spot out.old × (width ≤ 64) }
    ensures { Puts writing (bits_before spot) (piece width x ∷ []) out.old out.new result }
{
    if !spot.has_room(out.len(), 0, width) {
        return Err(NoPlace::Full);
    }
    if writing {
        pour(out, spot, width, x);
    }
    Ok(spot.on(0, width))
}

// Bytes.
pub fn put_bytes(source: &[u8], out: &mut [u8], writing: bool, spot: Spot) -> Result<Spot, NoPlace>
    requires { IsPlace spot out.old }
    ensures { Puts writing (bits_before spot) (byte_pieces source.now) out.old out.new result }
{
    if !spot.has_room(out.len(), source.len(), 0) {
        return Err(NoPlace::Full);
    }
    if writing {
        pour_bytes(source, out, spot);
    }
    Ok(spot.on(source.len(), 0))
}
