// Fields of bit-packed bytes: any width up to 64 at any bit, the most significant bit first.
#![tactic(auto)]

ghost use Rattle.std.specs.Prelude.{◌≡◌, ltb, ◌+◌, ◌-◌, ◌*◌, ◌/◌, ◌%◌, ◌^◌, ◌≤◌, ◌<◌, length, get_or};
ghost use Rattle.fields.specs.Field.{field_of, is_within, read_of, Put, Wrote, Mixed};

// Shifts and masks by their meaning in numbers, so that no proof above speaks of bits.
fn up(x: u64, k: u32) -> u64
    requires { (k < 64) × (x * 2 ^ k < 2 ^ 64) }
    ensures { result ≡ x * 2 ^ k }
{
    x << k
}

fn down(x: u64, k: u32) -> u64
    requires { k < 64 }
    ensures { result ≡ x / 2 ^ k }
{
    x >> k
}

fn low(x: u64, k: u32) -> u64
    requires { k < 64 }
    ensures { result ≡ x % 2 ^ k }
{
    x % (1 << k)
}

// N bytes from a byte's place as one number. The crates above prove that the bytes are there: a read of a checked image needs
// no test of its own. (An `|` and not a `+`, and each byte put in its place by itself: so the eight loads of a word become one
// load and a byte swap, wherever the whole word is used.)
pub fn number_at<const N: usize>(bytes: &[u8], at: usize) -> u64
    requires { (N ≤ 8) × (at + N ≤ length bytes.now) }
    ensures { (result ≡ field_of bytes.now (8 * at) (8 * N)) × (result < 2 ^ (8 * N)) }
{
    let mut number: u64 = 0;
    for i in 0..N {
        number |= up(u64::from(bytes[at + i]), 8 * (N - 1 - i) as u32);
    }
    number
}

// `width` bits of a word, with `after` bits after them: a field of a record that was read whole.
pub fn cut(word: u64, after: u32, width: u32) -> u64
    requires { (after < 64) × (width < 64) }
    ensures { (result ≡ word / 2 ^ after % 2 ^ width) × (result < 2 ^ width) }
{
    low(down(word, after), width)
}

// A number with t bits more: those of byte k that have s bits after them.
fn more(bytes: &[u8], acc: u64, k: usize, s: u32, t: u32) -> u64
    requires { (k < length bytes.now) × (s + t ≤ 8) × (acc * 2 ^ t + 2 ^ t ≤ 2 ^ 64) }
    ensures { result ≡ acc * 2 ^ t + get_or bytes.now k 0 / 2 ^ s % 2 ^ t }
{
    up(acc, t) + low(down(u64::from(bytes[k]), s), t)
}

fn field_at(bytes: &[u8], bit: usize, width: u32) -> u64
    requires { (width ≤ 64) × (bit + width ≤ 8 * length bytes.now) }
    ensures { result ≡ field_of bytes.now bit width }
{
    let mut k = bit / 8;
    let mut room = 8 - (bit % 8) as u32;
    let mut left = width;
    let mut acc: u64 = 0;
    // (A `while`: it counts bits that are left, in steps as long as each byte has room.)
    while room <= left {
        acc = more(bytes, acc, k, 0, room);
        left -= room;
        k += 1;
        room = 8;
    }
    if left == 0 {
        return acc;
    }
    more(bytes, acc, k, room - left, left)
}

// Whether the bytes have the field whole. (Counted in bytes: eight times a length may not fit.)
fn within(bytes: &[u8], bit: usize, width: u32) -> bool
    ensures { result ≡ is_within bytes.now bit width }
{
    if 64 < width {
        return false;
    }
    let used = (bit % 8 + width as usize + 7) / 8;
    bit / 8 + used <= bytes.len()
}

// The number that `width` bits from a bit's place make; none where the bytes do not have the field whole.
#[tactic(auto, using(crate::proofs::Laws::within_so), unfolding(crate::specs::Field::read_of))]
pub fn field(bytes: &[u8], bit: usize, width: u32) -> Option<u64>
    ensures { result ≡ read_of bytes.now bit width }
{
    if !within(bytes, bit, width) {
        return None;
    }
    Some(field_at(bytes, bit, width))
}

// A byte with v for the t bits that have s bits after them.
#[tactic(auto, using(crate::proofs::Putting::mixed_lt))]
fn mix(old: u8, s: u32, t: u32, v: u64) -> u8
    requires { (s + t ≤ 8) × (v < 2 ^ t) }
    ensures { Mixed old s t v result }
{
    let x = u64::from(old);
    (up(down(x, s + t), s + t) + up(v, s) + low(x, s)) as u8
}

fn put_in(out: &mut [u8], k: usize, s: u32, t: u32, v: u64)
    requires { (k < length out.old) × (s + t ≤ 8) × (v < 2 ^ t) }
    ensures { Put out.old out.new (8 * k + (8 - (s + t))) t v }
{
    out[k] = mix(out[k], s, t, v);
}

fn put_at(out: &mut [u8], bit: usize, width: u32, value: u64)
    requires { (width ≤ 64) × (bit + width ≤ 8 * length out.old) × (value < 2 ^ width) }
    ensures { Put out.old out.new bit width value }
{
    let mut k = bit / 8;
    let mut room = 8 - (bit % 8) as u32;
    let mut left = width;
    // (A `while`: it counts bits that are left, in steps as long as each byte has room.)
    while room <= left {
        left -= room;
        put_in(out, k, 0, room, low(down(value, left), room));
        k += 1;
        room = 8;
    }
    if left == 0 {
        return;
    }
    put_in(out, k, room - left, left, low(value, left));
}

// Whether a value has at most `width` bits.
fn has_room(value: u64, width: u32) -> bool
    requires { width ≤ 64 }
    ensures { result ≡ ltb value (2 ^ width) }
{
    if width == 64 {
        return true;
    }
    down(value, width) == 0
}

// Writes a value into `width` bits from a bit's place, and keeps every other bit. Where the bytes do not have the field
// whole, or the value does not fit there, it answers false and writes nothing.
#[tactic(auto, using(crate::proofs::Laws::within_so))]
pub fn put(out: &mut [u8], bit: usize, width: u32, value: u64) -> bool
    ensures { Wrote out.old out.new bit width value result }
{
    if !within(out, bit, width) {
        return false;
    }
    if !has_room(value, width) {
        return false;
    }
    put_at(out, bit, width, value);
    true
}
