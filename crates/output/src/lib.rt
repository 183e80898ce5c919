// A value as bits in the output (01 'Output'). It is gone through twice by the same code: measured, so that a refusal leaves the output as it is, and then written.
#![tactic(auto)]

ghost use Rattle.std.specs.Prelude.{◌≡◌, [], ◌∷◌, ◌+◌, ◌*◌, ◌/◌, ◌^◌, ◌≤◌, ◌<◌, length};
ghost use Rattle.boxes.specs.Cells.{CellAt};
ghost use Rattle.rules.specs.Output.{length_and_bytes, put as piece};
ghost use Rattle.rules.specs.Store.{text_of};
ghost use Rattle.texts.specs.Text.{pool_text};
ghost use Rattle.stores.specs.Lent.{seen_in};
ghost use Rattle.pouring.specs.Pouring.{IsPlace, Puts, bits_before};
ghost use Rattle.output.specs.Writing.{head_pieces, item_pieces, entry_piece, object_pieces, ValueWritten, PiecesWritten, Wrote};

use boxes::{cell_at, count_in};
use numbers::word::{float_to_word, int_to_word};
use ordered::{count_entries, key_at, next_entry};
use packed::image::Image;
use pouring::{NoPlace, Spot, put, put_bytes};
use rules::Value;
use slots::{length_of, start_of};
use stores::lent::Shared;
use texts::sources_of;

// A kind, and a number of some width.
fn write_number(
    out: &mut [u8],
    writing: bool,
    spot: Spot,
    kind: u64,
    width: u32,
    x: u64,
) -> Result<Spot, NoPlace>
    requires { IsPlace spot out.old × (width ≤ 64) }
    ensures { Puts writing (bits_before spot) (piece 4 kind ∷ piece width x ∷ []) out.old out.new result }
{
    let spot = put(out, writing, spot, 4, kind)?;
    put(out, writing, spot, width, x)
}

// A 16-bit length and the bytes of a text, the first `made` bytes having been built.
fn write_text(
    image: &Image,
    bytes: &[u8],
    made: usize,
    start: u32,
    len: u16,
    out: &mut [u8],
    writing: bool,
    spot: Spot,
) -> Result<Spot, NoPlace>
    requires { (made ≤ length bytes.now) × IsPlace spot out.old }
    ensures { Puts writing (bits_before spot) (length_and_bytes (pool_text image.now.bytes.now image.now.header made bytes.now start len)) out.old out.new result }
{
    let from = sources_of(image.header, made, start, len);
    let count = from.image.count + from.built.count;
    let spot = put(out, writing, spot, 16, count as u64)?;
    let spot = put_bytes(from.image.of(image.bytes), out, writing, spot)?;
    put_bytes(from.built.of(bytes), out, writing, spot)
}

// Text or bytes with their kind.
fn write_string(
    image: &Image,
    stores: &Shared,
    kind: u64,
    start: u32,
    len: u16,
    out: &mut [u8],
    writing: bool,
    spot: Spot,
) -> Result<Spot, NoPlace>
    requires { IsPlace spot out.old }
    ensures { Puts writing (bits_before spot) (piece 4 kind ∷ length_and_bytes (text_of image.now.bytes.now image.now.header (seen_in stores.now) start len)) out.old out.new result }
{
    let spot = put(out, writing, spot, 4, kind)?;
    let made = stores.run.text as usize;
    write_text(image, stores.bytes, made, start, len, out, writing, spot)
}

// What stands before the values within a value: all of it where it holds none.
fn write_head(
    image: &Image,
    stores: &Shared,
    v: Value,
    out: &mut [u8],
    writing: bool,
    spot: Spot,
) -> Result<Spot, NoPlace>
    requires { IsPlace spot out.old }
    ensures { Puts writing (bits_before spot) (head_pieces image.now.bytes.now image.now.header (seen_in stores.now) v) out.old out.new result }
{
    match v {
        Value::Unit => put(out, writing, spot, 4, 0),
        Value::Bool(b) => write_number(out, writing, spot, 1, 1, u64::from(b)),
        Value::Unsigned(x) => write_number(out, writing, spot, 2, 64, x),
        Value::Signed(x) => write_number(out, writing, spot, 3, 64, int_to_word(x)),
        Value::Float(x) => write_number(out, writing, spot, 4, 64, float_to_word(x)),
        Value::Char(c) => write_number(out, writing, spot, 5, 21, c as u64),
        Value::Text(s, l) => write_string(image, stores, 6, s, l, out, writing, spot),
        Value::Bytes(s, l) => write_string(image, stores, 7, s, l, out, writing, spot),
        Value::Vec(c) => write_number(out, writing, spot, 8, 12, count_in(stores, c as usize)),
        Value::Tuple(c) => write_number(out, writing, spot, 9, 12, count_in(stores, c as usize)),
        Value::Object(c) => write_number(out, writing, spot, 10, 12, count_entries(stores, c)),
    }
}

// The value of the i-th item after a head; unit past the last cell.
fn item_value(stores: &Shared, first: usize, i: u64) -> Value
    requires { first ≤ 4294967296 }
    ensures { CellAt result stores.now.run.now stores.now.words.now (first + i) }
{
    if 1024 <= i {
        return Value::Unit;
    }
    cell_at(stores, first + i as usize)
}

// A value, in which so many may stand in one another.
#[cycle(writers)]
fn write_any(
    image: &Image,
    stores: &Shared,
    v: Value,
    allowance: u32,
    out: &mut [u8],
    writing: bool,
    spot: Spot,
) -> Result<Spot, NoPlace>
    requires { IsPlace spot out.old }
    ensures { ValueWritten image.now stores.now v allowance writing spot out.old out.new result }
{
    if allowance == 0 {
        return Err(NoPlace::Nested);
    }
    let spot = write_head(image, stores, v, out, writing, spot)?;
    let within = allowance - 1;
    match v {
        Value::Vec(c) | Value::Tuple(c) => {
            write_items(image, stores, c, within, out, writing, spot)
        }
        Value::Object(c) => write_entries(image, stores, c, within, out, writing, spot),
        _ => Ok(spot),
    }
}

// The items of a vec or tuple.
#[cycle(writers)]
fn write_items(
    image: &Image,
    stores: &Shared,
    owner: u32,
    allowance: u32,
    out: &mut [u8],
    writing: bool,
    spot: Spot,
) -> Result<Spot, NoPlace>
    requires { IsPlace spot out.old }
    ensures { PiecesWritten image.now stores.now (λ bytes h σ. item_pieces bytes h σ owner) allowance writing spot out.old out.new result }
{
    let first = owner as usize + 1;
    let count = count_in(stores, owner as usize);
    let mut end = spot;
    for i in 0..count {
        let v = item_value(stores, first, i);
        end = write_any(image, stores, v, allowance, out, writing, end)?;
    }
    Ok(end)
}

// An entry of an object: its key, and its value.
#[cycle(writers)]
fn write_entry(
    image: &Image,
    stores: &Shared,
    i: usize,
    allowance: u32,
    out: &mut [u8],
    writing: bool,
    spot: Spot,
) -> Result<Spot, NoPlace>
    requires { IsPlace spot out.old }
    ensures { PiecesWritten image.now stores.now (λ bytes h σ. entry_piece bytes h σ i) allowance writing spot out.old out.new result }
{
    let key = key_at(stores, i);
    let spot = write_text(
        image,
        stores.bytes,
        0,
        start_of(key),
        length_of(key),
        out,
        writing,
        spot,
    )?;
    let v = cell_at(stores, i);
    write_any(image, stores, v, allowance, out, writing, spot)
}

// The entries of an object, by ascending key.
#[cycle(writers)]
fn write_entries(
    image: &Image,
    stores: &Shared,
    owner: u32,
    allowance: u32,
    out: &mut [u8],
    writing: bool,
    spot: Spot,
) -> Result<Spot, NoPlace>
    requires { IsPlace spot out.old }
    ensures { PiecesWritten image.now stores.now (λ bytes h σ. object_pieces bytes h σ owner) allowance writing spot out.old out.new result }
{
    let count = count_entries(stores, owner);
    let mut last = None;
    let mut end = spot;
    for _k in 0..count {
        let Some(i) = next_entry(image, stores, owner, last) else {
            return Ok(end);
        };
        end = write_entry(image, stores, i, allowance, out, writing, end)?;
        last = Some(i);
    }
    Ok(end)
}

// "Zero bits fill the last byte": the bytes that a place needs.
fn length_at(spot: Spot) -> usize
    requires { (spot.bits < 8) × ((bits_before spot + 7) / 8 < 2 ^ 64) }
    ensures { result ≡ (bits_before spot + 7) / 8 }
{
    if spot.bits == 0 {
        return spot.bytes;
    }
    spot.bytes + 1
}

// Writes a value, and tells how many bytes it takes, or why it has no place there. Where it has none, the output stays as it is.
pub fn write_value(
    image: &Image,
    stores: &Shared,
    v: Value,
    out: &mut [u8],
) -> Result<usize, NoPlace>
    ensures { Wrote image.now.bytes.now image.now.header (seen_in stores.now) v out.old out.new result }
{
    let start = Spot { bytes: 0, bits: 0 };
    write_any(image, stores, v, 64, out, false, start)?;
    let end = write_any(image, stores, v, 64, out, true, start)?;
    Ok(length_at(end))
}
