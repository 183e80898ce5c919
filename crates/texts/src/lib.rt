// Text: the image's and, after it, what was built in this run. A part that reaches past the end is as long as there is text.
#![tactic(auto)]

ghost use Rattle.std.specs.Prelude.{◌≡◌, ◌+◌, ◌≤◌, ◌<◌, length, MatchBool};
ghost use Rattle.std.specs.List.{copy_within};
ghost use Rattle.packed.specs.Layout.{size_of};
ghost use Rattle.numbers.specs.Decimal.{put_of, end_of};
ghost use Rattle.rules.specs.Store.{length_of, same_text, part_text};
ghost use Rattle.rules.specs.Building.{bool_text};
ghost use Rattle.rules.specs.Output.{ascending};
ghost use Rattle.texts.specs.Text.{bytes_of, Spans, first_part, image_part, pool_text, Sourced, joined};
ghost use Rattle.stores.specs.Stores.{MakesText};

use packed::image::Image;
use packed::layout::{Header, text_at};
use rules::{Refusal, Refused, Value};
use slots::{length_of, start_of};
use stores::run::Run;

// Bytes of a slice: from which on, and how many.
#[derive(Clone, Copy, Debug, PartialEq, Eq)]
pub struct Span {
    pub from: usize,
    pub count: usize,
}

impl Span {
    // The bytes themselves.
    pub fn of(self, bytes: &[u8]) -> &[u8]
        requires { self.from + self.count ≤ length bytes.now }
        ensures { result.now ≡ bytes_of self bytes.now }
    {
        &bytes[self.from..self.from + self.count]
    }
}

// Where the bytes of a text stand: first in the image, then among those that were built.
#[derive(Clone, Copy, Debug, PartialEq, Eq)]
pub struct Sources {
    pub image: Span,
    pub built: Span,
}

// A part of `total` bytes, as far as there are bytes.
fn span_of(total: usize, start: usize, len: usize) -> Span
    ensures { Spans total len (first_part total start len) result }
{
    let from = start.min(total);
    let count = len.min(total - from);
    Span { from, count }
}

// Where a part of the image's text stands in the image.
fn image_span(h: Header, start: u32, len: u16) -> Span
    ensures { Spans (size_of h) len (image_part h start len) result }
{
    let part = span_of(h.text as usize, start as usize, len as usize);
    Span {
        from: text_at(h) + part.from,
        count: part.count,
    }
}

// The text of a literal's payload.
fn literal_text<'a>(image: &'a Image, payload: u64) -> &'a [u8]
    ensures { result.now ≡ part_text image.now.bytes.now image.now.header payload }
{
    image_span(image.header, start_of(payload), length_of(payload)).of(image.bytes)
}

// Up to how many bytes a text is short.
const SHORT: usize = 16;

// Whether two texts are the same. Short ones, as most keys are, are told apart sooner one by one than by the library, which goes by groups.
#[inline(always)]
fn same_bytes(a: &[u8], b: &[u8]) -> bool
    ensures { result ≡ same_text a.now b.now }
{
    if a.len() != b.len() || SHORT < a.len() {
        return a == b;
    }
    for (i, byte) in a.iter().enumerate() {
        if b[i] != *byte {
            return false;
        }
    }
    true
}

// Whether two payloads of text literals name the same text. (Inlined: a search for a key then finds the key's own text once.)
#[inline(always)]
pub fn same_part(image: &Image, p: u64, q: u64) -> bool
    ensures { result ≡ same_text (part_text image.now.bytes.now image.now.header p) (part_text image.now.bytes.now image.now.header q) }
{
    p == q || same_bytes(literal_text(image, p), literal_text(image, q))
}

// Whether the text that a payload names is that of another, or stands before it.
pub fn ascending_part(image: &Image, p: u64, q: u64) -> bool
    ensures { result ≡ ascending (part_text image.now.bytes.now image.now.header p) (part_text image.now.bytes.now image.now.header q) }
{
    literal_text(image, p) <= literal_text(image, q)
}

// Whether so many bytes at `at` are within `total`.
fn has_room(total: usize, at: usize, count: usize) -> bool
    ensures { MatchBool result (at + count ≤ total) (total < at + count) }
{
    count <= total && at <= total - count
}

// Bytes copied one by one: by the library's `copy_from_slice` the archive for C would need `memmove` from outside.
fn copy_bytes(to: &mut [u8], from: &[u8])
    requires { length to.old ≡ length from.now }
    ensures { to.new ≡ from.now }
{
    for (i, byte) in from.iter().enumerate() {
        to[i] = *byte;
    }
}

// Puts a text at `at` and gives its end, or changes nothing where it has no room.
fn put_bytes(text: &[u8], bytes: &mut [u8], at: usize) -> Option<usize>
    ensures end { result ≡ end_of bytes.old at text.now }
    ensures bytes { bytes.new ≡ put_of bytes.old at text.now }
{
    if !has_room(bytes.len(), at, text.len()) {
        return None;
    }
    let end = at + text.len();
    copy_bytes(&mut bytes[at..end], text);
    Some(end)
}

// Puts the text of a literal's payload.
pub fn put_part(image: &Image, payload: u64, bytes: &mut [u8], at: usize) -> Option<usize>
    ensures end { result ≡ end_of bytes.old at (part_text image.now.bytes.now image.now.header payload) }
    ensures bytes { bytes.new ≡ put_of bytes.old at (part_text image.now.bytes.now image.now.header payload) }
{
    put_bytes(literal_text(image, payload), bytes, at)
}

// Where the bytes of a text stand, the first `made` bytes having been built.
pub fn sources_of(h: Header, made: usize, start: u32, len: u16) -> Sources
    ensures { Sourced h made start len result }
{
    let image = image_span(h, start, len);
    let past = (start as usize).saturating_sub(h.text as usize);
    let built = span_of(made, past, len as usize - image.count);
    Sources { image, built }
}

// So many bytes that were built copied to `at`, past them.
fn copy_built(bytes: &mut [u8], from: usize, count: usize, at: usize)
    requires { (from + count ≤ at) × (at + count ≤ length bytes.old) }
    ensures { bytes.new ≡ copy_within bytes.old from (from + count) at }
{
    let (before, after) = bytes.split_at_mut(at);
    copy_bytes(&mut after[..count], &before[from..from + count]);
}

// Puts a text at `at`, the first `made` bytes having been built before.
pub fn put_text(
    image: &Image,
    made: usize,
    start: u32,
    len: u16,
    bytes: &mut [u8],
    at: usize,
) -> Option<usize>
    requires { made ≤ at }
    ensures end { result ≡ end_of bytes.old at (pool_text image.now.bytes.now image.now.header made bytes.old start len) }
    ensures bytes { bytes.new ≡ put_of bytes.old at (pool_text image.now.bytes.now image.now.header made bytes.old start len) }
{
    let from = sources_of(image.header, made, start, len);
    let built = from.built;
    let count = from.image.count + built.count;
    if !has_room(bytes.len(), at, count) {
        return None;
    }
    let middle = at + from.image.count;
    copy_bytes(&mut bytes[at..middle], from.image.of(image.bytes));
    copy_built(bytes, built.from, built.count, middle);
    Some(at + count)
}

// Puts what a bool prints.
pub fn put_bool(b: bool, bytes: &mut [u8], at: usize) -> Option<usize>
    ensures end { result ≡ end_of bytes.old at (bool_text b) }
    ensures bytes { bytes.new ≡ put_of bytes.old at (bool_text b) }
{
    let text: &[u8] = if b { b"true" } else { b"false" };
    put_bytes(text, bytes, at)
}

// Two texts joined after what was built before, as the value of node n. It has no use for words, and asks for none.
pub fn join(
    image: &Image,
    bytes: &mut [u8],
    run: &mut Run,
    n: u16,
    start: u32,
    len: u16,
    start2: u32,
    len2: u16,
) -> Result<Value, Refused>
    requires { (length bytes.old ≡ 16384) × (run.old.text ≤ 16384) }
    ensures { MakesText result (joined image.now.bytes.now image.now.header n start len start2 len2) run.old bytes.old run.new bytes.new }
{
    let no_room = Refused {
        why: Refusal::TextBytes,
        place: n,
    };
    let made = run.text as usize;
    let middle = put_text(image, made, start, len, bytes, made).ok_or(no_room)?;
    let end = put_text(image, made, start2, len2, bytes, middle).ok_or(no_room)?;
    run.text = end as u64;
    Ok(Value::Text(image.header.text as u32 + made as u32, (end - made) as u16))
}
