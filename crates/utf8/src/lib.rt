// Whether a part of a slice is UTF-8 (RFC 3629).
#![tactic(auto)]

ghost use Rattle.std.specs.Prelude.{◌≡◌, ◌+◌, ◌≤◌, ◌<◌, [], ◌∷◌, length, drop, MatchOption};
ghost use Rattle.std.proofs.Math.Seq.{slice};
ghost use Rattle.utf8.specs.Utf8.{starts, char_len, utf8_of};
ghost use Rattle.utf8.specs.Leads.{some_lead as some_lead_with, lead_of};
ghost use Rattle.utf8.specs.Runs.{stop_of, Stops};

// What the first byte of a character tells: how many bytes the character has, and the least and the greatest that the second one
// may be (0, where there is no second one).
#[derive(Clone, Copy, Debug, PartialEq, Eq)]
struct Lead {
    len: usize,
    low: u8,
    high: u8,
}

// A lead as the table below writes it.
fn some_lead(len: usize, low: u8, high: u8) -> Option<Lead>
    ensures { result ≡ some_lead_with len low high }
{
    Some(Lead { len, low, high })
}

// RFC 3629, section 4, an arm for each row of its table. With a byte of the last arm no character starts.
fn lead_of(first: u8) -> Option<Lead>
    ensures { result ≡ lead_of first }
{
    match first {
        0x00..=0x7F => some_lead(1, 0, 0),
        0xC2..=0xDF => some_lead(2, 0x80, 0xBF),
        0xE0 => some_lead(3, 0xA0, 0xBF),
        0xE1..=0xEC => some_lead(3, 0x80, 0xBF),
        0xED => some_lead(3, 0x80, 0x9F),
        0xEE..=0xEF => some_lead(3, 0x80, 0xBF),
        0xF0 => some_lead(4, 0x90, 0xBF),
        0xF1..=0xF3 => some_lead(4, 0x80, 0xBF),
        0xF4 => some_lead(4, 0x80, 0x8F),
        _ => None,
    }
}

// Whether at a place there is a byte, and it is one from low to high.
fn in_range(bytes: &[u8], at: usize, low: u8, high: u8) -> bool
    ensures { result ≡ starts ((low, high) ∷ []) (drop at bytes.now) }
{
    match bytes.get(at) {
        Some(&byte) => low <= byte && byte <= high,
        None => false,
    }
}

// How many bytes the character has that starts at a place, if one does.
fn char_len(bytes: &[u8], at: usize) -> Option<usize>
    requires { at < length bytes.now }
    ensures { MatchOption result (char_len (drop at bytes.now) ≡ 0) (λ len. (len ≡ char_len (drop at bytes.now)) × (1 ≤ len)) }
{
    let Lead {
        len,
        mut low,
        mut high,
    } = lead_of(bytes[at])?;
    for read in 1..len {
        if !in_range(bytes, at + read, low, high) {
            return None;
        }
        low = 0x80;
        high = 0xBF;
    }
    Some(len)
}

// Where the characters stop that stand one after the other from a place on: it goes from one to the next until a place has its stop kept.
fn stop_of(bytes: &[u8], stops: &[u32; 1024], from: usize) -> usize
    requires { Stops bytes.now stops.now }
    ensures { result ≡ stop_of bytes.now from }
{
    let mut at = from;
    // It goes on by whole characters, and counts no index.
    while at < bytes.len() {
        let entry = stops[at / 64];
        if entry / 65_536 == at as u32 {
            return (entry % 65_536) as usize;
        }
        let Some(len) = char_len(bytes, at) else {
            return at;
        };
        at += len;
    }
    at
}

// The first place from a block's start on at which no tail stands. It looks at three bytes, as many as a character that starts before the
// block can have in it.
fn after_tails(bytes: &[u8], start: usize) -> usize
    requires { start < 65536 }
    ensures { result ≤ start + 3 }
{
    (start..start + 3)
        .find(|at| !in_range(bytes, *at, 0x80, 0xBF))
        .unwrap_or(start + 3)
}

// The stops of a text: for each block of 64 bytes that of the one place where characters that start before it can go on. They are made
// from the last block down, so that `stop_of` reads about a block of bytes at most, here and later.
// An array of a fixed size, each place and its stop in one word: no heap, and the callers lend it on.
pub fn stops_of(bytes: &[u8]) -> [u32; 1024]
    requires { length bytes.now ≤ 65535 }
    ensures { Stops bytes.now result }
{
    let mut stops = [0xFFFF_FFFFu32; 1024];
    for block in (0..bytes.len() / 64 + 1).rev() {
        let place = after_tails(bytes, 64 * block);
        if place < bytes.len() {
            let stop = stop_of(bytes, &stops, place);
            stops[block] = (place * 65_536 + stop) as u32;
        }
    }
    stops
}

// Whether the bytes from the place `from` up to, not including, the place `to` are UTF-8. A `to` past the end stops at the end; where no
// byte is left, the answer is true.
pub fn is_utf8(bytes: &[u8], stops: &[u32; 1024], from: usize, to: usize) -> bool
    requires { Stops bytes.now stops.now }
    ensures { result ≡ utf8_of (slice from to bytes.now) }
{
    let end = bytes.len().min(to);
    if end <= from {
        return true;
    }
    let stop = stop_of(bytes, stops, from);
    if stop <= end {
        return stop == end;
    }
    !in_range(bytes, end, 0x80, 0xBF)
}
