// Text for people: collected on a page, which is a lent slice and how many of its bytes are written, and sent off once. A byte
// that has no room is left out; the page is then full, and a full page is told and not sent.
#![tactic(auto)]

ghost use Rattle.std.specs.Prelude.{◌≡◌, ◌≢◌, ◌≤◌, ◌<◌, ◌↔◌, ◌∷◌, [], min, max, length, take, IsTrue, MatchOption};
ghost use Rattle.io.specs.Digits.{hex_digit_ascii};
ghost use Rattle.printing.specs.Page.{page, with_byte, with_bytes, hex_of, letter_of, is_printable, escape_of, InBase};
ghost use Rattle.printing.specs.Shown.{shown};

use std::fmt;
use std::fmt::Write;
use std::io::Error;

// (Each method promises that the page stays on the same slice, so that who lent it knows what it holds afterwards.)
#[derive(Drop)]
pub struct Page<'a> {
    all: &'a mut [u8],
    at: usize,
}

impl<'a> Page<'a> {
    // A page with nothing written on it.
    pub fn new(all: &'a mut [u8]) -> Page<'a>
        ensures same_reference { result.all.ghost_name ≡ all.entry.ghost_name }
        ensures value { shown result ≡ page all.old 0 }
    {
        Page { all, at: 0 }
    }

    // A page of which so many bytes are written already.
    pub fn continued(all: &'a mut [u8], at: usize) -> Page<'a>
        ensures same_reference { result.all.ghost_name ≡ all.entry.ghost_name }
        ensures value { shown result ≡ page all.old at }
    {
        Page { all, at }
    }

    // Whether the next byte has no room.
    pub fn is_full(&self) -> bool
        ensures { IsTrue result ↔ (length (shown self.now).all ≤ (shown self.now).at) }
    {
        self.all.len() <= self.at
    }

    // What is written.
    pub fn written(&self) -> &[u8]
        ensures { result.now ≡ take (shown self.now).at (shown self.now).all }
    {
        &self.all[..self.at.min(self.all.len())]
    }

    // One byte more.
    #[tactic(auto, using(crate::proofs::Pages::room, crate::proofs::Pages::no_room))]
    pub fn byte(&mut self, b: u8)
        ensures same_reference { self.new.all.ghost_name ≡ self.old.all.ghost_name }
        ensures value { shown self.new ≡ with_byte (shown self.old) b }
    {
        if self.at < self.all.len() {
            self.all[self.at] = b;
            self.at += 1;
        }
    }

    // Bytes as they are.
    pub fn bytes(&mut self, text: &[u8])
        ensures same_reference { self.new.all.ghost_name ≡ self.old.all.ghost_name }
        ensures value { shown self.new ≡ with_bytes (shown self.old) text.now }
    {
        for b in text {
            self.byte(*b);
        }
    }

    // A number in decimal.
    pub fn decimal(&mut self, n: u64)
        ensures same_reference { self.new.all.ghost_name ≡ self.old.all.ghost_name }
        ensures value { InBase 10 1 n (shown self.old) (shown self.new) }
    {
        let mut digits = [0u8; 20];
        let count = io::decimal(n, &mut digits);
        self.bytes(&digits[..count]);
    }

    // A number in hexadecimal, with zeros in front up to `width` digits, from 1 to 16.
    pub fn hex(&mut self, n: u64, width: usize)
        ensures same_reference { self.new.all.ghost_name ≡ self.old.all.ghost_name }
        ensures value { InBase 16 (min (max width 1) 16) n (shown self.old) (shown self.new) }
    {
        let mut digits = [0u8; 16];
        let count = io::hex(n, width, &mut digits);
        self.bytes(&digits[..count]);
    }

    fn hex_byte(&mut self, b: u8)
        ensures same_reference { self.new.all.ghost_name ≡ self.old.all.ghost_name }
        ensures value { shown self.new ≡ with_bytes (shown self.old) (hex_of (b ∷ [])) }
    {
        self.byte(hex_digit(b / 16 % 16));
        self.byte(hex_digit(b % 16));
    }

    // Bytes as two hexadecimal digits each. (A loop of its own: one generic in what a byte is written as would be no plainer.)
    pub fn hex_bytes(&mut self, text: &[u8])
        ensures same_reference { self.new.all.ghost_name ≡ self.old.all.ghost_name }
        ensures value { shown self.new ≡ with_bytes (shown self.old) (hex_of text.now) }
    {
        for b in text {
            self.hex_byte(*b);
        }
    }

    // A byte as it stands between these quotes: with a backslash, as it is, or by its number.
    #[tactic(auto, using(crate::proofs::Escapes::by_letter, crate::proofs::Escapes::by_itself, crate::proofs::Escapes::by_number))]
    pub fn escaped(&mut self, b: u8, quote: u8)
        ensures same_reference { self.new.all.ghost_name ≡ self.old.all.ghost_name }
        ensures value { shown self.new ≡ with_bytes (shown self.old) (escape_of quote b) }
    {
        if let Some(letter) = letter_of(b, quote) {
            self.bytes(&[b'\\', letter]);
        } else if is_printable(b) {
            self.byte(b);
        } else {
            self.bytes(b"\\x");
            self.hex_byte(b);
        }
    }

    // Sends the page's text to standard output, whole, or says on standard error that it did not.
    pub fn send(&self, stdout: &impl Print, stderr: &impl Print) -> bool {
        send(stdout, stderr, self.all, self.at)
    }

    // The same to standard error, where nobody is left to be told.
    pub fn warn(&self, stderr: &impl Print) -> bool {
        warn(stderr, self.all, self.at)
    }

    // The same with what the system says after it: why a call failed.
    pub fn warn_errno(&self, stderr: &impl Print, error: &Error) {
        warn_errno(stderr, self.all, self.at, error);
    }
}

// What `Page` sends, of a slice that is lent to be read alone: the page's bytes are its first `at`, and a full one is told and not sent.
pub fn send(stdout: &impl Print, stderr: &impl Print, all: &[u8], at: usize) -> bool {
    if all.len() <= at {
        let _ = stderr.write_all(b"the text is too long to be written: give a smaller one\n");
        return false;
    }
    match stdout.write_all(&all[..at]) {
        Ok(()) => true,
        Err(error) => {
            fail(stderr, b"standard output was not written whole", &error);
            false
        }
    }
}

pub fn warn(stderr: &impl Print, all: &[u8], at: usize) -> bool {
    at < all.len() && stderr.write_all(&all[..at]).is_ok()
}

pub fn warn_errno(stderr: &impl Print, all: &[u8], at: usize, error: &Error) {
    if at < all.len() {
        fail(stderr, &all[..at], error);
    }
}

impl fmt::Write for Page<'_> {
    ghost write_str_gives = { λ before text after. (after.all.ghost_name ≡ before.all.ghost_name) × (shown after ≡ with_bytes (shown before) text) };

    fn write_str(&mut self, s: &str) -> fmt::Result {
        self.bytes(s.as_bytes());
        Ok(())
    }
}

fn hex_digit(d: u8) -> u8
    requires { d < 16 }
    ensures { result ≡ hex_digit_ascii d }
{
    match d {
        0..=9 => b'0' + d,
        _ => b'a' - 10 + d,
    }
}

// What stands after a backslash for a byte between these quotes; none where it needs no backslash.
#[tactic(auto, using(std::proofs::lemmas::Bool::Decides::nat_tests), unfolding(crate::specs::Page::letter_of))]
fn letter_of(b: u8, quote: u8) -> Option<u8>
    ensures { MatchOption result (letter_of quote b ≡ 0) (λ letter. (letter ≡ letter_of quote b) × (letter ≢ 0)) }
{
    if b == quote && b != 0 {
        return Some(b);
    }
    match b {
        b'\\' => Some(b),
        b'\n' => Some(b'n'),
        b'\r' => Some(b'r'),
        b'\t' => Some(b't'),
        _ => None,
    }
}

#[tactic(auto, using(std::proofs::lemmas::Bool::Decides::nat_tests), unfolding(crate::specs::Page::is_printable))]
fn is_printable(b: u8) -> bool
    ensures { result ≡ is_printable b }
{
    matches!(b, b' '..=b'~')
}

// An error's number stands behind the system's words for it.
const NUMBER: &[u8] = b" (os error ";

fn without_number(text: &[u8]) -> &[u8] {
    match text.windows(NUMBER.len()).position(|part| part == NUMBER) {
        Some(i) => &text[..i],
        None => text,
    }
}

// Writes a line: what failed, as the caller names it, a colon and why.
fn fail(stderr: &impl Print, what: &[u8], error: &Error) {
    let mut room = [0u8; 128];
    let mut words = Page::new(&mut room);
    let _ = write!(words, "{error}");
    let _ = stderr.write_all(what);
    let _ = stderr.write_all(b": ");
    let _ = stderr.write_all(without_number(words.written()));
    let _ = stderr.write_all(b"\n");
}
