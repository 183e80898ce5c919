// Runs utf8::is_utf8 at the edges of each row of RFC 3629's table and of the parts of a slice, and writes a line for each try: 1 where
// the answer is yes, 0 where it is no, and what was tried.
#![tactic(auto)]

ghost use Rattle.std.specs.Prelude.{◌≤◌, length};

use std::io;
use utf8::{is_utf8, stops_of};

fn part(rt: &impl Print, label: &str, bytes: &[u8], from: usize, to: usize) -> io::Result<()>
    requires { length bytes.now ≤ 65535 }
{
    let answer = is_utf8(bytes, &stops_of(bytes), from, to);
    println!(rt; "{} {label}", u8::from(answer))
}

fn whole(rt: &impl Print, label: &str, bytes: &[u8]) -> io::Result<()>
    requires { length bytes.now ≤ 65535 }
{
    part(rt, label, bytes, 0, bytes.len())
}

// UTF8-1 and UTF8-2.
// The functions list tries and nothing else: what they would share is `whole` and `part`.
fn one_and_two(rt: &impl Print) -> io::Result<()> {
    whole(rt, "no bytes", b"")?;
    whole(rt, "00 and 7F", b"\x00\x7F")?;
    whole(rt, "80, a tail alone", b"\x80")?;
    whole(rt, "C0 80, overlong", b"\xC0\x80")?;
    whole(rt, "C1 BF, overlong", b"\xC1\xBF")?;
    whole(rt, "C2 80 and DF BF", b"\xC2\x80\xDF\xBF")?;
    whole(rt, "C2 7F, no tail", b"\xC2\x7F")?;
    whole(rt, "C2 C0, no tail", b"\xC2\xC0")?;
    whole(rt, "DF, cut", b"a\xDF")
}

// UTF8-3.
fn three(rt: &impl Print) -> io::Result<()> {
    whole(rt, "E0 9F BF, overlong", b"\xE0\x9F\xBF")?;
    whole(rt, "E0 A0 80 and E0 BF BF", b"\xE0\xA0\x80\xE0\xBF\xBF")?;
    whole(rt, "E1 80 80 and EC BF BF", b"\xE1\x80\x80\xEC\xBF\xBF")?;
    whole(rt, "ED 80 80 and ED 9F BF", b"\xED\x80\x80\xED\x9F\xBF")?;
    whole(rt, "ED A0 80, a surrogate", b"\xED\xA0\x80")?;
    whole(rt, "ED BF BF, a surrogate", b"\xED\xBF\xBF")?;
    whole(rt, "EE 80 80 and EF BF BF", b"\xEE\x80\x80\xEF\xBF\xBF")?;
    whole(rt, "E2 82 C0, no tail", b"\xE2\x82\xC0")?;
    whole(rt, "E2 82, cut", b"\xE2\x82")
}

// UTF8-4, and the bytes that start no character.
fn four(rt: &impl Print) -> io::Result<()> {
    whole(rt, "F0 8F BF BF, overlong", b"\xF0\x8F\xBF\xBF")?;
    whole(
        rt,
        "F0 90 80 80 and F0 BF BF BF",
        b"\xF0\x90\x80\x80\xF0\xBF\xBF\xBF",
    )?;
    whole(
        rt,
        "F1 80 80 80 and F3 BF BF BF",
        b"\xF1\x80\x80\x80\xF3\xBF\xBF\xBF",
    )?;
    whole(
        rt,
        "F4 80 80 80 and F4 8F BF BF",
        b"\xF4\x80\x80\x80\xF4\x8F\xBF\xBF",
    )?;
    whole(rt, "F4 90 80 80, above 10FFFF", b"\xF4\x90\x80\x80")?;
    whole(rt, "F0 9F 98 7F, no tail", b"\xF0\x9F\x98\x7F")?;
    whole(rt, "F0 9F 98, cut", b"\xF0\x9F\x98")?;
    whole(rt, "F5 80 80 80", b"\xF5\x80\x80\x80")?;
    whole(rt, "FF", b"\xFF")
}

// Parts of C3 A9 61 80: a character of two bytes, one of one byte, and a tail alone.
fn parts(rt: &impl Print) -> io::Result<()> {
    let bytes = b"\xC3\xA9\x61\x80";
    part(rt, "from 0 to 3", bytes, 0, 3)?;
    part(rt, "from 0 to 1, cut", bytes, 0, 1)?;
    part(rt, "from 1 to 3, in a character", bytes, 1, 3)?;
    part(rt, "from 2 to 3", bytes, 2, 3)?;
    part(rt, "from 2 to 4", bytes, 2, 4)?;
    part(rt, "from 2 to 9, past the end", bytes, 2, 9)?;
    part(rt, "from 3 to 3", bytes, 3, 3)?;
    part(rt, "from 3 to 1", bytes, 3, 1)?;
    part(rt, "from 4 to 9", bytes, 4, 9)?;
    part(rt, "from 9 to 9", bytes, 9, 9)?;
    part(rt, "from 9 to 0", bytes, 9, 0)?;
    part(rt, "from 0 to the last usize", b"a\xC3\xA9", 0, usize::MAX)
}

// Parts of 200 bytes: a character of four bytes over the end of the first block of 64, and a tail alone where the third one starts.
fn blocks(rt: &impl Print) -> io::Result<()> {
    let mut bytes = [b'a'; 200];
    bytes[62] = 0xF0;
    bytes[63] = 0x9F;
    bytes[64] = 0x98;
    bytes[65] = 0x80;
    bytes[128] = 0x80;
    part(rt, "over a block's end", &bytes, 0, 128)?;
    part(rt, "cut at a block's end", &bytes, 0, 64)?;
    part(rt, "cut past a block's end", &bytes, 0, 65)?;
    part(rt, "up to past a block's end", &bytes, 0, 66)?;
    part(rt, "from a block's start, in a character", &bytes, 64, 128)?;
    part(rt, "from past a block's start", &bytes, 66, 128)?;
    part(
        rt,
        "with a block's first byte, a tail alone",
        &bytes,
        66,
        129,
    )?;
    part(rt, "from a tail alone", &bytes, 128, 129)?;
    part(rt, "past a tail alone", &bytes, 129, 200)
}

fn main(rt: HostRuntime) -> io::Result<()> {
    one_and_two(&rt)?;
    three(&rt)?;
    four(&rt)?;
    parts(&rt)?;
    blocks(&rt)
}
