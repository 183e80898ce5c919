// What a program is given: bytes of a file, and numbers in words.
#![tactic(auto)]

ghost use Rattle.std.specs.Prelude.{◌≤◌, ◌<◌, ◌^◌, ◌≡◌, length};
ghost use Rattle.std.specs.Option.{SomeIff};
ghost use Rattle.std.specs.Str.Parse.{IsNumeral, digits_value};

use std::io::Read;
use std::str;

// Reads until there is no room, the file ends or a read fails; how many bytes were read.
pub fn read_full(file: &mut impl Read, bytes: &mut [u8]) -> usize
    ensures { result ≤ length bytes.new }
{
    let mut done = 0;
    // A read gives any number of bytes, so that nothing counts the rounds.
    while done < bytes.len() {
        let Ok(n) = file.read(&mut bytes[done..]) else {
            return done;
        };
        if n == 0 {
            return done;
        }
        done += n;
    }
    done
}

// The number that a word's digits write, in decimal; none for any other word, and for a number that has no room in 64 bits.
pub fn number(word: &[u8]) -> Option<u64>
    ensures { SomeIff result (IsNumeral 10 word.now × (digits_value 10 word.now < 2 ^ 64)) (digits_value 10 word.now) }
{
    // The library's numbers may begin with a plus; ours have digits only.
    if word.starts_with(b"+") {
        return None;
    }
    let Ok(text) = str::from_utf8(word) else {
        return None;
    };
    text.parse().ok()
}
