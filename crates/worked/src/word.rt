// The words of a line: one blank stands between two of them.
ghost use Rattle.std.specs.Prelude.{◌≡◌, ◌<◌, ◌≤◌, length, IfSome};
ghost use Rattle.std.specs.List.{slice_get};
ghost use Rattle.std.specs.Option.{option_map};
ghost use Rattle.worked.specs.Words.{words_of};

// Word n of the line, from 0 on.
pub fn word(line: &[u8], n: usize) -> Option<&[u8]>
    ensures part { option_map (λ w. w.now) result ≡ slice_get (words_of line.now) n }
    ensures within { IfSome result (λ w. length w.now ≤ length line.now) }
{
    line.split(|b| *b == b' ').nth(n)
}

fn hex_digit(b: u8) -> Option<u8>
    ensures { IfSome result (λ d. d < 16) }
{
    match b {
        b'0'..=b'9' => Some(b - b'0'),
        b'a'..=b'f' => Some(b - b'a' + 10),
        _ => None,
    }
}

// The bytes of a word in hexadecimal, and how many they are; none where they have no room or the word is no such.
fn bytes_of(word: &[u8], bytes: &mut [u8]) -> Option<usize>
    ensures { IfSome result (λ n. n ≤ length bytes.new) }
{
    let length = word.len() / 2;
    if word.len() % 2 == 1 || bytes.len() < length {
        return None;
    }
    for (byte, pair) in bytes.iter_mut().zip(word.chunks_exact(2)) {
        *byte = hex_digit(pair[0])? * 16 + hex_digit(pair[1])?;
    }
    Some(length)
}

// The bytes of a word in hexadecimal; a word that begins with `-` has none.
pub fn bytes(word: &[u8], bytes: &mut [u8]) -> Option<usize>
    ensures { IfSome result (λ n. n ≤ length bytes.new) }
{
    match word.first() {
        None => None,
        Some(b'-') => Some(0),
        Some(_) => bytes_of(word, bytes),
    }
}
