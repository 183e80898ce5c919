// An i64 in decimal, as Rust's `{}` prints it.
ghost use Rattle.std.specs.Prelude.{◌≡◌, ◌-◌, ◌≤◌, length};
ghost use Rattle.std.proofs.lemmas.List.Edits.{sets};
ghost use Rattle.numbers.specs.Decimal.{digits_of, decimal_of, put_of, end_of};

// A `while`, since nothing is walked: how many digits there are shows only as the rest shrinks.
fn digits_len(n: u64) -> usize
    ensures { (result ≡ length (digits_of n)) × (result ≤ 20) }
{
    let mut len = 1;
    let mut rest = n;
    while rest >= 10 {
        rest /= 10;
        len += 1;
    }
    len
}

pub fn decimal_len(x: i64) -> usize
    ensures { (result ≡ length (decimal_of x)) × (result ≤ 20) }
{
    let digits = digits_len(x.unsigned_abs());
    if x >= 0 {
        return digits;
    }
    digits + 1
}

// Puts the digits of n just before `end`, the last one first. A `while` as above: it ends where no digit is left.
fn put_digits(out: &mut [u8], end: usize, n: u64)
    requires { (length (digits_of n) ≤ end) × (end ≤ length out.old) }
    ensures { out.new ≡ sets out.old (end - length (digits_of n)) (digits_of n) }
{
    let mut at = end - 1;
    let mut rest = n;
    while rest >= 10 {
        out[at] = b'0' + (rest % 10) as u8;
        rest /= 10;
        at -= 1;
    }
    out[at] = b'0' + rest as u8;
}

// Puts x at `at` and gives the end, or changes nothing where it has no room.
pub fn put_decimal(out: &mut [u8], at: usize, x: i64) -> Option<usize>
    ensures end { result ≡ end_of out.old at (decimal_of x) }
    ensures bytes { out.new ≡ put_of out.old at (decimal_of x) }
{
    let len = decimal_len(x);
    if out.len() < len {
        return None;
    }
    if out.len() - len < at {
        return None;
    }
    let end = at + len;
    put_digits(out, end, x.unsigned_abs());
    if x < 0 {
        out[at] = b'-';
    }
    Some(end)
}
