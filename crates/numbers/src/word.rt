// An i64 and an f64 as a word of 64 bits, and back. They are functions, and no `From`, since each says by its contract which word it is.
ghost use Rattle.std.specs.Prelude.{◌≡◌};
ghost use Rattle.numbers.specs.Words.{word_of, int_of};
ghost use Rattle.numbers.specs.Floats.{float_word_of, float_of};

pub fn int_to_word(x: i64) -> u64
    ensures { result ≡ word_of x }
{
    x.cast_unsigned()
}

pub fn word_to_int(w: u64) -> i64
    ensures { result ≡ int_of w }
{
    w.cast_signed()
}

// The language gives no bits for a NaN.
#[tactic(auto, unfolding(crate::specs::Floats::float_word_of))]
pub fn float_to_word(x: f64) -> u64
    ensures { result ≡ float_word_of x }
{
    if x.is_nan() {
        return 0x7ff8_0000_0000_0000;
    }
    x.to_bits()
}

// An infinity's pattern, the sign aside.
const INFINITY: u64 = 0x7ff0_0000_0000_0000;

// The patterns above an infinity's, the sign aside, are those of a NaN.
pub fn word_to_float(w: u64) -> f64
    ensures { result ≡ float_of w }
{
    if w % 0x8000_0000_0000_0000 > INFINITY {
        return f64::NAN;
    }
    f64::from_bits(w)
}
