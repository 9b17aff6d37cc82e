// Floats from the bits of one word, exactly: the word's top bits become the digits of a float of a known exponent, and one
// subtraction moves it to where it belongs. And any float as its bits and back.
ghost use Rattle.std.specs.Prelude.{◌≡◌, from_bits, to_bits};
ghost use Rattle.std.specs.Float.{binary64};
ghost use Rattle.words.specs.Floats as floats;

// The bits of 1.0. With 52 bits of a word added they are the bits of a float from 1 up to 2.
const ONE: u64 = 0x3ff0_0000_0000_0000;

// The bits of 2.0. With 52 bits of a word added they are the bits of a float from 2 up to 4.
const TWO: u64 = 0x4000_0000_0000_0000;

// The bits of the infinity. With the sign's bit taken off, what is above them are a NaN's.
const INFINITY: u64 = 0x7ff0_0000_0000_0000;

// k / 2^52 of the word's top 52 bits k.
pub fn unit(word: u64) -> f64
    ensures { result ≡ floats.unit word }
{
    f64::from_bits(ONE + (word >> 12)) - 1.0
}

// (k - 2^51) / 2^51 of the word's top 52 bits k.
pub fn symmetric_u(word: u64) -> f64
    ensures { result ≡ floats.symmetric_u word }
{
    f64::from_bits(TWO + (word >> 12)) - 3.0
}

// (2k + 1) / 2^53 of the word's top 52 bits k: what is taken off is 1 less 2^-53, the largest float below 1.
pub fn one_sided_u(word: u64) -> f64
    ensures { result ≡ floats.one_sided_u word }
{
    f64::from_bits(ONE + (word >> 12)) - 0.9999999999999999
}

// The bits of a float. The language has one NaN, so they are the same for each.
pub fn bits_of(x: f64) -> u64
    ensures { result ≡ to_bits binary64 x }
{
    if x.is_nan() {
        return 0x7ff8_0000_0000_0000;
    }
    x.to_bits()
}

// The float of any bits, a NaN's too.
pub fn float_of(bits: u64) -> f64
    ensures { result ≡ from_bits binary64 bits }
{
    if INFINITY < bits % 0x8000_0000_0000_0000 {
        return f64::NAN;
    }
    f64::from_bits(bits)
}
