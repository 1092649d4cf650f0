// The digits of a number that is read.
ghost use Rattle.std.specs.Prelude.{◌≡◌, ltb, ◌+◌, ◌*◌, ◌^◌, ◌<◌};
ghost use Rattle.text.specs.Numbers.{digit_of, base_of, complete};

// The form of a field is this, or the number of its hexadecimal digits. A number and no enum: the definitions `right`, `complete` and
// `values_of`, by which `restore` and `drill_lines` are defined, take it so.
pub const DECIMAL: u8 = 10;

const NO_DIGIT: u8 = 16;

const LARGEST: u64 = 18446744073709551615;

// The value of a digit, and 16 for any other byte. No Option: `digit_of`, by which `restore` and `drill_lines` are defined, answers 16.
#[tactic(auto, using(crate::specs::laws::DigitCases::digit_cases))]
pub fn digit(byte: u8) -> u8
    ensures { result ≡ digit_of byte }
{
    match byte {
        b'0'..=b'9' => byte - 48,
        b'a'..=b'f' => byte - 87,
        _ => NO_DIGIT,
    }
}

pub fn base(form: u8) -> u8
    ensures { (result ≡ base_of form) × (0 < result) }
{
    if form == DECIMAL { 10 } else { 16 }
}

// Whether a field with so many digits is a number of its form.
pub fn complete(form: u8, digits: usize) -> bool
    ensures { result ≡ complete form digits }
{
    if form == DECIMAL {
        return 0 < digits;
    }
    digits == form as usize
}

// Whether the number with one digit more is below 2^64.
pub fn fits(value: u64, base: u8, digit: u8) -> bool
    requires { 0 < base }
    ensures { result ≡ ltb (value * base + digit) (2 ^ 64) }
{
    value <= (LARGEST - digit as u64) / base as u64
}

// The number with one digit more.
pub fn appended(value: u64, base: u8, digit: u8) -> u64
    requires { value * base + digit < 2 ^ 64 }
    ensures { result ≡ value * base + digit }
{
    value * base as u64 + digit as u64
}
