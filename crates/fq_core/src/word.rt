// Words that are written in decimal.
ghost use Rattle.std.specs.Prelude.{◌≡◌, ◌+◌, ◌*◌, ◌<◌, ◌^◌, pos, neg_ℤ, IsTrue};
ghost use Rattle.std.specs.Option.{SomeIff};
ghost use Rattle.std.specs.Str.Parse.{digits_value};
ghost use Rattle.std.specs.Char.{digit_value, is_ascii_digit};
ghost use Rattle.std.specs.List.{list_all};
ghost use Rattle.fq_core.specs.Word.{is_digits, word_of_number, word_of_text};

/// What a text says as a word, a number of 64 bits.
#[derive(Clone, Copy, Debug, PartialEq, Eq)]
pub enum WordText {
    /// A decimal number from -2^63 to 2^64 - 1, modulo 2^64.
    Number(u64),
    /// It isn't an optional `-` and one or more decimal digits.
    NotNumber,
    /// A decimal number outside -2^63 to 2^64 - 1.
    OutOfRange,
}

fn each_digit(text: &[u8]) -> bool
    ensures { result ≡ list_all is_ascii_digit text.now }
{
    text.iter().all(|byte| byte.is_ascii_digit())
}

fn all_digits(text: &[u8]) -> bool
    ensures { result ≡ is_digits text.now }
{
    text.len() > 0 && each_digit(text)
}

// The number with one more digit, where it is below 2^64.
fn with_digit(value: u64, digit: u8) -> Option<u64>
    requires { IsTrue (is_ascii_digit digit) }
    ensures { SomeIff result (value * 10 + digit_value digit < 2 ^ 64) (value * 10 + digit_value digit) }
{
    value.checked_mul(10)?.checked_add((digit - b'0') as u64)
}

// The number that the digits write, where it is below 2^64.
fn natural(digits: &[u8]) -> Option<u64>
    requires { IsTrue (is_digits digits.now) }
    ensures { SomeIff result (digits_value 10 digits.now < 2 ^ 64) (digits_value 10 digits.now) }
{
    let mut value = 0;
    for digit in digits {
        match with_digit(value, *digit) {
            Some(next) => value = next,
            None => return None,
        }
    }
    Some(value)
}

fn positive(digits: &[u8]) -> WordText
    requires { IsTrue (is_digits digits.now) }
    ensures { result ≡ word_of_number (pos (digits_value 10 digits.now)) }
{
    match natural(digits) {
        Some(value) => WordText::Number(value),
        None => WordText::OutOfRange,
    }
}

fn negative(digits: &[u8]) -> WordText
    requires { IsTrue (is_digits digits.now) }
    ensures { result ≡ word_of_number (neg_ℤ (pos (digits_value 10 digits.now))) }
{
    match natural(digits) {
        Some(value) if value <= 1 << 63 => WordText::Number(value.wrapping_neg()),
        _ => WordText::OutOfRange,
    }
}

/// Reads a word: an optional `-` and one or more decimal digits, leading zeros included. It takes no memory.
pub fn word_of(text: &[u8]) -> WordText
    ensures { result ≡ word_of_text text.now }
{
    match text {
        [b'-', digits @ ..] if all_digits(digits) => negative(digits),
        _ if all_digits(text) => positive(text),
        _ => WordText::NotNumber,
    }
}
