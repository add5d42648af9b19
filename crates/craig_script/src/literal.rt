//! Numbers and literals as they are written.

ghost use Rattle.std.specs.Prelude.{◌≡◌, ◌^◌, ◌<◌, ◌≤◌, length, IsTrue, IfSome};
ghost use Rattle.std.specs.Char.{is_ascii_digit};
ghost use Rattle.std.specs.List.{list_all};
ghost use Rattle.std.specs.Str.Parse.{digits_value};
ghost use Rattle.craig_script.specs.NumberWords.{is_number, number_of, unless_zero, literal_of, digit_limit};

/// The most digits of a number.
const DIGIT_LIMIT: usize = 18;

/// The literal that the word writes: a number other than 0, or a minus sign directly followed by one.
pub fn literal_in(word: &[u8]) -> Option<i64>
    ensures { result ≡ literal_of word.now }
{
    match word {
        [b'-', digits @ ..] => Some(-(nonzero_in(digits)? as i64)),
        _ => Some(nonzero_in(word)? as i64),
    }
}

/// The number that the word writes, where it isn't 0.
fn nonzero_in(word: &[u8]) -> Option<u64>
    ensures value { result ≡ unless_zero (number_of word.now) }
    ensures bound { IfSome result (λ number. number < 10 ^ digit_limit) }
{
    match number_in(word)? {
        0 => None,
        number => Some(number),
    }
}

/// The number that the word writes. It is below 10 ^ 18.
pub fn number_in(word: &[u8]) -> Option<u64>
    ensures value { result ≡ number_of word.now }
    ensures bound { IfSome result (λ number. number < 10 ^ digit_limit) }
{
    if writes_number(word) {
        Some(value_of(word))
    } else {
        None
    }
}

/// Whether the word is a number.
fn writes_number(word: &[u8]) -> bool
    ensures { result ≡ is_number word.now }
{
    !word.is_empty()
        && word.len() <= DIGIT_LIMIT
        && (word.len() == 1 || word[0] != b'0')
        && are_digits(word)
}

/// Whether each byte is a digit.
fn are_digits(word: &[u8]) -> bool
    ensures { result ≡ list_all is_ascii_digit word.now }
{
    word.iter().all(|byte| byte.is_ascii_digit())
}

/// The number that the digits write.
fn value_of(digits: &[u8]) -> u64
    requires digits { IsTrue (list_all is_ascii_digit digits.now) }
    requires short { length digits.now ≤ digit_limit }
    ensures value { result ≡ digits_value 10 digits.now }
    ensures bound { result < 10 ^ digit_limit }
{
    let mut value = 0;
    for digit in digits {
        value = value * 10 + u64::from(*digit - b'0');
    }
    value
}
