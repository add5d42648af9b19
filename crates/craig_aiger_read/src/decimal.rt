//! A number as it is written.
ghost use Rattle.std.specs.Prelude.{◌≡◌, ◌^◌, ◌<◌, ◌≤◌, length, IsTrue, IfSome};
ghost use Rattle.std.specs.Char.{is_ascii_digit};
ghost use Rattle.std.specs.List.{list_all};
ghost use Rattle.std.specs.Str.Parse.{digits_value};
ghost use Rattle.craig_spec.specs.AigerReading.{number_in};

/// The number of 1 to 18 digits that the word writes. Leading zeros are allowed.
pub(crate) fn number_of(word: &[u8]) -> Option<u64>
    ensures value { result ≡ number_in word.now }
    ensures bound { IfSome result (λ number. number < 10 ^ 18) }
{
    if !word.is_empty() && word.len() <= 18 && are_digits(word) {
        Some(value_of(word))
    } else {
        None
    }
}

/// Whether each byte is a digit.
fn are_digits(word: &[u8]) -> bool
    ensures { result ≡ list_all is_ascii_digit word.now }
{
    word.iter().all(|byte| byte.is_ascii_digit())
}

/// The number that the digits write.
fn value_of(digits: &[u8]) -> u64
    requires digits { IsTrue (list_all is_ascii_digit digits.now) }
    requires short { length digits.now ≤ 18 }
    ensures value { result ≡ digits_value 10 digits.now }
    ensures bound { result < 10 ^ 18 }
{
    let mut value = 0;
    for digit in digits {
        value = value * 10 + u64::from(*digit - b'0');
    }
    value
}
