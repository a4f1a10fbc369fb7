//! Numbers that are spelled by decimal digits.
ghost use Rattle.std.specs.Prelude.{◌≡◌, ◌^◌, nat_lt, if◌then◌else◌, Some, None, true};
ghost use Rattle.std.specs.Char.{is_ascii_digit};
ghost use Rattle.std.specs.List.{list_all};
ghost use Rattle.std.specs.Str.Parse.{digits_value};
ghost use Rattle.sis_reading.specs.Number.{is_plain, plain_number};

use crate::text_of;

fn all_digits(word: &[u8]) -> bool
    ensures { result ≡ list_all is_ascii_digit word.now }
{
    word.iter().all(|b| b.is_ascii_digit())
}

/// Whether a word is a number's one spelling: digits without a sign, and no zero before others.
pub fn is_plain_number(word: &[u8]) -> bool
    ensures { result ≡ is_plain word.now }
{
    match word {
        [] => false,
        [b'0', _, ..] => false,
        _ => all_digits(word),
    }
}

// The number that digits spell, unless it is too great.
fn value_of(word: &[u8]) -> Option<u64>
    requires { is_plain word.now ≡ true }
    ensures { result ≡ (if nat_lt (digits_value 10 word.now) (2 ^ 64)
        then Some (digits_value 10 word.now) else None) }
{
    match text_of(word) {
        Some(text) => text.parse::<u64>().ok(),
        None => None,
    }
}

/// The number below 2^64 whose one spelling a word is.
pub fn plain_number(word: &[u8]) -> Option<u64>
    ensures { result ≡ plain_number word.now }
{
    if is_plain_number(word) {
        value_of(word)
    } else {
        None
    }
}
