// Digits and numbers: the marks and the number that a text gives. Nothing here reads or prints.
#![tactic(auto)]

ghost use Rattle.std.specs.Prelude.{◌≡◌, true, false, not, ◌+◌, ◌*◌, ◌<◌, length};
ghost use Rattle.lists.specs.Lists.{some};
ghost use Rattle.numerals.specs.Digits.{base, no_digit, MarksOf, number_to, in_word, NumberOf};

const ZERO: u8 = b'0';

// Digits are decimal.
const BASE: u64 = 10;

// Whether every byte of the text is a digit.
fn is_digits(text: &[u8]) -> bool
    ensures { result ≡ not (some (length text.now) (no_digit text.now)) }
{
    text.iter().all(|c| c.is_ascii_digit())
}

// The marks that a text of digits gives, in its place.
fn convert(text: &mut [u8])
    requires { some (length text.old) (no_digit text.old) ≡ false }
    ensures { MarksOf text.old text.new true }
{
    for j in 0..text.len() {
        text[j] -= ZERO;
    }
}

// The marks that a text of digits gives, in its place; false, and no byte written, where a byte is no digit.
pub fn to_marks(text: &mut [u8]) -> bool
    ensures { MarksOf text.old text.new result }
{
    if is_digits(text) {
        convert(text);
        return true;
    }
    false
}

// The number n with one digit more, or the greatest of 64 bits where it passes that.
fn with_digit(n: u64, digit: u8) -> u64
    requires { digit < base }
    ensures { result ≡ in_word (base * n + digit) }
{
    n.saturating_mul(BASE).saturating_add(digit as u64)
}

// The number that a text of digits gives.
fn value_of(text: &[u8]) -> u64
    requires { some (length text.now) (no_digit text.now) ≡ false }
    ensures { result ≡ in_word (number_to text.now (length text.now)) }
{
    let mut n: u64 = 0;
    for c in text {
        n = with_digit(n, c - ZERO);
    }
    n
}

// The number that a text gives; an empty text is none, nor is one with a byte that is no digit.
pub fn to_number(text: &[u8]) -> Option<u64>
    ensures { NumberOf text.now result }
{
    if text.is_empty() || !is_digits(text) {
        return None;
    }
    Some(value_of(text))
}
