//! Decimal numbers of 1 to 20 digits in a text.

ghost use Rattle.std.specs.Prelude.{◌≡◌, ◌+◌, ◌*◌, ◌-◌, ◌^◌, ◌<◌, ◌≤◌, IfSome, IfNone};
ghost use Rattle.std.specs.Str.{all_ascii_digits};
ghost use Rattle.inc_bytes.specs.Decimals.{is_numeral, numeral_of};

/// The number that a word spells, where it is one and fits.
pub fn decimal_u32(word: &[u8]) -> Option<u32>
    ensures value { result ≡ numeral_of (2 ^ 32 - 1) word.now }
{
    let number = number_in(word, u64::from(u32::MAX))?;
    Some(number as u32)
}

/// The same for a number of 64 bits.
pub fn decimal_u64(word: &[u8]) -> Option<u64>
    ensures value { result ≡ numeral_of (2 ^ 64 - 1) word.now }
{
    number_in(word, u64::MAX)
}

/// The number that a word spells, where it is one and at most `most`.
#[tactic(auto, using(crate::proofs::Numerals::not_a_numeral, crate::proofs::Numerals::too_great))]
fn number_in(word: &[u8], most: u64) -> Option<u64>
    ensures value { result ≡ numeral_of most word.now }
    ensures most { IfSome result (λ number. number ≤ most) }
{
    if !is_numeral(word) {
        return None;
    }
    let mut value = 0;
    let mut rest = word;
    while let [digit, after @ ..] = rest {
        value = with_digit(value, *digit, most)?;
        rest = after;
    }
    Some(value)
}

/// The number with one more digit at its end, where it is at most `most`.
fn with_digit(value: u64, digit: u8, most: u64) -> Option<u64>
    ensures value { IfSome result (λ next. next ≡ 10 * value + (digit - 48)) }
    ensures most { IfSome result (λ next. next ≤ most) }
    ensures greater { IfNone result (most < 10 * value + (digit - 48)) }
{
    let units = u64::from(digit.saturating_sub(b'0'));
    let tens = value.checked_mul(10)?;
    let next = tens.checked_add(units)?;
    if next <= most { Some(next) } else { None }
}

fn is_numeral(word: &[u8]) -> bool
    ensures value { result ≡ is_numeral word.now }
{
    let some = word.len() >= 1;
    let short = word.len() <= 20;
    let digits = are_digits(word);
    some & short & digits
}

fn are_digits(word: &[u8]) -> bool
    ensures value { result ≡ all_ascii_digits word.now }
{
    let mut rest = word;
    while let [digit, after @ ..] = rest {
        if !digit.is_ascii_digit() {
            return false;
        }
        rest = after;
    }
    true
}
