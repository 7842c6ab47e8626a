// Numbers in a line.
ghost use Rattle.std.specs.Prelude.{◌≡◌, ◌≤◌, Ok, Err, IfOk, MatchResult};
ghost use Rattle.logs.specs.Numbers.{with_digit, number_on, number_of, is_prefixed, number_in, numeral};

use crate::parts::word;
use crate::troubles::Expected;

// The number with one more digit, if it is one in the radix and the number has 64 bits.
#[tactic(auto, unfolding(crate::specs::Numbers::with_digit))]
fn with_digit(number: u64, radix: u32, digit: u8) -> Option<u64>
    requires low { 2 ≤ radix }
    requires high { radix ≤ 16 }
    ensures { result ≡ with_digit radix number digit }
{
    let digit = char::from(digit).to_digit(radix)?;
    number
        .checked_mul(u64::from(radix))?
        .checked_add(u64::from(digit))
}

// The number that the digits write; 0 where there are none.
#[tactic(auto, using(crate::proofs::Digits::one_more, crate::proofs::Digits::stops_there, crate::proofs::Digits::at_the_end))]
fn number_on(digits: &[u8], radix: u32) -> Option<u64>
    requires low { 2 ≤ radix }
    requires high { radix ≤ 16 }
    ensures { result ≡ number_on radix 0 digits.now }
{
    let mut number: u64 = 0;
    for digit in digits {
        number = with_digit(number, radix, *digit)?;
    }
    Some(number)
}

// The number that one digit or more write.
#[tactic(auto, unfolding(crate::specs::Numbers::number_of))]
fn number_of(digits: &[u8], radix: u32) -> Option<u64>
    requires low { 2 ≤ radix }
    requires high { radix ≤ 16 }
    ensures { result ≡ number_of radix digits.now }
{
    match digits {
        [] => None,
        _ => number_on(digits, radix),
    }
}

// 0x or 0X stands in front.
fn is_prefixed(word: &[u8]) -> bool
    ensures { result ≡ is_prefixed word.now }
{
    matches!(word, [b'0', b'x' | b'X', ..])
}

// The number that a word writes, in hexadecimal behind 0x, else in this radix.
#[tactic(auto, unfolding(crate::specs::Numbers::number_in))]
fn number_in(word: &[u8], radix: u32) -> Option<u64>
    requires low { 2 ≤ radix }
    requires high { radix ≤ 16 }
    ensures { result ≡ number_in radix word.now }
{
    if is_prefixed(word) {
        number_of(&word[2..], 16)
    } else {
        number_of(word, radix)
    }
}

// The number that the word after the blanks writes, and what follows the word.
#[tactic(auto, unfolding(crate::specs::Numbers::numeral))]
pub(crate) fn numeral(
    radix: u32,
    most: u64,
    expected: Expected,
    bytes: &[u8],
) -> Result<(u64, &[u8]), Expected>
    requires low { 2 ≤ radix }
    requires high { radix ≤ 16 }
    ensures said { MatchResult result
        (λ x. numeral radix most expected bytes.now ≡ Ok (x.0, x.1.now))
        (λ e. numeral radix most expected bytes.now ≡ Err e) }
    ensures within { IfOk result (λ x. x.0 ≤ most) }
{
    let (word, rest) = word(bytes);
    match number_in(word, radix) {
        Some(number) if number <= most => Ok((number, rest)),
        _ => Err(expected),
    }
}
