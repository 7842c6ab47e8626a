// What a line begins with: blanks, words, signs.
ghost use Rattle.std.specs.Prelude.{◌≡◌, ◌≤◌, not, Ok, Err, MatchResult, IfSome, unwrap_or, length, take, drop};
ghost use Rattle.std.specs.List.{position};
ghost use Rattle.logs.specs.Parts.{is_blank, is_word_byte, after_blanks, word_in, behind_word, says, behind_sign, is_over};

use crate::troubles::Expected;

// Space, tab and carriage return.
fn is_blank(byte: u8) -> bool
    ensures { result ≡ is_blank byte }
{
    byte == b' ' || byte == b'\t' || byte == b'\r'
}

// Letters, digits and _.
fn is_word_byte(byte: u8) -> bool
    ensures { result ≡ is_word_byte byte }
{
    byte.is_ascii_alphanumeric() || byte == b'_'
}

// Where the blanks end.
fn blanks_end(bytes: &[u8]) -> Option<usize>
    ensures { result ≡ position (λ b. not (is_blank b)) bytes.now }
{
    bytes.iter().position(|b| !is_blank(*b))
}

// Where a word ends.
fn word_end(bytes: &[u8]) -> Option<usize>
    ensures { result ≡ position (λ b. not (is_word_byte b)) bytes.now }
{
    bytes.iter().position(|b| !is_word_byte(*b))
}

// The bytes before a place and those from it on; all are before, where there is none.
fn cut(bytes: &[u8], place: Option<usize>) -> (&[u8], &[u8])
    requires { IfSome place (λ k. k ≤ length bytes.now) }
    ensures front { result.0.now ≡ take (unwrap_or place (length bytes.now)) bytes.now }
    ensures back { result.1.now ≡ drop (unwrap_or place (length bytes.now)) bytes.now }
{
    bytes.split_at(place.unwrap_or(bytes.len()))
}

// The bytes from the first that is no blank on.
#[tactic(auto, using(crate::proofs::Places::first_place, crate::proofs::Places::place_within), unfolding(crate::specs::Parts::after_blanks))]
pub fn after_blanks(bytes: &[u8]) -> &[u8]
    ensures { result.now ≡ after_blanks bytes.now }
{
    cut(bytes, blanks_end(bytes)).1
}

// The word that the bytes begin with after blanks, as long as it goes, and what follows it.
#[tactic(auto, using(crate::proofs::Places::first_place, crate::proofs::Places::place_within), unfolding(crate::specs::Parts::word_in, crate::specs::Parts::behind_word))]
pub fn word(bytes: &[u8]) -> (&[u8], &[u8])
    ensures said { result.0.now ≡ word_in (after_blanks bytes.now) }
    ensures rest { result.1.now ≡ behind_word (after_blanks bytes.now) }
{
    let bytes = after_blanks(bytes);
    cut(bytes, word_end(bytes))
}

// The word says this name, in any case of letters.
pub fn says(word: &[u8], name: &[u8]) -> bool
    ensures { result ≡ says word.now name.now }
{
    word.eq_ignore_ascii_case(name)
}

// What follows a sign, with blanks before it.
#[tactic(auto, unfolding(crate::specs::Parts::behind_sign))]
pub fn behind_sign(sign: u8, expected: Expected, bytes: &[u8]) -> Result<&[u8], Expected>
    ensures { MatchResult result
        (λ rest. behind_sign sign expected bytes.now ≡ Ok rest.now)
        (λ e. behind_sign sign expected bytes.now ≡ Err e) }
{
    match after_blanks(bytes).split_first() {
        Some((first, rest)) if *first == sign => Ok(rest),
        _ => Err(expected),
    }
}

// Nothing follows but blanks and a comment.
#[tactic(auto, unfolding(crate::specs::Parts::is_over))]
pub fn is_over(bytes: &[u8]) -> bool
    ensures { result ≡ is_over bytes.now }
{
    match after_blanks(bytes).first() {
        Some(first) => *first == b'#',
        None => true,
    }
}
