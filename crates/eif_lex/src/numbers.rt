ghost use Rattle.std.specs.Prelude.{◌≡◌, ◌≤◌, ◌<◌, ◌==◌, ◌||◌, if◌then◌else◌, length, min, drop, IfSome};
ghost use Rattle.eif_grammar.specs.Lexemes as lexeme;

use crate::fronts::{
    begins_in_word, begins_with, begins_with_digit, behind, digits_run, front, is_digit, token,
};
use eif_grammar::{Piece, Terminal};

/// One more than the largest integer.
pub const TOO_LARGE: u64 = 9_223_372_036_854_775_808;

/// The number of the digits, or `TOO_LARGE` where it is that large.
pub fn number_of(digits: &[u8]) -> u64
    ensures value { result ≡ min (lexeme.number_of digits.now) TOO_LARGE }
{
    let mut number: u64 = 0;
    'digits: for b in digits {
        if *b != b'_' {
            number = number
                .saturating_mul(10)
                .saturating_add(u64::from(b.saturating_sub(b'0')))
                .min(TOO_LARGE);
        }
    }
    number
}

/// The digits, with single underscores between digits.
fn digits_length(text: &[u8]) -> usize
    ensures value { result ≡ lexeme.digits_length text.now }
    ensures within { result ≤ length text.now }
{
    if begins_with_digit(text) {
        more_digits_length(behind(text, 1)) + 1
    } else {
        0
    }
}

/// The same behind a digit.
fn more_digits_length(text: &[u8]) -> usize
    ensures value { result ≡ lexeme.more_digits_length text.now }
    ensures within { result ≤ length text.now }
{
    let mut n = 0;
    'digits: while n < text.len()
        && (is_digit(text[n]) || (text[n] == b'_' && begins_with_digit(behind(text, n + 1))))
    {
        n += 1;
    }
    n
}

/// An integer literal.
pub fn integer(text: &[u8]) -> Option<Piece>
    ensures value { result ≡ lexeme.integer text.now }
    ensures some { IfSome result (λ p. 0 < p.len) }
    ensures within { IfSome result (λ p. p.len ≤ length text.now) }
{
    let n = digits_length(text);
    if 0 < n && number_of(front(text, n)) < TOO_LARGE && !begins_in_word(behind(text, n)) {
        Some(token(Terminal::Integer, n))
    } else {
        None
    }
}

/// Where the digits of an exponent begin, behind its letter and perhaps a sign.
fn exponent_digits(text: &[u8]) -> usize
    ensures { result ≡ (if lexeme.begins (λ b. b == 43 || b == 45) (drop 1 text.now) then 2 else 1) }
{
    match text {
        [_, b'+' | b'-', ..] => 2,
        _ => 1,
    }
}

fn begins_exponent(text: &[u8]) -> bool
    ensures { result ≡ lexeme.begins (λ b. b == 101 || b == 69) text.now }
{
    match text {
        [b'e' | b'E', ..] => true,
        _ => false,
    }
}

/// How many bytes of an exponent there are.
fn exponent_length(text: &[u8]) -> usize
    ensures value { result ≡ lexeme.exponent_length text.now }
    ensures within { result ≤ length text.now }
{
    let signed = exponent_digits(text);
    let n = digits_run(behind(text, signed));
    if begins_exponent(text) && 0 < n {
        signed + n
    } else {
        0
    }
}

/// A real literal.
pub fn real(text: &[u8]) -> Option<Piece>
    ensures value { result ≡ lexeme.real text.now }
    ensures some { IfSome result (λ p. 0 < p.len) }
    ensures within { IfSome result (λ p. p.len ≤ length text.now) }
{
    let n = digits_run(text);
    if n == 0 || !begins_with(behind(text, n), b'.') {
        return None;
    }
    let m = digits_run(behind(text, n + 1));
    if m == 0 {
        return None;
    }
    Some(token(
        Terminal::Real,
        n + 1 + m + exponent_length(behind(text, n + 1 + m)),
    ))
}
