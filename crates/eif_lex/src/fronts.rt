ghost use Rattle.std.specs.Prelude.{◌≡◌, ◌≤◌, ◌==◌, length, drop, take};
ghost use Rattle.eif_grammar.specs.Lexemes as lexeme;

use eif_grammar::{Piece, Terminal};

pub fn is_letter(b: u8) -> bool
    ensures { result ≡ lexeme.is_letter b }
{
    b.is_ascii_alphabetic()
}

pub fn is_digit(b: u8) -> bool
    ensures { result ≡ lexeme.is_digit b }
{
    b.is_ascii_digit()
}

pub fn in_word(b: u8) -> bool
    ensures { result ≡ lexeme.in_word b }
{
    is_letter(b) || is_digit(b) || b == b'_'
}

/// Whether the text begins with that byte.
pub fn begins_with(text: &[u8], byte: u8) -> bool
    ensures { result ≡ lexeme.begins (λ b. b == byte) text.now }
{
    match text {
        [b, ..] => *b == byte,
        [] => false,
    }
}

pub fn begins_with_digit(text: &[u8]) -> bool
    ensures { result ≡ lexeme.begins lexeme.is_digit text.now }
{
    match text {
        [b, ..] => is_digit(*b),
        [] => false,
    }
}

pub fn begins_with_letter(text: &[u8]) -> bool
    ensures { result ≡ lexeme.begins lexeme.is_letter text.now }
{
    match text {
        [b, ..] => is_letter(*b),
        [] => false,
    }
}

pub fn begins_in_word(text: &[u8]) -> bool
    ensures { result ≡ lexeme.begins lexeme.in_word text.now }
{
    match text {
        [b, ..] => in_word(*b),
        [] => false,
    }
}

/// The first n bytes, or all of them.
pub fn front(text: &[u8], n: usize) -> &[u8]
    ensures { result.now ≡ take n text.now }
{
    if n < text.len() { &text[..n] } else { text }
}

/// What is behind the first n bytes, if anything.
pub fn behind(text: &[u8], n: usize) -> &[u8]
    ensures { result.now ≡ drop n text.now }
{
    if n < text.len() { &text[n..] } else { &[] }
}

pub fn digits_run(text: &[u8]) -> usize
    ensures value { result ≡ lexeme.run_length lexeme.is_digit text.now }
    ensures within { result ≤ length text.now }
{
    let mut n = 0;
    'digits: while n < text.len() && is_digit(text[n]) {
        n += 1;
    }
    n
}

pub fn word_run(text: &[u8]) -> usize
    ensures value { result ≡ lexeme.run_length lexeme.in_word text.now }
    ensures within { result ≤ length text.now }
{
    let mut n = 0;
    'letters: while n < text.len() && in_word(text[n]) {
        n += 1;
    }
    n
}

pub fn gap(len: usize) -> Piece
    ensures { result ≡ lexeme.gap len }
{
    Piece {
        terminal: None,
        len,
    }
}

pub fn token(terminal: Terminal, len: usize) -> Piece
    ensures { result ≡ lexeme.token terminal len }
{
    Piece {
        terminal: Some(terminal),
        len,
    }
}
