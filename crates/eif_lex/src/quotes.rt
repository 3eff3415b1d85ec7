ghost use Rattle.std.specs.Prelude.{◌≡◌, ◌≤◌, ◌<◌, ◌+◌, length, IfSome};
ghost use Rattle.std.specs.Option.{option_map};
ghost use Rattle.eif_grammar.specs.Lexemes as lexeme;
ghost use Rattle.eif_lex.specs.Items.{escape_of, string_item};

use crate::fronts::{begins_with, behind, digits_run, front, token};
use crate::numbers::number_of;
use eif_grammar::{Piece, Terminal};

/// A byte that a literal holds, and how many bytes of the text stand for it.
#[derive(Clone, Copy)]
pub struct Item {
    pub byte: u8,
    pub len: usize,
}

fn escaped(c: u8) -> Option<u8>
    ensures { result ≡ lexeme.escaped c }
{
    match c {
        b'N' => Some(10),
        b'T' => Some(9),
        b'R' => Some(13),
        b'U' => Some(0),
        b'B' => Some(8),
        b'F' => Some(12),
        b'A' => Some(b'@'),
        b'C' => Some(b'^'),
        b'D' => Some(b'$'),
        b'H' => Some(b'\\'),
        b'L' => Some(b'~'),
        b'Q' => Some(b'`'),
        b'S' => Some(b'#'),
        b'V' => Some(b'|'),
        b'%' => Some(b'%'),
        b'\'' => Some(b'\''),
        b'"' => Some(b'"'),
        b'(' => Some(b'['),
        b')' => Some(b']'),
        b'<' => Some(b'{'),
        b'>' => Some(b'}'),
        _ => None,
    }
}

/// The item of `%/` and what is behind it.
fn numbered(text: &[u8]) -> Option<Item>
    ensures value { option_map escape_of result ≡ lexeme.numbered text.now }
    ensures some { IfSome result (λ e. 0 < e.len) }
    ensures within { IfSome result (λ e. e.len ≤ length text.now + 2) }
{
    let n = digits_run(text);
    let byte = number_of(front(text, n));
    if 0 < n && byte <= 255 && begins_with(behind(text, n), b'/') {
        Some(Item {
            byte: byte as u8,
            len: n + 3,
        })
    } else {
        None
    }
}

/// The escape at the front.
pub fn escape(text: &[u8]) -> Option<Item>
    ensures value { option_map escape_of result ≡ lexeme.escape text.now }
    ensures some { IfSome result (λ e. 0 < e.len) }
    ensures within { IfSome result (λ e. e.len ≤ length text.now) }
{
    match text {
        [b'%', b'/', rest @ ..] => numbered(rest),
        [b'%', c, ..] => Some(Item {
            byte: escaped(*c)?,
            len: 2,
        }),
        _ => None,
    }
}

fn is_plain(b: u8) -> bool
    ensures { result ≡ lexeme.is_plain b }
{
    b' ' <= b && b <= b'~' && b != b'%' && b != b'\''
}

/// The plain byte or the escape at the front.
pub fn character_item(text: &[u8]) -> Option<Item>
    ensures value { option_map escape_of result ≡ lexeme.character_item text.now }
    ensures some { IfSome result (λ e. 0 < e.len) }
    ensures within { IfSome result (λ e. e.len ≤ length text.now) }
{
    match text {
        [b, ..] if is_plain(*b) => Some(Item { byte: *b, len: 1 }),
        _ => escape(text),
    }
}

/// A character literal.
pub fn character(text: &[u8]) -> Option<Piece>
    ensures value { result ≡ lexeme.character text.now }
    ensures some { IfSome result (λ p. 0 < p.len) }
    ensures within { IfSome result (λ p. p.len ≤ length text.now) }
{
    if !begins_with(text, b'\'') {
        return None;
    }
    let item = character_item(behind(text, 1))?;
    if begins_with(behind(text, item.len + 1), b'\'') {
        Some(token(Terminal::Character, item.len + 2))
    } else {
        None
    }
}

/// How many bytes the item of a string at the front has: an escape, or one other byte.
fn string_item(text: &[u8]) -> Option<usize>
    ensures value { result ≡ string_item text.now }
    ensures some { IfSome result (λ n. 0 < n) }
    ensures within { IfSome result (λ n. n ≤ length text.now) }
{
    match text {
        [b'"' | b'\n', ..] => None,
        [b'%', ..] => Some(escape(text)?.len),
        [_, ..] => Some(1),
        [] => None,
    }
}

/// How many bytes there are up to and with the closing quote.
fn quote_length(text: &[u8]) -> Option<usize>
    ensures value { result ≡ lexeme.quote_length 0 text.now }
    ensures within { IfSome result (λ n. n ≤ length text.now) }
{
    let mut n = 0;
    'items: while let Some(len) = string_item(behind(text, n)) {
        n += len;
    }
    if begins_with(behind(text, n), b'"') {
        Some(n + 1)
    } else {
        None
    }
}

/// A string literal.
pub fn string(text: &[u8]) -> Option<Piece>
    ensures value { result ≡ lexeme.string text.now }
    ensures some { IfSome result (λ p. 0 < p.len) }
    ensures within { IfSome result (λ p. p.len ≤ length text.now) }
{
    if !begins_with(text, b'"') {
        return None;
    }
    let n = quote_length(behind(text, 1))?;
    Some(token(Terminal::StringText, n + 1))
}

/// Whether blanks and a line feed stand at the front.
fn ends_line(mut text: &[u8]) -> bool
    ensures { result ≡ lexeme.ends_line text.entry.now }
{
    'blanks: while let [b' ' | b'\t' | b'\r', rest @ ..] = text {
        text = rest;
    }
    begins_with(text, b'\n')
}

/// Whether the rest of a line opens a verbatim string.
fn opens_verbatim(mut text: &[u8]) -> bool
    ensures { result ≡ lexeme.opens_verbatim text.entry.now }
{
    'bytes: while let [b, rest @ ..] = text {
        if (*b == b'[' || *b == b'{') && ends_line(rest) {
            return true;
        }
        if *b == b'"' || *b == b'%' || *b == b'\n' {
            return false;
        }
        text = rest;
    }
    false
}

/// A verbatim string: all of the text.
pub fn verbatim(text: &[u8]) -> Option<Piece>
    ensures value { result ≡ lexeme.verbatim text.now }
    ensures some { IfSome result (λ p. 0 < p.len) }
    ensures within { IfSome result (λ p. p.len ≤ length text.now) }
{
    if begins_with(text, b'"') && opens_verbatim(behind(text, 1)) {
        Some(token(Terminal::Verbatim, text.len()))
    } else {
        None
    }
}
