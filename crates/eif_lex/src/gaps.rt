ghost use Rattle.std.specs.Prelude.{◌≡◌, ◌≤◌, ◌<◌, length, IfSome};
ghost use Rattle.eif_grammar.specs.Lexemes as lexeme;

use crate::fronts::{begins_with, behind, gap};
use eif_grammar::Piece;

/// One blank.
pub fn blank(text: &[u8]) -> Option<Piece>
    ensures value { result ≡ lexeme.blank text.now }
    ensures some { IfSome result (λ p. 0 < p.len) }
    ensures within { IfSome result (λ p. p.len ≤ length text.now) }
{
    match text {
        [b' ' | b'\t' | b'\r' | b'\n', ..] => Some(gap(1)),
        _ => None,
    }
}

fn comment_run(text: &[u8]) -> usize
    ensures value { result ≡ lexeme.run_length lexeme.in_comment text.now }
    ensures within { result ≤ length text.now }
{
    let mut n = 0;
    'bytes: while n < text.len() && text[n] != b'\n' {
        n += 1;
    }
    n
}

/// A comment, without the line feed behind it.
pub fn comment(text: &[u8]) -> Option<Piece>
    ensures value { result ≡ lexeme.comment text.now }
    ensures some { IfSome result (λ p. 0 < p.len) }
    ensures within { IfSome result (λ p. p.len ≤ length text.now) }
{
    if begins_with(text, b'-') && begins_with(behind(text, 1), b'-') {
        Some(gap(comment_run(behind(text, 2)) + 2))
    } else {
        None
    }
}
