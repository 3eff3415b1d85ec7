ghost use Rattle.std.specs.Prelude.{◌≡◌, ◌≤◌, ◌<◌, length, IfSome};
ghost use Rattle.eif_grammar.specs.Lexemes as lexeme;

use crate::gaps::{blank, comment};
use crate::numbers::{integer, real};
use crate::quotes::{character, string, verbatim};
use crate::symbols::symbol;
use crate::words::word;
use eif_grammar::Piece;

/// The longer of two pieces, or the first where they are as long.
pub fn longer(p: Option<Piece>, q: Option<Piece>) -> Option<Piece>
    ensures { result ≡ lexeme.longer p q }
{
    match (p, q) {
        (None, q) => q,
        (Some(p), None) => Some(p),
        (Some(p), Some(q)) => Some(if p.len < q.len { q } else { p }),
    }
}

/// The longest blank, comment or token at the front.
pub fn first_piece(text: &[u8]) -> Option<Piece>
    ensures value { result ≡ lexeme.piece text.now }
    ensures some { IfSome result (λ p. 0 < p.len) }
    ensures within { IfSome result (λ p. p.len ≤ length text.now) }
{
    let quoted = longer(
        character(text),
        longer(string(text), longer(verbatim(text), symbol(text))),
    );
    let tokens = longer(
        word(text),
        longer(integer(text), longer(real(text), quoted)),
    );
    longer(blank(text), longer(comment(text), tokens))
}
