ghost use Rattle.std.specs.Prelude.{◌≡◌, ◌≤◌, ◌<◌, length, map, IfSome};
ghost use Rattle.eif_grammar.specs.Lexemes as lexeme;

use crate::fronts::token;
use crate::piece::longer;
use eif_grammar::{Piece, Terminal};

/// The symbols of the language and those that are left out.
const SYMBOLS: [(&[u8], Terminal); 37] = [
    (b"(", Terminal::OpenParenthesis),
    (b")", Terminal::CloseParenthesis),
    (b"[", Terminal::OpenBracket),
    (b"]", Terminal::CloseBracket),
    (b"{", Terminal::OpenBrace),
    (b"}", Terminal::CloseBrace),
    (b",", Terminal::Comma),
    (b";", Terminal::Semicolon),
    (b":", Terminal::Colon),
    (b".", Terminal::Dot),
    (b":=", Terminal::Assign),
    (b"=", Terminal::Equal),
    (b"/=", Terminal::NotEqual),
    (b"<", Terminal::Less),
    (b">", Terminal::Greater),
    (b"<=", Terminal::LessEqual),
    (b">=", Terminal::GreaterEqual),
    (b"+", Terminal::Plus),
    (b"-", Terminal::Minus),
    (b"*", Terminal::Times),
    (b"//", Terminal::Divide),
    (b"\\\\", Terminal::Modulo),
    (b"^", Terminal::Power),
    (b"?", Terminal::Question),
    (b"!", Terminal::Exclamation),
    (b"->", Terminal::Arrow),
    (b"/", Terminal::LeftOutSymbol),
    (b"~", Terminal::LeftOutSymbol),
    (b"/~", Terminal::LeftOutSymbol),
    (b"<<", Terminal::LeftOutSymbol),
    (b">>", Terminal::LeftOutSymbol),
    (b"..", Terminal::LeftOutSymbol),
    (b"$", Terminal::LeftOutSymbol),
    (b"@", Terminal::LeftOutSymbol),
    (b"#", Terminal::LeftOutSymbol),
    (b"&", Terminal::LeftOutSymbol),
    (b"|", Terminal::LeftOutSymbol),
];

/// The longest row with which the text begins.
fn longest_row(rows: &[(&[u8], Terminal)], text: &[u8]) -> Option<Piece>
    ensures { result ≡ lexeme.longest_row (map (λ r. (r.0.now, r.1)) rows.now) text.now }
{
    let mut longest = None;
    let mut i = rows.len();
    'rows: while 0 < i {
        i -= 1;
        let (symbol, terminal) = rows[i];
        if text.starts_with(symbol) {
            longest = longer(Some(token(terminal, symbol.len())), longest);
        }
    }
    longest
}

/// The longest symbol.
pub fn symbol(text: &[u8]) -> Option<Piece>
    ensures value { result ≡ lexeme.symbol text.now }
    ensures some { IfSome result (λ p. 0 < p.len) }
    ensures within { IfSome result (λ p. p.len ≤ length text.now) }
{
    match text {
        [b, ..] if b"()[]{},;:.=/<>+-*\\^?!~$@#&|".contains(b) => longest_row(&SYMBOLS, text),
        _ => None,
    }
}
