ghost use Rattle.std.specs.Prelude.{◌≡◌, ◌≤◌, ◌<◌, length, map, IfSome};
ghost use Rattle.std.specs.Str.{str_eq_ignore_ascii_case};
ghost use Rattle.eif_grammar.specs.Identifiers.{is_identifier, is_identifier_terminal};
ghost use Rattle.eif_grammar.specs.Lexemes as lexeme;
ghost use Rattle.eif_lex.specs.Rows.{listed_in_any_case};

use crate::fronts::{begins_with_letter, front, token, word_run};
use eif_grammar::{Piece, Terminal};

/// The words of the language and those that are left out, in lower case.
const WORDS: [(&[u8], Terminal); 62] = [
    (b"all", Terminal::All),
    (b"and", Terminal::And),
    (b"as", Terminal::As),
    (b"attached", Terminal::Attached),
    (b"check", Terminal::Check),
    (b"class", Terminal::Class),
    (b"create", Terminal::Create),
    (b"current", Terminal::Current),
    (b"deferred", Terminal::Deferred),
    (b"detachable", Terminal::Detachable),
    (b"do", Terminal::Do),
    (b"else", Terminal::Else),
    (b"elseif", Terminal::Elseif),
    (b"end", Terminal::End),
    (b"ensure", Terminal::Ensure),
    (b"export", Terminal::Export),
    (b"false", Terminal::False),
    (b"feature", Terminal::Feature),
    (b"from", Terminal::From),
    (b"if", Terminal::If),
    (b"implies", Terminal::Implies),
    (b"inherit", Terminal::Inherit),
    (b"invariant", Terminal::Invariant),
    (b"local", Terminal::Local),
    (b"loop", Terminal::Loop),
    (b"not", Terminal::Not),
    (b"note", Terminal::Note),
    (b"obsolete", Terminal::Obsolete),
    (b"or", Terminal::Or),
    (b"precursor", Terminal::Precursor),
    (b"redefine", Terminal::Redefine),
    (b"rename", Terminal::Rename),
    (b"require", Terminal::Require),
    (b"result", Terminal::Result),
    (b"select", Terminal::Select),
    (b"then", Terminal::Then),
    (b"true", Terminal::True),
    (b"undefine", Terminal::Undefine),
    (b"until", Terminal::Until),
    (b"variant", Terminal::Variant),
    (b"void", Terminal::Void),
    (b"xor", Terminal::Xor),
    (b"across", Terminal::LeftOutWord),
    (b"agent", Terminal::LeftOutWord),
    (b"alias", Terminal::LeftOutWord),
    (b"assign", Terminal::LeftOutWord),
    (b"attribute", Terminal::LeftOutWord),
    (b"convert", Terminal::LeftOutWord),
    (b"debug", Terminal::LeftOutWord),
    (b"expanded", Terminal::LeftOutWord),
    (b"external", Terminal::LeftOutWord),
    (b"frozen", Terminal::LeftOutWord),
    (b"inspect", Terminal::LeftOutWord),
    (b"like", Terminal::LeftOutWord),
    (b"old", Terminal::LeftOutWord),
    (b"once", Terminal::LeftOutWord),
    (b"only", Terminal::LeftOutWord),
    (b"rescue", Terminal::LeftOutWord),
    (b"retry", Terminal::LeftOutWord),
    (b"separate", Terminal::LeftOutWord),
    (b"tuple", Terminal::LeftOutWord),
    (b"when", Terminal::LeftOutWord),
];

fn is_same_word(a: &[u8], b: &[u8]) -> bool
    ensures { result ≡ str_eq_ignore_ascii_case a.now b.now }
{
    a.eq_ignore_ascii_case(b)
}

/// What the first row says that has the word, in any letter case.
fn look_up(mut rows: &[(&[u8], Terminal)], word: &[u8]) -> Option<Terminal>
    ensures { result ≡ listed_in_any_case (map (λ r. (r.0.now, r.1)) rows.entry.now) word.now }
{
    'rows: while let [row, rest @ ..] = rows {
        if is_same_word(row.0, word) {
            return Some(row.1);
        }
        rows = rest;
    }
    None
}

#[tactic(auto, using(crate::proofs::Rows::word_laws))]
pub fn word_terminal(word: &[u8]) -> Terminal
    ensures { result ≡ lexeme.word_terminal word.now }
{
    look_up(&WORDS, word).unwrap_or(Terminal::Identifier)
}

/// An identifier or a word.
pub fn word(text: &[u8]) -> Option<Piece>
    ensures value { result ≡ lexeme.word text.now }
    ensures some { IfSome result (λ p. 0 < p.len) }
    ensures within { IfSome result (λ p. p.len ≤ length text.now) }
{
    if !begins_with_letter(text) {
        return None;
    }
    let n = word_run(text);
    Some(token(word_terminal(front(text, n)), n))
}

fn is_identifier_terminal(terminal: Option<Terminal>) -> bool
    ensures { result ≡ is_identifier_terminal terminal }
{
    matches!(terminal, Some(Terminal::Identifier))
}

/// Whether the whole text is one identifier: a word of the language is none.
pub fn is_identifier(text: &[u8]) -> bool
    ensures { result ≡ is_identifier text.now }
{
    match word(text) {
        Some(piece) => is_identifier_terminal(piece.terminal) && piece.len == text.len(),
        None => false,
    }
}
