//! What single tokens are, by their numbers.

ghost use Rattle.std.specs.Prelude.{◌≡◌, ◌≢◌, drop, IfOk, IsTrue, ◌↔◌};
ghost use Rattle.eif_grammar.specs.Literals as literal;
ghost use Rattle.eif_grammar.specs.Reader.{name_of};
ghost use Rattle.eif_grammar.specs.Spelling.{head};
ghost use Rattle.eif_grammar.specs.declared.terminal.Terminal.TheVariants as t;
ghost use Rattle.eif_parse_expr.specs.Readings.{first, Taken, Takes, Finds};
ghost use Rattle.eif_parse_expr.specs.Subrules.{Names};

use crate::parsed::{Parsed, PartError};
use eif_base::{Bytes, Memory, Name, Place};
use eif_grammar::Terminal;
use eif_lex::{Tokens, character_value, string_value};
use eif_tree::NameAt;
use std::alloc::Global;

fn is_same(a: Terminal, b: Terminal) -> bool
    ensures { IsTrue result ↔ (a ≡ b) }
{
    a == b
}

/// Whether token `at` has that terminal.
pub fn is_at(tokens: &Tokens<'_>, at: u32, terminal: Terminal) -> bool
    ensures { IsTrue result ↔ (head (drop at tokens.now.tokens) ≡ terminal) }
{
    is_same(tokens.next_terminal(at), terminal)
}

/// Where token `at` begins.
pub fn place_at(tokens: &Tokens<'_>, at: u32) -> Place
    requires { head (drop at tokens.now.tokens) ≢ t.EndOfText }
    ensures { result ≡ (first (drop at tokens.now.tokens)).place }
{
    tokens.place(at)
}

/// The name that token `at` is.
pub(crate) fn name_at(alloc: Global, tokens: &Tokens<'_>, at: u32) -> Result<NameAt, Memory>
    requires { head (drop at tokens.now.tokens) ≢ t.EndOfText }
    ensures { IfOk result (λ n. n ≡ name_of (first (drop at tokens.now.tokens))) }
{
    Ok(NameAt {
        place: tokens.place(at),
        name: Name::from_bytes(alloc, tokens.text(at))?,
    })
}

/// The value of token `at`, an integer.
pub fn integer_at(tokens: &Tokens<'_>, at: u32) -> i64
    requires { head (drop at tokens.now.tokens) ≡ t.Integer }
    ensures { result ≡ literal.integer_value (first (drop at tokens.now.tokens)).text }
{
    tokens.integer(at)
}

/// The byte of token `at`, a character.
pub fn character_at(tokens: &Tokens<'_>, at: u32) -> u8
    requires { head (drop at tokens.now.tokens) ≢ t.EndOfText }
    ensures { result ≡ literal.character_value (first (drop at tokens.now.tokens)).text }
{
    character_value(tokens.text(at))
}

/// The bytes of token `at`, a string.
pub fn string_at(alloc: Global, tokens: &Tokens<'_>, at: u32) -> Result<Bytes, Memory>
    requires { head (drop at tokens.now.tokens) ≢ t.EndOfText }
    ensures { IfOk result (λ b. b ≡ literal.string_value (first (drop at tokens.now.tokens)).text) }
{
    string_value(alloc, tokens.text(at))
}

/// The number of the token behind token `at`.
pub fn after(tokens: &Tokens<'_>, at: u32) -> u32
    requires { head (drop at tokens.now.tokens) ≢ t.EndOfText }
    ensures { Taken (head (drop at tokens.now.tokens)) tokens.now.tokens at result }
{
    let _count = tokens.count();
    at + 1
}

/// The same, if token `at` has that terminal.
pub fn behind(tokens: &Tokens<'_>, at: u32, terminal: Terminal) -> Option<u32>
    requires { terminal ≢ t.EndOfText }
    ensures { Finds terminal tokens.now.tokens at result }
{
    if is_at(tokens, at, terminal) {
        Some(after(tokens, at))
    } else {
        None
    }
}

/// The same, where another terminal is refused.
pub fn expect(tokens: &Tokens<'_>, at: u32, terminal: Terminal) -> Result<u32, PartError>
    requires { terminal ≢ t.EndOfText }
    ensures { Takes terminal tokens.now.tokens at result }
{
    match behind(tokens, at, terminal) {
        Some(next) => Ok(next),
        None => Err(PartError::At(at)),
    }
}

/// The name that token `at` is, where another token is refused.
pub fn name_behind(alloc: Global, tokens: &Tokens<'_>, at: u32) -> Result<Parsed<NameAt>, PartError>
    ensures { Names tokens.now.tokens at result }
{
    let next = expect(tokens, at, Terminal::Identifier)?;
    let tree = name_at(alloc, tokens, at)?;
    Ok(Parsed {
        tree,
        next,
        height: 0,
    })
}
