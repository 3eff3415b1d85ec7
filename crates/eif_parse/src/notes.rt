//! Literals, notes and obsolete parts. Of the last two nothing is kept.

ghost use Rattle.std.specs.Prelude.{◌≡◌, ◌≢◌, ◌≤◌, drop, length, IfOk};
ghost use Rattle.eif_grammar.specs.Goals as goal;
ghost use Rattle.eif_grammar.specs.Outcomes.{Calls, Runs};
ghost use Rattle.eif_grammar.specs.Spelling.{head};
ghost use Rattle.eif_grammar.specs.declared.terminal.Terminal.TheVariants as t;
ghost use Rattle.eif_parse.specs.ClassSubrules as rule;
ghost use Rattle.eif_parse_expr.specs.Readings.{first, Reads};

use eif_base::Memory;
use eif_grammar::Terminal;
use eif_lex::Tokens;
use eif_parse_expr::look::{after, behind, character_at, expect, integer_at, string_at};
use eif_parse_expr::{Parsed, PartError, semis};
use eif_tree::Literal;
use std::alloc::Global;

/// The literal that token `at` is, if it is one.
fn literal_at(alloc: Global, tokens: &Tokens<'_>, at: u32) -> Result<Option<Literal>, Memory>
    ensures { IfOk result (λ l. l ≡ rule.literal_value (head (drop at tokens.now.tokens)) (first (drop at tokens.now.tokens))) }
{
    Ok(match tokens.next_terminal(at) {
        Terminal::Integer => Some(Literal::Int(integer_at(tokens, at))),
        Terminal::Character => Some(Literal::Char(character_at(tokens, at))),
        Terminal::StringText => Some(Literal::Text(string_at(alloc, tokens, at)?)),
        Terminal::True => Some(Literal::Bool(true)),
        Terminal::False => Some(Literal::Bool(false)),
        _ => None,
    })
}

/// A literal without a sign.
fn unsigned(alloc: Global, tokens: &Tokens<'_>, from: u32) -> Result<Parsed<Literal>, PartError>
    requires start { from ≤ length tokens.now.tokens }
    requires no_plus { head (drop from tokens.now.tokens) ≢ t.Plus }
    requires no_minus { head (drop from tokens.now.tokens) ≢ t.Minus }
    ensures { Reads (Calls (goal.class_goal goal.literal) (drop from tokens.now.tokens)) (λ l. l) tokens.now.tokens from result }
{
    match literal_at(alloc, tokens, from)? {
        Some(tree) => Ok(Parsed {
            tree,
            next: after(tokens, from),
            height: 0,
        }),
        None => Err(PartError::At(from)),
    }
}

/// A literal. A sign may stand before an integer.
pub fn literal(alloc: Global, tokens: &Tokens<'_>, from: u32) -> Result<Parsed<Literal>, PartError>
    requires { from ≤ length tokens.now.tokens }
    ensures { Reads (Calls (goal.class_goal goal.literal) (drop from tokens.now.tokens)) (λ l. l) tokens.now.tokens from result }
{
    if let Some(start) = behind(tokens, from, Terminal::Plus) {
        let next = expect(tokens, start, Terminal::Integer)?;
        let tree = Literal::Int(integer_at(tokens, start));
        return Ok(Parsed {
            tree,
            next,
            height: 0,
        });
    }
    if let Some(start) = behind(tokens, from, Terminal::Minus) {
        let next = expect(tokens, start, Terminal::Integer)?;
        let tree = Literal::Int(-integer_at(tokens, start));
        return Ok(Parsed {
            tree,
            next,
            height: 0,
        });
    }
    unsigned(alloc, tokens, from)
}

/// What a note says: a name or a literal.
fn note_item(alloc: Global, tokens: &Tokens<'_>, from: u32) -> Result<Parsed<()>, PartError>
    requires { from ≤ length tokens.now.tokens }
    ensures { Reads (Calls (goal.class_goal goal.note_item) (drop from tokens.now.tokens)) (λ x. x) tokens.now.tokens from result }
{
    let next = match behind(tokens, from, Terminal::Identifier) {
        Some(next) => next,
        None => literal(alloc, tokens, from)?.next,
    };
    Ok(Parsed {
        tree: (),
        next,
        height: 0,
    })
}

/// One item or more, with commas between.
fn note_items(alloc: Global, tokens: &Tokens<'_>, from: u32) -> Result<Parsed<()>, PartError>
    requires { from ≤ length tokens.now.tokens }
    ensures { Reads (Runs rule.note_items (drop from tokens.now.tokens)) (λ x. x) tokens.now.tokens from result }
{
    let mut next = from;
    'items: loop {
        next = note_item(alloc, tokens, next)?.next;
        let Some(start) = behind(tokens, next, Terminal::Comma) else {
            return Ok(Parsed {
                tree: (),
                next,
                height: 0,
            });
        };
        next = start;
    }
}

/// All notes that stand there.
fn note_entries(alloc: Global, tokens: &Tokens<'_>, from: u32) -> Result<Parsed<()>, PartError>
    requires { from ≤ length tokens.now.tokens }
    ensures { Reads (Calls (goal.class_goal goal.note_entries) (drop from tokens.now.tokens)) (λ x. x) tokens.now.tokens from result }
{
    let mut next = from;
    'entries: while let Some(colon) = behind(tokens, next, Terminal::Identifier) {
        let start = expect(tokens, colon, Terminal::Colon)?;
        let items = note_items(alloc, tokens, start)?;
        next = semis(tokens, items.next);
    }
    Ok(Parsed {
        tree: (),
        next,
        height: 0,
    })
}

/// The part that `note` begins, if it stands there.
pub fn notes(alloc: Global, tokens: &Tokens<'_>, from: u32) -> Result<Parsed<()>, PartError>
    requires { from ≤ length tokens.now.tokens }
    ensures { Reads (Calls (goal.class_goal goal.notes) (drop from tokens.now.tokens)) (λ x. x) tokens.now.tokens from result }
{
    match behind(tokens, from, Terminal::Note) {
        Some(start) => note_entries(alloc, tokens, start),
        None => Ok(Parsed {
            tree: (),
            next: from,
            height: 0,
        }),
    }
}

/// The part that `obsolete` begins, if it stands there.
pub fn obsolete(tokens: &Tokens<'_>, from: u32) -> Result<Parsed<()>, PartError>
    requires { from ≤ length tokens.now.tokens }
    ensures { Reads (Calls (goal.class_goal goal.obsolete) (drop from tokens.now.tokens)) (λ x. x) tokens.now.tokens from result }
{
    let next = match behind(tokens, from, Terminal::Obsolete) {
        Some(start) => expect(tokens, start, Terminal::StringText)?,
        None => from,
    };
    Ok(Parsed {
        tree: (),
        next,
        height: 0,
    })
}
