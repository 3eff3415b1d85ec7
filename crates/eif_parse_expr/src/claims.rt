//! Assertions: the claims of contracts, loops and checks.

ghost use Rattle.std.specs.Prelude.{◌≡◌, ◌≤◌, drop, length, IfOk};
ghost use Rattle.std.specs.Option.{option_map};
ghost use Rattle.eif_tree.specs.Height as tall;
ghost use Rattle.eif_tree.specs.View.{expr_view};
ghost use Rattle.eif_grammar.specs.Forms as form;
ghost use Rattle.eif_grammar.specs.Goals as goal;
ghost use Rattle.eif_grammar.specs.Outcomes.{Calls, got};
ghost use Rattle.eif_parse_expr.specs.InstructionSubrules.{assertions_view};
ghost use Rattle.eif_parse_expr.specs.Readings.{Leaves, Reads};

use crate::expressions::expression;
use crate::look::behind;
use crate::parsed::{Parsed, PartError};
use eif_grammar::Terminal;
use eif_lex::Tokens;
use eif_tree::builders::written_assertion;
use eif_tree::{Assertion, Expr};
use std::alloc::Global;

fn begins_expression(terminal: Terminal) -> bool
    ensures { result ≡ form.begins_expression terminal }
{
    match terminal {
        Terminal::Identifier
        | Terminal::Precursor
        | Terminal::Integer
        | Terminal::Character
        | Terminal::StringText
        | Terminal::True
        | Terminal::False
        | Terminal::Void
        | Terminal::Current
        | Terminal::Result
        | Terminal::OpenParenthesis
        | Terminal::Create
        | Terminal::OpenBrace
        | Terminal::Attached
        | Terminal::Not
        | Terminal::Plus
        | Terminal::Minus => true,
        _ => false,
    }
}

/// The number of the token behind all `;` that stand there.
pub fn semis(tokens: &Tokens<'_>, from: u32) -> u32
    requires { from ≤ length tokens.now.tokens }
    ensures { Leaves (Calls (goal.instruction_goal goal.semis) (drop from tokens.now.tokens)) tokens.now.tokens from result (got tt) }
{
    let mut next = from;
    'semicolons: while let Some(start) = behind(tokens, next, Terminal::Semicolon) {
        next = start;
    }
    next
}

/// One assertion, with or without a tag.
pub fn assertion(
    alloc: Global,
    tokens: &Tokens<'_>,
    from: u32,
    room: u32,
) -> Result<Parsed<Expr>, PartError>
    requires start { from ≤ length tokens.now.tokens }
    requires some { 1 ≤ room }
    ensures reads { Reads (Calls (goal.instruction_goal (goal.assertion room)) (drop from tokens.now.tokens)) expr_view tokens.now.tokens from result }
    ensures height { IfOk result (λ x. x.height ≡ tall.height (expr_view x.tree)) }
    ensures low { IfOk result (λ x. x.height ≤ room) }
{
    let Some(start) = behind(tokens, from, Terminal::Identifier) else {
        return expression(alloc, tokens, from, room, 1);
    };
    let Some(start) = behind(tokens, start, Terminal::Colon) else {
        return expression(alloc, tokens, from, room, 1);
    };
    expression(alloc, tokens, start, room, 1)
}

/// All assertions that stand there. Their height is that of the highest.
pub fn assertions(
    alloc: Global,
    tokens: &Tokens<'_>,
    from: u32,
    room: u32,
) -> Result<Parsed<Vec<Assertion>>, PartError>
    requires start { from ≤ length tokens.now.tokens }
    ensures reads { Reads (Calls (goal.instruction_goal (goal.assertions room)) (drop from tokens.now.tokens)) assertions_view tokens.now.tokens from result }
    ensures height { IfOk result (λ x. x.height ≡ tall.heights (assertions_view x.tree)) }
    ensures low { IfOk result (λ x. x.height ≤ room) }
{
    let mut tree = Vec::new(alloc);
    let mut next = from;
    let mut height = 0;
    'claims: while begins_expression(tokens.next_terminal(next)) {
        if room == 0 {
            return Err(PartError::At(next));
        }
        let one = assertion(alloc, tokens, next, room)?;
        height = one.height.max(height);
        tree.push(written_assertion(one.tree))?;
        next = semis(tokens, one.next);
    }
    Ok(Parsed { tree, next, height })
}

/// The assertions behind `invariant`, if it stands there.
pub fn invariants(
    alloc: Global,
    tokens: &Tokens<'_>,
    from: u32,
    room: u32,
) -> Result<Parsed<Vec<Assertion>>, PartError>
    requires start { from ≤ length tokens.now.tokens }
    ensures reads { Reads (Calls (goal.instruction_goal (goal.invariants room)) (drop from tokens.now.tokens)) assertions_view tokens.now.tokens from result }
    ensures height { IfOk result (λ x. x.height ≡ tall.heights (assertions_view x.tree)) }
    ensures low { IfOk result (λ x. x.height ≤ room) }
{
    let Some(start) = behind(tokens, from, Terminal::Invariant) else {
        return Ok(Parsed {
            tree: Vec::new(alloc),
            next: from,
            height: 0,
        });
    };
    assertions(alloc, tokens, start, room)
}

/// The variant of a loop, if it stands there.
pub fn variant(
    alloc: Global,
    tokens: &Tokens<'_>,
    from: u32,
    room: u32,
) -> Result<Parsed<Option<Expr>>, PartError>
    requires start { from ≤ length tokens.now.tokens }
    requires some { 1 ≤ room }
    ensures reads { Reads (Calls (goal.instruction_goal (goal.variant room)) (drop from tokens.now.tokens)) (option_map expr_view) tokens.now.tokens from result }
    ensures height { IfOk result (λ x. x.height ≡ tall.maybe_height (option_map expr_view x.tree)) }
    ensures low { IfOk result (λ x. x.height ≤ room) }
{
    let Some(start) = behind(tokens, from, Terminal::Variant) else {
        return Ok(Parsed {
            tree: None,
            next: from,
            height: 0,
        });
    };
    let value = assertion(alloc, tokens, start, room)?;
    Ok(Parsed {
        tree: Some(value.tree),
        next: semis(tokens, value.next),
        height: value.height,
    })
}
