//! Primaries: what chains of calls begin with.

ghost use Rattle.std.specs.Prelude.{◌≡◌, ◌≤◌, drop, length, IfOk};
ghost use Rattle.eif_tree.specs.Height as tall;
ghost use Rattle.eif_tree.specs.View.{expr_view};
ghost use Rattle.eif_grammar.specs.Goals as goal;
ghost use Rattle.eif_grammar.specs.Outcomes.{Calls};
ghost use Rattle.eif_grammar.specs.Spelling.{head};
ghost use Rattle.eif_grammar.specs.declared.terminal.Terminal.TheVariants as t;
ghost use Rattle.eif_parse_expr.specs.Readings.{Reads};

use crate::chains::{arguments, creator, precursor_rest};
use crate::expressions::expression;
use crate::leaves::leaf;
use crate::look::{after, expect, name_at, place_at};
use crate::parsed::{Parsed, PartError};
use crate::types::closed_type;
use eif_grammar::Terminal;
use eif_lex::Tokens;
use eif_tree::Expr;
use eif_tree::builders::{creation, paren, unqualified};
use std::alloc::Global;

/// A value, a call with no target, a creation, or an expression in parentheses.
#[cycle(expressions)]
pub fn primary(
    alloc: Global,
    tokens: &Tokens<'_>,
    from: u32,
    room: u32,
) -> Result<Parsed<Expr>, PartError>
    requires start { from ≤ length tokens.now.tokens }
    requires some { 1 ≤ room }
    ensures reads { Reads (Calls (goal.expression_goal (goal.primary room)) (drop from tokens.now.tokens)) expr_view tokens.now.tokens from result }
    ensures height { IfOk result (λ x. x.height ≡ tall.height (expr_view x.tree)) }
    ensures low { IfOk result (λ x. x.height ≤ room) }
{
    match tokens.next_terminal(from) {
        Terminal::Identifier => {
            let name = name_at(alloc, tokens, from)?;
            let args = arguments(alloc, tokens, after(tokens, from), room)?;
            Ok(Parsed {
                tree: unqualified(name.place, name.name, args.tree),
                next: args.next,
                height: args.height + 1,
            })
        }
        Terminal::Precursor => {
            let place = place_at(tokens, from);
            precursor_rest(alloc, tokens, after(tokens, from), room, place)
        }
        Terminal::OpenParenthesis => parenthesized(alloc, tokens, from, room),
        Terminal::Create => created(alloc, tokens, from, room),
        _ => leaf(alloc, tokens, from, room),
    }
}

/// An expression in parentheses.
#[cycle(expressions)]
fn parenthesized(
    alloc: Global,
    tokens: &Tokens<'_>,
    from: u32,
    room: u32,
) -> Result<Parsed<Expr>, PartError>
    requires start { from ≤ length tokens.now.tokens }
    requires some { 1 ≤ room }
    requires begins { head (drop from tokens.now.tokens) ≡ t.OpenParenthesis }
    ensures reads { Reads (Calls (goal.expression_goal (goal.primary room)) (drop from tokens.now.tokens)) expr_view tokens.now.tokens from result }
    ensures height { IfOk result (λ x. x.height ≡ tall.height (expr_view x.tree)) }
    ensures low { IfOk result (λ x. x.height ≤ room) }
{
    if room == 1 {
        return Err(PartError::At(from));
    }
    let inner = expression(alloc, tokens, after(tokens, from), room - 1, 1)?;
    let next = expect(tokens, inner.next, Terminal::CloseParenthesis)?;
    let tree = paren(alloc, place_at(tokens, from), inner.tree)?;
    Ok(Parsed {
        tree,
        next,
        height: inner.height + 1,
    })
}

/// A creation expression.
#[cycle(expressions)]
fn created(
    alloc: Global,
    tokens: &Tokens<'_>,
    from: u32,
    room: u32,
) -> Result<Parsed<Expr>, PartError>
    requires start { from ≤ length tokens.now.tokens }
    requires some { 1 ≤ room }
    requires begins { head (drop from tokens.now.tokens) ≡ t.Create }
    ensures reads { Reads (Calls (goal.expression_goal (goal.primary room)) (drop from tokens.now.tokens)) expr_view tokens.now.tokens from result }
    ensures height { IfOk result (λ x. x.height ≡ tall.height (expr_view x.tree)) }
    ensures low { IfOk result (λ x. x.height ≤ room) }
{
    if room == 1 {
        return Err(PartError::At(from));
    }
    let start = expect(tokens, after(tokens, from), Terminal::OpenBrace)?;
    let made = closed_type(alloc, tokens, start, room - 1)?;
    let call = creator(alloc, tokens, made.next, room)?;
    let height = made.height.max(call.height) + 1;
    let place = place_at(tokens, from);
    let rest = call.tree;
    Ok(Parsed {
        tree: creation(place, made.tree, rest.name, rest.args),
        next: call.next,
        height,
    })
}
