//! Operands: tests, chains of calls, and a sign or `not` before an operand.

ghost use Rattle.std.specs.Prelude.{◌≡◌, ◌≤◌, true, drop, length, IfOk};
ghost use Rattle.eif_tree.specs.Height as tall;
ghost use Rattle.eif_tree.specs.View.{expr_view};
ghost use Rattle.eif_grammar.specs.Goals as goal;
ghost use Rattle.eif_grammar.specs.Outcomes.{Calls};
ghost use Rattle.eif_grammar.specs.Spelling.{head};
ghost use Rattle.eif_parse_expr.specs.Readings.{Reads};
ghost use Rattle.eif_parse_expr.specs.Subrules as rule;

use crate::chains::chain;
use crate::look::{after, place_at};
use crate::object_tests::{TestHead, begins_test, test_head, test_local};
use crate::operators::prefix_operator;
use crate::parsed::{Parsed, PartError};
use eif_lex::Tokens;
use eif_tree::Expr;
use eif_tree::builders::{test, unary};
use std::alloc::Global;

/// An operand of a binary operator.
#[cycle(expressions)]
pub fn operand(
    alloc: Global,
    tokens: &Tokens<'_>,
    from: u32,
    room: u32,
) -> Result<Parsed<Expr>, PartError>
    requires start { from ≤ length tokens.now.tokens }
    requires some { 1 ≤ room }
    ensures reads { Reads (Calls (goal.expression_goal (goal.operand room)) (drop from tokens.now.tokens)) expr_view tokens.now.tokens from result }
    ensures height { IfOk result (λ x. x.height ≡ tall.height (expr_view x.tree)) }
    ensures low { IfOk result (λ x. x.height ≤ room) }
{
    let terminal = tokens.next_terminal(from);
    if begins_test(terminal) {
        return tested(alloc, tokens, from, room);
    }
    let Some(op) = prefix_operator(terminal) else {
        return chain(alloc, tokens, from, room);
    };
    if room == 1 {
        return Err(PartError::At(from));
    }
    let value = operand(alloc, tokens, after(tokens, from), room - 1)?;
    let tree = unary(alloc, place_at(tokens, from), op, value.tree)?;
    Ok(Parsed {
        tree,
        next: value.next,
        height: value.height + 1,
    })
}

/// An object test, in either spelling.
#[cycle(expressions)]
fn tested(
    alloc: Global,
    tokens: &Tokens<'_>,
    from: u32,
    room: u32,
) -> Result<Parsed<Expr>, PartError>
    requires start { from ≤ length tokens.now.tokens }
    requires some { 1 ≤ room }
    requires begins { rule.begins_test (head (drop from tokens.now.tokens)) ≡ true }
    ensures reads { Reads (Calls (goal.expression_goal (goal.operand room)) (drop from tokens.now.tokens)) expr_view tokens.now.tokens from result }
    ensures height { IfOk result (λ x. x.height ≡ tall.height (expr_view x.tree)) }
    ensures low { IfOk result (λ x. x.height ≤ room) }
{
    if room == 1 {
        return Err(PartError::At(from));
    }
    let head = test_head(alloc, tokens, from, room - 1)?;
    let value = chain(alloc, tokens, head.next, room - 1)?;
    let height = head.height.max(value.height) + 1;
    let TestHead {
        place,
        type_tree,
        local: named,
    } = head.tree;
    let local = test_local(alloc, tokens, value.next, named)?;
    let tree = test(alloc, place, type_tree, local.tree, value.tree)?;
    Ok(Parsed {
        tree,
        next: local.next,
        height,
    })
}
