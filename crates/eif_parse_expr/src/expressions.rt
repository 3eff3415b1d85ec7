//! Expressions, by recursive descent.

ghost use Rattle.std.specs.Prelude.{◌≡◌, ◌≤◌, drop, length, IfOk};
ghost use Rattle.eif_tree.specs.Height as tall;
ghost use Rattle.eif_tree.specs.View.{expr_view};
ghost use Rattle.eif_grammar.specs.Goals as goal;
ghost use Rattle.eif_grammar.specs.Outcomes.{Calls};
ghost use Rattle.eif_parse_expr.specs.Readings.{Reads};

use crate::operands::operand;
use crate::operators::{operator_at, right_level, sign_at};
use crate::parsed::{Parsed, PartError};
use eif_lex::Tokens;
use eif_tree::builders::binary;
use eif_tree::{Expr, place_of};
use std::alloc::Global;

/// An expression whose operators are of that level and above: 1 for any.
#[cycle(expressions)]
pub fn expression(
    alloc: Global,
    tokens: &Tokens<'_>,
    from: u32,
    room: u32,
    least: u32,
) -> Result<Parsed<Expr>, PartError>
    requires start { from ≤ length tokens.now.tokens }
    requires some { 1 ≤ room }
    ensures reads { Reads (Calls (goal.expression_goal (goal.expression room least)) (drop from tokens.now.tokens)) expr_view tokens.now.tokens from result }
    ensures height { IfOk result (λ x. x.height ≡ tall.height (expr_view x.tree)) }
    ensures low { IfOk result (λ x. x.height ≤ room) }
{
    let mut left = operand(alloc, tokens, from, room)?;
    'signs: loop {
        let Some(first) = operator_at(tokens, left.next, least) else {
            return Ok(left);
        };
        if left.height >= room {
            return Err(PartError::At(left.next));
        }
        let sign = sign_at(tokens, left.next, first);
        let right_least = right_level(sign.tree.op);
        let right = expression(alloc, tokens, sign.next, room - 1, right_least)?;
        let height = left.height.max(right.height) + 1;
        let place = place_of(&left.tree);
        let tree = binary(
            alloc,
            place,
            sign.tree.op,
            sign.tree.place,
            left.tree,
            right.tree,
        )?;
        left = Parsed {
            tree,
            next: right.next,
            height,
        };
    }
}
