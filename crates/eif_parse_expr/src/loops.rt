//! Loops: what is done first, invariants, the exit, the body, and a variant.

ghost use Rattle.std.specs.Prelude.{◌≡◌, ◌≤◌, drop, length, IfOk};
ghost use Rattle.eif_tree.specs.Height as tall;
ghost use Rattle.eif_tree.specs.View.{instr_view};
ghost use Rattle.eif_grammar.specs.Goals as goal;
ghost use Rattle.eif_grammar.specs.Outcomes.{Calls};
ghost use Rattle.eif_grammar.specs.Spelling.{head};
ghost use Rattle.eif_grammar.specs.declared.terminal.Terminal.TheVariants as t;
ghost use Rattle.eif_parse_expr.specs.Readings.{Reads};

use crate::claims::{invariants, variant};
use crate::compounds::compound;
use crate::expressions::expression;
use crate::look::{after, expect};
use crate::parsed::{Parsed, PartError};
use eif_grammar::Terminal;
use eif_lex::Tokens;
use eif_tree::Instr;
use eif_tree::builders::written_loop;
use std::alloc::Global;

/// A loop.
#[cycle(instructions)]
pub fn repeated(
    alloc: Global,
    tokens: &Tokens<'_>,
    from: u32,
    room: u32,
) -> Result<Parsed<Instr>, PartError>
    requires start { from ≤ length tokens.now.tokens }
    requires begins { head (drop from tokens.now.tokens) ≡ t.From }
    requires some { 1 ≤ room }
    ensures reads { Reads (Calls (goal.instruction_goal (goal.instruction room)) (drop from tokens.now.tokens)) instr_view tokens.now.tokens from result }
    ensures height { IfOk result (λ x. x.height ≡ tall.instr_height (instr_view x.tree)) }
    ensures low { IfOk result (λ x. x.height ≤ room) }
{
    if room == 1 {
        return Err(PartError::At(from));
    }
    let start = compound(alloc, tokens, after(tokens, from), room - 1)?;
    let claims = invariants(alloc, tokens, start.next, room - 1)?;
    let until = expect(tokens, claims.next, Terminal::Until)?;
    let exit = expression(alloc, tokens, until, room - 1, 1)?;
    let inner = expect(tokens, exit.next, Terminal::Loop)?;
    let body = compound(alloc, tokens, inner, room - 1)?;
    let bound = variant(alloc, tokens, body.next, room - 1)?;
    let next = expect(tokens, bound.next, Terminal::End)?;
    let before = start.height.max(claims.height);
    let within = exit.height.max(body.height).max(bound.height);
    Ok(Parsed {
        tree: written_loop(start.tree, claims.tree, exit.tree, body.tree, bound.tree),
        next,
        height: before.max(within) + 1,
    })
}
