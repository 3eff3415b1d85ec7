//! Instructions, by recursive descent.

ghost use Rattle.std.specs.Prelude.{◌≡◌, ◌≤◌, drop, length, IfOk};
ghost use Rattle.eif_tree.specs.Height as tall;
ghost use Rattle.eif_tree.specs.View.{instr_view};
ghost use Rattle.eif_grammar.specs.Goals as goal;
ghost use Rattle.eif_grammar.specs.Outcomes.{Calls};
ghost use Rattle.eif_grammar.specs.Spelling.{head};
ghost use Rattle.eif_grammar.specs.declared.terminal.Terminal.TheVariants as t;
ghost use Rattle.eif_parse_expr.specs.Readings.{Reads};

use crate::branches::conditional;
use crate::call_instructions::{on_current, on_name, on_precursor, on_result};
use crate::claims::assertions;
use crate::look::{after, expect};
use crate::loops::repeated;
use crate::parsed::{Parsed, PartError};
use crate::targets::creation;
use eif_grammar::Terminal;
use eif_lex::Tokens;
use eif_tree::Instr;
use eif_tree::builders::check;
use std::alloc::Global;

/// An instruction.
#[cycle(instructions)]
pub fn instruction(
    alloc: Global,
    tokens: &Tokens<'_>,
    from: u32,
    room: u32,
) -> Result<Parsed<Instr>, PartError>
    requires start { from ≤ length tokens.now.tokens }
    requires some { 1 ≤ room }
    ensures reads { Reads (Calls (goal.instruction_goal (goal.instruction room)) (drop from tokens.now.tokens)) instr_view tokens.now.tokens from result }
    ensures height { IfOk result (λ x. x.height ≡ tall.instr_height (instr_view x.tree)) }
    ensures low { IfOk result (λ x. x.height ≤ room) }
{
    match tokens.next_terminal(from) {
        Terminal::Identifier => on_name(alloc, tokens, from, room),
        Terminal::Result => on_result(alloc, tokens, from, room),
        Terminal::Precursor => on_precursor(alloc, tokens, from, room),
        Terminal::Current => on_current(alloc, tokens, from, room),
        Terminal::Create => creation(alloc, tokens, from, room),
        Terminal::If => conditional(alloc, tokens, from, room),
        Terminal::From => repeated(alloc, tokens, from, room),
        Terminal::Check => checked(alloc, tokens, from, room),
        _ => Err(PartError::At(from)),
    }
}

/// A check of assertions.
fn checked(
    alloc: Global,
    tokens: &Tokens<'_>,
    from: u32,
    room: u32,
) -> Result<Parsed<Instr>, PartError>
    requires begins { head (drop from tokens.now.tokens) ≡ t.Check }
    requires some { 1 ≤ room }
    ensures reads { Reads (Calls (goal.instruction_goal (goal.instruction room)) (drop from tokens.now.tokens)) instr_view tokens.now.tokens from result }
    ensures height { IfOk result (λ x. x.height ≡ tall.instr_height (instr_view x.tree)) }
    ensures low { IfOk result (λ x. x.height ≤ room) }
{
    let claims = assertions(alloc, tokens, after(tokens, from), room - 1)?;
    let next = expect(tokens, claims.next, Terminal::End)?;
    Ok(Parsed {
        tree: check(claims.tree),
        next,
        height: claims.height + 1,
    })
}
