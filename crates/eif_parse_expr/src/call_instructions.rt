//! Instructions that begin with a name, `Result`, `Precursor` or `Current`: calls and assignments.

ghost use Rattle.std.specs.Prelude.{◌≡◌, ◌≤◌, ◌<◌, drop, length, IfOk};
ghost use Rattle.eif_tree.specs.Height as tall;
ghost use Rattle.eif_tree.specs.View.{expr_view, instr_view};
ghost use Rattle.eif_grammar.specs.Goals as goal;
ghost use Rattle.eif_grammar.specs.InstructionRules as instruction;
ghost use Rattle.eif_grammar.specs.Outcomes.{Calls, Runs};
ghost use Rattle.eif_grammar.specs.Spelling.{head};
ghost use Rattle.eif_grammar.specs.declared.terminal.Terminal.TheVariants as t;
ghost use Rattle.eif_parse_expr.specs.Readings.{Reads};

use crate::chains::{arguments, dots, dotted, precursor_rest};
use crate::look::{after, is_at, name_at, place_at};
use crate::parsed::{Parsed, PartError};
use crate::targets::{assigned, result_name};
use eif_grammar::Terminal;
use eif_lex::Tokens;
use eif_tree::builders::{call, current_value, result_value, unqualified};
use eif_tree::{Expr, Instr};
use std::alloc::Global;

/// A call: its start, and the dots behind it.
fn called_on(
    alloc: Global,
    tokens: &Tokens<'_>,
    first: Parsed<Expr>,
    room: u32,
) -> Result<Parsed<Instr>, PartError>
    requires start { first.next ≤ length tokens.now.tokens }
    requires some { 1 < room }
    requires height { first.height ≡ tall.height (expr_view first.tree) }
    requires low { first.height < room }
    ensures reads { Reads (Runs (instruction.called_on room (expr_view first.tree)) (drop first.next tokens.now.tokens)) instr_view tokens.now.tokens first.next result }
    ensures height { IfOk result (λ x. x.height ≡ tall.instr_height (instr_view x.tree)) }
    ensures low { IfOk result (λ x. x.height ≤ room) }
{
    let whole = dots(alloc, tokens, first, room - 1)?;
    Ok(Parsed {
        tree: call(whole.tree),
        next: whole.next,
        height: whole.height + 1,
    })
}

/// The same, with at least one dot.
fn called_through(
    alloc: Global,
    tokens: &Tokens<'_>,
    first: Parsed<Expr>,
    room: u32,
) -> Result<Parsed<Instr>, PartError>
    requires start { first.next ≤ length tokens.now.tokens }
    requires some { 1 < room }
    requires height { first.height ≡ tall.height (expr_view first.tree) }
    requires low { first.height < room }
    ensures reads { Reads (Runs (instruction.called_through room (expr_view first.tree)) (drop first.next tokens.now.tokens)) instr_view tokens.now.tokens first.next result }
    ensures height { IfOk result (λ x. x.height ≡ tall.instr_height (instr_view x.tree)) }
    ensures low { IfOk result (λ x. x.height ≤ room) }
{
    let whole = dotted(alloc, tokens, first, room - 1)?;
    Ok(Parsed {
        tree: call(whole.tree),
        next: whole.next,
        height: whole.height + 1,
    })
}

/// An assignment or a call that begins with a name.
pub fn on_name(
    alloc: Global,
    tokens: &Tokens<'_>,
    from: u32,
    room: u32,
) -> Result<Parsed<Instr>, PartError>
    requires start { from ≤ length tokens.now.tokens }
    requires begins { head (drop from tokens.now.tokens) ≡ t.Identifier }
    ensures reads { Reads (Calls (goal.instruction_goal (goal.instruction room)) (drop from tokens.now.tokens)) instr_view tokens.now.tokens from result }
    ensures height { IfOk result (λ x. x.height ≡ tall.instr_height (instr_view x.tree)) }
    ensures low { IfOk result (λ x. x.height ≤ room) }
{
    if room <= 1 {
        return Err(PartError::At(from));
    }
    let name = name_at(alloc, tokens, from)?;
    let next = after(tokens, from);
    if is_at(tokens, next, Terminal::Assign) {
        return assigned(alloc, tokens, next, room, name);
    }
    let args = arguments(alloc, tokens, next, room - 1)?;
    let first = Parsed {
        tree: unqualified(name.place, name.name, args.tree),
        next: args.next,
        height: args.height + 1,
    };
    called_on(alloc, tokens, first, room)
}

/// An assignment to `Result`, or a call on it.
pub fn on_result(
    alloc: Global,
    tokens: &Tokens<'_>,
    from: u32,
    room: u32,
) -> Result<Parsed<Instr>, PartError>
    requires start { from ≤ length tokens.now.tokens }
    requires begins { head (drop from tokens.now.tokens) ≡ t.Result }
    ensures reads { Reads (Calls (goal.instruction_goal (goal.instruction room)) (drop from tokens.now.tokens)) instr_view tokens.now.tokens from result }
    ensures height { IfOk result (λ x. x.height ≡ tall.instr_height (instr_view x.tree)) }
    ensures low { IfOk result (λ x. x.height ≤ room) }
{
    if room <= 1 {
        return Err(PartError::At(from));
    }
    let place = place_at(tokens, from);
    let next = after(tokens, from);
    if is_at(tokens, next, Terminal::Assign) {
        let name = result_name(alloc, place)?;
        return assigned(alloc, tokens, next, room, name);
    }
    let first = Parsed {
        tree: result_value(place),
        next,
        height: 1,
    };
    called_through(alloc, tokens, first, room)
}

/// A call that begins with `Precursor`.
pub fn on_precursor(
    alloc: Global,
    tokens: &Tokens<'_>,
    from: u32,
    room: u32,
) -> Result<Parsed<Instr>, PartError>
    requires start { from ≤ length tokens.now.tokens }
    requires begins { head (drop from tokens.now.tokens) ≡ t.Precursor }
    ensures reads { Reads (Calls (goal.instruction_goal (goal.instruction room)) (drop from tokens.now.tokens)) instr_view tokens.now.tokens from result }
    ensures height { IfOk result (λ x. x.height ≡ tall.instr_height (instr_view x.tree)) }
    ensures low { IfOk result (λ x. x.height ≤ room) }
{
    if room <= 1 {
        return Err(PartError::At(from));
    }
    let place = place_at(tokens, from);
    let first = precursor_rest(alloc, tokens, after(tokens, from), room - 1, place)?;
    called_on(alloc, tokens, first, room)
}

/// A call on `Current`.
pub fn on_current(
    alloc: Global,
    tokens: &Tokens<'_>,
    from: u32,
    room: u32,
) -> Result<Parsed<Instr>, PartError>
    requires start { from ≤ length tokens.now.tokens }
    requires begins { head (drop from tokens.now.tokens) ≡ t.Current }
    ensures reads { Reads (Calls (goal.instruction_goal (goal.instruction room)) (drop from tokens.now.tokens)) instr_view tokens.now.tokens from result }
    ensures height { IfOk result (λ x. x.height ≡ tall.instr_height (instr_view x.tree)) }
    ensures low { IfOk result (λ x. x.height ≤ room) }
{
    if room <= 2 {
        return Err(PartError::At(from));
    }
    let first = Parsed {
        tree: current_value(place_at(tokens, from)),
        next: after(tokens, from),
        height: 1,
    };
    called_through(alloc, tokens, first, room)
}
