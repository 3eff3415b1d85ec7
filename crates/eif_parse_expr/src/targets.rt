//! Targets, and the assignments and creations that give them a value.

ghost use Rattle.std.specs.Prelude.{◌≡◌, ◌≤◌, ◌<◌, drop, length, IfOk, codes};
ghost use Rattle.std.specs.Option.{option_map};
ghost use Rattle.eif_tree.specs.Height as tall;
ghost use Rattle.eif_tree.specs.View.{instr_view, type_view};
ghost use Rattle.eif_grammar.specs.Goals as goal;
ghost use Rattle.eif_grammar.specs.InstructionRules as instruction;
ghost use Rattle.eif_grammar.specs.Outcomes.{Calls, Runs};
ghost use Rattle.eif_grammar.specs.Spelling.{head};
ghost use Rattle.eif_grammar.specs.declared.terminal.Terminal.TheVariants as t;
ghost use Rattle.eif_parse_expr.specs.Readings.{Reads};

use crate::chains::creator;
use crate::expressions::expression;
use crate::look::{after, behind, name_behind, place_at};
use crate::parsed::{Parsed, PartError};
use crate::types::closed_type;
use eif_base::{Memory, Name, Place};
use eif_grammar::Terminal;
use eif_lex::Tokens;
use eif_tree::builders::{assign, create};
use eif_tree::{Instr, NameAt, TypeTree};
use std::alloc::Global;

/// The name `result`, for a `Result` at that place.
pub fn result_name(alloc: Global, place: Place) -> Result<NameAt, Memory>
    ensures { IfOk result (λ n. n ≡ record { place = place; name = codes "result" }) }
{
    Ok(NameAt {
        place,
        name: Name::from_bytes(alloc, b"result")?,
    })
}

/// A name or `Result`, to which a value is given.
fn target(alloc: Global, tokens: &Tokens<'_>, from: u32) -> Result<Parsed<NameAt>, PartError>
    requires { from ≤ length tokens.now.tokens }
    ensures { Reads (Calls (goal.instruction_goal goal.target) (drop from tokens.now.tokens)) (λ n. n) tokens.now.tokens from result }
{
    let Some(next) = behind(tokens, from, Terminal::Result) else {
        return name_behind(alloc, tokens, from);
    };
    Ok(Parsed {
        tree: result_name(alloc, place_at(tokens, from))?,
        next,
        height: 0,
    })
}

/// The rest of an assignment to that target, from its `:=` on.
pub fn assigned(
    alloc: Global,
    tokens: &Tokens<'_>,
    from: u32,
    room: u32,
    target: NameAt,
) -> Result<Parsed<Instr>, PartError>
    requires sign { head (drop from tokens.now.tokens) ≡ t.Assign }
    requires some { 1 < room }
    ensures reads { Reads (Runs (instruction.assigned room target) (drop from tokens.now.tokens)) instr_view tokens.now.tokens from result }
    ensures height { IfOk result (λ x. x.height ≡ tall.instr_height (instr_view x.tree)) }
    ensures low { IfOk result (λ x. x.height ≤ room) }
{
    let source = expression(alloc, tokens, after(tokens, from), room - 1, 1)?;
    Ok(Parsed {
        tree: assign(target, source.tree),
        next: source.next,
        height: source.height + 1,
    })
}

/// A creation instruction.
pub fn creation(
    alloc: Global,
    tokens: &Tokens<'_>,
    from: u32,
    room: u32,
) -> Result<Parsed<Instr>, PartError>
    requires begins { head (drop from tokens.now.tokens) ≡ t.Create }
    requires some { 1 ≤ room }
    ensures reads { Reads (Calls (goal.instruction_goal (goal.instruction room)) (drop from tokens.now.tokens)) instr_view tokens.now.tokens from result }
    ensures height { IfOk result (λ x. x.height ≡ tall.instr_height (instr_view x.tree)) }
    ensures low { IfOk result (λ x. x.height ≤ room) }
{
    let place = place_at(tokens, from);
    let start = after(tokens, from);
    let Some(inner) = behind(tokens, start, Terminal::OpenBrace) else {
        let plain = Parsed {
            tree: None,
            next: start,
            height: 0,
        };
        return created(alloc, tokens, room, place, plain);
    };
    if room == 1 {
        return Err(PartError::At(start));
    }
    let made = closed_type(alloc, tokens, inner, room - 1)?;
    let typed = Parsed {
        tree: Some(made.tree),
        next: made.next,
        height: made.height,
    };
    created(alloc, tokens, room, place, typed)
}

/// The target of a creation at that place, and what stands behind it.
fn created(
    alloc: Global,
    tokens: &Tokens<'_>,
    room: u32,
    place: Place,
    made: Parsed<Option<TypeTree>>,
) -> Result<Parsed<Instr>, PartError>
    requires start { made.next ≤ length tokens.now.tokens }
    requires height { made.height ≡ tall.written_height (option_map type_view made.tree) }
    requires low { made.height < room }
    ensures reads { Reads (Runs (instruction.created room place (option_map type_view made.tree)) (drop made.next tokens.now.tokens)) instr_view tokens.now.tokens made.next result }
    ensures height { IfOk result (λ x. x.height ≡ tall.instr_height (instr_view x.tree)) }
    ensures low { IfOk result (λ x. x.height ≤ room) }
{
    let name = target(alloc, tokens, made.next)?;
    let call = creator(alloc, tokens, name.next, room)?;
    let height = made.height.max(call.height) + 1;
    let rest = call.tree;
    Ok(Parsed {
        tree: create(place, made.tree, name.tree, rest.name, rest.args),
        next: call.next,
        height,
    })
}
