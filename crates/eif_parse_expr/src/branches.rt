//! Conditionals: branches with their conditions, and what is done otherwise.

ghost use Rattle.std.specs.Prelude.{◌≡◌, ◌≤◌, drop, length, max, IfOk};
ghost use Rattle.eif_tree.specs.Height as tall;
ghost use Rattle.eif_tree.specs.View.{branch_view, instr_view};
ghost use Rattle.eif_grammar.specs.Goals as goal;
ghost use Rattle.eif_grammar.specs.Outcomes.{Calls, Runs};
ghost use Rattle.eif_grammar.specs.Spelling.{head};
ghost use Rattle.eif_grammar.specs.declared.terminal.Terminal.TheVariants as t;
ghost use Rattle.eif_parse_expr.specs.InstructionSubrules as rule;
ghost use Rattle.eif_parse_expr.specs.InstructionSubrules.{branches_view, otherwise_view};
ghost use Rattle.eif_parse_expr.specs.Readings.{Reads};

use crate::compounds::compound;
use crate::expressions::expression;
use crate::look::{after, behind, expect};
use crate::parsed::{Parsed, PartError};
use eif_grammar::Terminal;
use eif_lex::Tokens;
use eif_tree::builders::{choose, written_branch};
use eif_tree::{Branch, Instr};
use std::alloc::Global;

/// A conditional.
#[cycle(instructions)]
pub fn conditional(
    alloc: Global,
    tokens: &Tokens<'_>,
    from: u32,
    room: u32,
) -> Result<Parsed<Instr>, PartError>
    requires start { from ≤ length tokens.now.tokens }
    requires begins { head (drop from tokens.now.tokens) ≡ t.If }
    requires some { 1 ≤ room }
    ensures reads { Reads (Calls (goal.instruction_goal (goal.instruction room)) (drop from tokens.now.tokens)) instr_view tokens.now.tokens from result }
    ensures height { IfOk result (λ x. x.height ≡ tall.instr_height (instr_view x.tree)) }
    ensures low { IfOk result (λ x. x.height ≤ room) }
{
    if room == 1 {
        return Err(PartError::At(from));
    }
    let all = branch_list(alloc, tokens, after(tokens, from), room - 1)?;
    let last = otherwise(alloc, tokens, all.next, room - 1)?;
    let next = expect(tokens, last.next, Terminal::End)?;
    Ok(Parsed {
        tree: choose(all.tree, last.tree),
        next,
        height: all.height.max(last.height) + 1,
    })
}

/// One branch or more, with `elseif` between. Their height is that of the highest.
#[cycle(instructions)]
fn branch_list(
    alloc: Global,
    tokens: &Tokens<'_>,
    from: u32,
    room: u32,
) -> Result<Parsed<Vec<Branch>>, PartError>
    requires start { from ≤ length tokens.now.tokens }
    requires some { 1 ≤ room }
    ensures reads { Reads (Runs (rule.branch_list room) (drop from tokens.now.tokens)) branches_view tokens.now.tokens from result }
    ensures height { IfOk result (λ x. x.height ≡ tall.branches_height (branches_view x.tree)) }
    ensures low { IfOk result (λ x. x.height ≤ room) }
{
    let mut tree = Vec::new(alloc);
    let mut next = from;
    let mut height = 0;
    'branches: loop {
        let one = branch(alloc, tokens, next, room)?;
        height = one.height.max(height);
        tree.push(one.tree)?;
        next = one.next;
        let Some(start) = behind(tokens, next, Terminal::Elseif) else {
            return Ok(Parsed { tree, next, height });
        };
        next = start;
    }
}

/// A condition, `then`, and what is done where it holds.
#[cycle(instructions)]
fn branch(
    alloc: Global,
    tokens: &Tokens<'_>,
    from: u32,
    room: u32,
) -> Result<Parsed<Branch>, PartError>
    requires start { from ≤ length tokens.now.tokens }
    requires some { 1 ≤ room }
    ensures reads { Reads (Runs (rule.branch room) (drop from tokens.now.tokens)) branch_view tokens.now.tokens from result }
    ensures height { IfOk result (λ x. x.height ≡ max (tall.height (branch_view x.tree).0) (tall.compound_height (branch_view x.tree).1)) }
    ensures low { IfOk result (λ x. x.height ≤ room) }
{
    let condition = expression(alloc, tokens, from, room, 1)?;
    let start = expect(tokens, condition.next, Terminal::Then)?;
    let body = compound(alloc, tokens, start, room)?;
    Ok(Parsed {
        tree: written_branch(condition.tree, body.tree),
        next: body.next,
        height: condition.height.max(body.height),
    })
}

/// What is done where no condition holds, if it stands there.
#[cycle(instructions)]
fn otherwise(
    alloc: Global,
    tokens: &Tokens<'_>,
    from: u32,
    room: u32,
) -> Result<Parsed<Option<Vec<Instr>>>, PartError>
    requires start { from ≤ length tokens.now.tokens }
    ensures reads { Reads (Calls (goal.instruction_goal (goal.otherwise room)) (drop from tokens.now.tokens)) otherwise_view tokens.now.tokens from result }
    ensures height { IfOk result (λ x. x.height ≡ tall.otherwise_height (otherwise_view x.tree)) }
    ensures low { IfOk result (λ x. x.height ≤ room) }
{
    let Some(start) = behind(tokens, from, Terminal::Else) else {
        return Ok(Parsed {
            tree: None,
            next: from,
            height: 0,
        });
    };
    let body = compound(alloc, tokens, start, room)?;
    Ok(Parsed {
        tree: Some(body.tree),
        next: body.next,
        height: body.height,
    })
}
