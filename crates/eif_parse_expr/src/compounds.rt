//! Compounds: instructions one behind the other.

ghost use Rattle.std.specs.Prelude.{◌≡◌, ◌≤◌, drop, length, IfOk};
ghost use Rattle.eif_tree.specs.Height as tall;
ghost use Rattle.eif_grammar.specs.Forms as form;
ghost use Rattle.eif_grammar.specs.Goals as goal;
ghost use Rattle.eif_grammar.specs.Outcomes.{Calls};
ghost use Rattle.eif_parse_expr.specs.InstructionSubrules.{inss_view};
ghost use Rattle.eif_parse_expr.specs.Readings.{Reads};

use crate::instructions::instruction;
use crate::look::behind;
use crate::parsed::{Parsed, PartError};
use eif_grammar::Terminal;
use eif_lex::Tokens;
use eif_tree::Instr;
use std::alloc::Global;

fn begins_instruction(terminal: Terminal) -> bool
    ensures { result ≡ form.begins_instruction terminal }
{
    match terminal {
        Terminal::Identifier
        | Terminal::Result
        | Terminal::Precursor
        | Terminal::Current
        | Terminal::Create
        | Terminal::If
        | Terminal::From
        | Terminal::Check => true,
        _ => false,
    }
}

/// All instructions that stand there, and the `;` among them. Their height is that of the highest.
#[cycle(instructions)]
pub fn compound(
    alloc: Global,
    tokens: &Tokens<'_>,
    from: u32,
    room: u32,
) -> Result<Parsed<Vec<Instr>>, PartError>
    requires start { from ≤ length tokens.now.tokens }
    ensures reads { Reads (Calls (goal.instruction_goal (goal.compound room)) (drop from tokens.now.tokens)) inss_view tokens.now.tokens from result }
    ensures height { IfOk result (λ x. x.height ≡ tall.compound_height (inss_view x.tree)) }
    ensures low { IfOk result (λ x. x.height ≤ room) }
{
    let mut tree = Vec::new(alloc);
    let mut next = from;
    let mut height = 0;
    'instructions: loop {
        if let Some(start) = behind(tokens, next, Terminal::Semicolon) {
            next = start;
            continue;
        }
        if !begins_instruction(tokens.next_terminal(next)) {
            return Ok(Parsed { tree, next, height });
        }
        if room == 0 {
            return Err(PartError::At(next));
        }
        let one = instruction(alloc, tokens, next, room)?;
        height = one.height.max(height);
        tree.push(one.tree)?;
        next = one.next;
    }
}
