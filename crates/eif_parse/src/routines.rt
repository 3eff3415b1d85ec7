//! Routines: contracts and bodies.

ghost use Rattle.std.specs.Prelude.{◌≢◌, ◌≤◌, drop, length};
ghost use Rattle.std.specs.Option.{option_map};
ghost use Rattle.eif_tree.specs.View.{decl_view, kind_view, type_view};
ghost use Rattle.eif_grammar.specs.Goals as goal;
ghost use Rattle.eif_grammar.specs.Outcomes.{Calls};
ghost use Rattle.eif_grammar.specs.declared.terminal.Terminal.TheVariants as t;
ghost use Rattle.eif_parse.specs.ClassSubrules as rule;
ghost use Rattle.eif_parse_expr.specs.InstructionSubrules.{assertions_view};
ghost use Rattle.eif_parse_expr.specs.Readings.{Reads};

use crate::groups::locals;
use crate::notes::obsolete;
use eif_base::limits::MOST_HEIGHT;
use eif_grammar::Terminal;
use eif_lex::Tokens;
use eif_parse_expr::look::{behind, expect};
use eif_parse_expr::{Parsed, PartError, assertions, compound};
use eif_tree::class_builders::{deferred_body, routine, written_decl};
use eif_tree::{Assertion, FeatureDecl, FeatureKind, Group, NameAt, TypeTree};
use std::alloc::Global;

/// Assertions behind the first word and perhaps the second, if they stand there.
fn conditions(
    alloc: Global,
    tokens: &Tokens<'_>,
    from: u32,
    first: Terminal,
    second: Terminal,
) -> Result<Parsed<Vec<Assertion>>, PartError>
    requires start { from ≤ length tokens.now.tokens }
    requires first { first ≢ t.EndOfText }
    requires second { second ≢ t.EndOfText }
    ensures { Reads (Calls (goal.class_goal (goal.conditions first second)) (drop from tokens.now.tokens)) assertions_view tokens.now.tokens from result }
{
    let Some(start) = behind(tokens, from, first) else {
        return Ok(Parsed {
            tree: Vec::new(alloc),
            next: from,
            height: 0,
        });
    };
    match behind(tokens, start, second) {
        Some(start) => assertions(alloc, tokens, start, MOST_HEIGHT),
        None => assertions(alloc, tokens, start, MOST_HEIGHT),
    }
}

/// The locals and instructions of a routine, or the word for a deferred one.
fn body(alloc: Global, tokens: &Tokens<'_>, from: u32) -> Result<Parsed<FeatureKind>, PartError>
    requires { from ≤ length tokens.now.tokens }
    ensures { Reads (Calls (goal.class_goal goal.body) (drop from tokens.now.tokens)) kind_view tokens.now.tokens from result }
{
    if let Some(next) = behind(tokens, from, Terminal::Deferred) {
        return Ok(Parsed {
            tree: deferred_body(),
            next,
            height: 0,
        });
    }
    let locals = locals(alloc, tokens, from)?;
    let start = expect(tokens, locals.next, Terminal::Do)?;
    let all = compound(alloc, tokens, start, MOST_HEIGHT)?;
    Ok(Parsed {
        tree: routine(locals.tree, all.tree),
        next: all.next,
        height: 0,
    })
}

/// What stands behind the name, the arguments and the type of a routine.
pub fn routine_rest(
    alloc: Global,
    tokens: &Tokens<'_>,
    from: u32,
    name: NameAt,
    arguments: Vec<Group>,
    result_type: Option<TypeTree>,
) -> Result<Parsed<FeatureDecl>, PartError>
    requires { from ≤ length tokens.now.tokens }
    ensures { Reads (Calls (goal.class_goal (goal.routine_rest name (rule.groups_view arguments) (option_map type_view result_type))) (drop from tokens.now.tokens)) decl_view tokens.now.tokens from result }
{
    let start = obsolete(tokens, from)?.next;
    let before = conditions(alloc, tokens, start, Terminal::Require, Terminal::Else)?;
    let kind = body(alloc, tokens, before.next)?;
    let after = conditions(alloc, tokens, kind.next, Terminal::Ensure, Terminal::Then)?;
    let next = expect(tokens, after.next, Terminal::End)?;
    let names = vec![in alloc; name]?;
    Ok(Parsed {
        tree: written_decl(
            names,
            arguments,
            result_type,
            kind.tree,
            before.tree,
            after.tree,
        ),
        next,
        height: 0,
    })
}
