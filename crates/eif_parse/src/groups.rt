//! Arguments and locals, and types behind a colon.

ghost use Rattle.std.specs.Prelude.{◌≤◌, drop, length};
ghost use Rattle.std.specs.Option.{option_map};
ghost use Rattle.eif_tree.specs.View.{group_view, type_view};
ghost use Rattle.eif_grammar.specs.ClassRules as rules;
ghost use Rattle.eif_grammar.specs.Goals as goal;
ghost use Rattle.eif_grammar.specs.Outcomes.{Calls, Runs};
ghost use Rattle.eif_parse.specs.ClassSubrules as rule;
ghost use Rattle.eif_parse_expr.specs.Readings.{Reads};

use crate::names::names_behind;
use eif_base::limits::MOST_HEIGHT;
use eif_grammar::Terminal;
use eif_lex::Tokens;
use eif_parse_expr::look::{behind, expect, is_at, name_behind};
use eif_parse_expr::{Parsed, PartError, semis, written_type};
use eif_tree::class_builders::written_group;
use eif_tree::{Group, TypeTree};
use std::alloc::Global;

/// Names of one type.
fn group(alloc: Global, tokens: &Tokens<'_>, from: u32) -> Result<Parsed<Group>, PartError>
    requires { from ≤ length tokens.now.tokens }
    ensures { Reads (Calls (goal.class_goal goal.group) (drop from tokens.now.tokens)) group_view tokens.now.tokens from result }
{
    let first = name_behind(alloc, tokens, from)?;
    let names = names_behind(alloc, tokens, first.next, vec![in alloc; first.tree]?)?;
    let written = written_type(alloc, tokens, names.next, MOST_HEIGHT)?;
    Ok(Parsed {
        tree: written_group(names.tree, written.tree),
        next: written.next,
        height: 0,
    })
}

/// One group of arguments or more. Between two there may be any number of `;`.
fn group_list(
    alloc: Global,
    tokens: &Tokens<'_>,
    from: u32,
) -> Result<Parsed<Vec<Group>>, PartError>
    requires { from ≤ length tokens.now.tokens }
    ensures { Reads (Runs rules.groups_from (drop from tokens.now.tokens)) rule.groups_view tokens.now.tokens from result }
{
    let mut tree = Vec::new(alloc);
    let mut next = from;
    'groups: loop {
        let one = group(alloc, tokens, next)?;
        tree.push(one.tree)?;
        next = semis(tokens, one.next);
        if next == one.next && !is_at(tokens, next, Terminal::Identifier) {
            return Ok(Parsed {
                tree,
                next,
                height: 0,
            });
        }
    }
}

/// Arguments in their parentheses, if there are any.
pub fn formal_arguments(
    alloc: Global,
    tokens: &Tokens<'_>,
    from: u32,
) -> Result<Parsed<Vec<Group>>, PartError>
    requires { from ≤ length tokens.now.tokens }
    ensures { Reads (Calls (goal.class_goal goal.formal_arguments) (drop from tokens.now.tokens)) rule.groups_view tokens.now.tokens from result }
{
    let Some(start) = behind(tokens, from, Terminal::OpenParenthesis) else {
        return Ok(Parsed {
            tree: Vec::new(alloc),
            next: from,
            height: 0,
        });
    };
    let all = group_list(alloc, tokens, start)?;
    let next = expect(tokens, all.next, Terminal::CloseParenthesis)?;
    Ok(Parsed {
        tree: all.tree,
        next,
        height: 0,
    })
}

/// All groups of locals that stand there.
fn local_groups(
    alloc: Global,
    tokens: &Tokens<'_>,
    from: u32,
) -> Result<Parsed<Vec<Group>>, PartError>
    requires { from ≤ length tokens.now.tokens }
    ensures { Reads (Calls (goal.class_goal goal.local_groups) (drop from tokens.now.tokens)) rule.groups_view tokens.now.tokens from result }
{
    let mut tree = Vec::new(alloc);
    let mut next = from;
    'groups: while is_at(tokens, next, Terminal::Identifier) {
        let one = group(alloc, tokens, next)?;
        tree.push(one.tree)?;
        next = semis(tokens, one.next);
    }
    Ok(Parsed {
        tree,
        next,
        height: 0,
    })
}

/// Locals, if there are any.
pub fn locals(
    alloc: Global,
    tokens: &Tokens<'_>,
    from: u32,
) -> Result<Parsed<Vec<Group>>, PartError>
    requires { from ≤ length tokens.now.tokens }
    ensures { Reads (Calls (goal.class_goal goal.locals) (drop from tokens.now.tokens)) rule.groups_view tokens.now.tokens from result }
{
    match behind(tokens, from, Terminal::Local) {
        Some(start) => local_groups(alloc, tokens, start),
        None => Ok(Parsed {
            tree: Vec::new(alloc),
            next: from,
            height: 0,
        }),
    }
}

/// The type of a result behind its colon, if it stands there.
pub fn result_type(
    alloc: Global,
    tokens: &Tokens<'_>,
    from: u32,
) -> Result<Parsed<Option<TypeTree>>, PartError>
    requires { from ≤ length tokens.now.tokens }
    ensures { Reads (Calls (goal.class_goal goal.result_type) (drop from tokens.now.tokens)) (option_map type_view) tokens.now.tokens from result }
{
    let Some(start) = behind(tokens, from, Terminal::Colon) else {
        return Ok(Parsed {
            tree: None,
            next: from,
            height: 0,
        });
    };
    let written = written_type(alloc, tokens, start, MOST_HEIGHT)?;
    Ok(Parsed {
        tree: Some(written.tree),
        next: written.next,
        height: 0,
    })
}
