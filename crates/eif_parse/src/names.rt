//! Names with commas between.

ghost use Rattle.std.specs.Prelude.{◌≤◌, drop, length};
ghost use Rattle.eif_grammar.specs.Goals as goal;
ghost use Rattle.eif_grammar.specs.Outcomes.{Calls, Runs};
ghost use Rattle.eif_parse.specs.ClassSubrules as rule;
ghost use Rattle.eif_parse_expr.specs.Readings.{Reads};

use eif_grammar::Terminal;
use eif_lex::Tokens;
use eif_parse_expr::look::{behind, expect, name_behind};
use eif_parse_expr::{Parsed, PartError};
use eif_tree::NameAt;
use std::alloc::Global;

/// One name or more.
pub fn names(
    alloc: Global,
    tokens: &Tokens<'_>,
    from: u32,
) -> Result<Parsed<Vec<NameAt>>, PartError>
    requires { from ≤ length tokens.now.tokens }
    ensures { Reads (Calls (goal.class_goal goal.names) (drop from tokens.now.tokens)) rule.names_view tokens.now.tokens from result }
{
    let mut tree = Vec::new(alloc);
    let mut next = from;
    'names: loop {
        let name = name_behind(alloc, tokens, next)?;
        tree.push(name.tree)?;
        next = name.next;
        let Some(start) = behind(tokens, next, Terminal::Comma) else {
            return Ok(Parsed {
                tree,
                next,
                height: 0,
            });
        };
        next = start;
    }
}

/// The names that go on behind these, and the colon behind them.
pub fn names_behind(
    alloc: Global,
    tokens: &Tokens<'_>,
    from: u32,
    names: Vec<NameAt>,
) -> Result<Parsed<Vec<NameAt>>, PartError>
    requires { from ≤ length tokens.now.tokens }
    ensures { Reads (Runs (rule.names_behind names.items) (drop from tokens.now.tokens)) rule.names_view tokens.now.tokens from result }
{
    let mut tree = names;
    let mut next = from;
    'names: while let Some(start) = behind(tokens, next, Terminal::Comma) {
        let name = name_behind(alloc, tokens, start)?;
        tree.push(name.tree)?;
        next = name.next;
    }
    let next = expect(tokens, next, Terminal::Colon)?;
    Ok(Parsed {
        tree,
        next,
        height: 0,
    })
}
