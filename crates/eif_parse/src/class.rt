//! Class texts.

ghost use Rattle.std.specs.Prelude.{◌≡◌, ◌≤◌, drop, length};
ghost use Rattle.eif_tree.specs.View.{class_view};
ghost use Rattle.eif_grammar.specs.ClassRules as rules;
ghost use Rattle.eif_grammar.specs.Goals as goal;
ghost use Rattle.eif_grammar.specs.Outcomes.{Calls, Runs};
ghost use Rattle.eif_grammar.specs.Parts.{left_place};
ghost use Rattle.eif_parse.specs.Parses.{Parses, IsWhole};
ghost use Rattle.eif_parse.specs.ClassSubrules as rule;
ghost use Rattle.eif_parse_expr.specs.Readings.{Reads};

use crate::error::ParseError;
use crate::features::features;
use crate::heads::{creators, formals};
use crate::notes::{notes, obsolete};
use crate::parents::parents;
use eif_base::Place;
use eif_base::limits::MOST_HEIGHT;
use eif_grammar::Terminal;
use eif_lex::{Tokens, first_left_out, left_out_text};
use eif_parse_expr::look::{behind, expect, name_behind};
use eif_parse_expr::{Parsed, PartError, invariants};
use eif_tree::class_builders::written_class;
use eif_tree::{ClassTree, FormalTree, NameAt};
use std::alloc::Global;

/// What stands before the parents of a class.
#[derive(Drop)]
pub struct ClassHead {
    pub name: NameAt,
    pub formals: Vec<FormalTree>,
}

/// A class text from its word `class` up to its parents.
fn class_head(alloc: Global, tokens: &Tokens<'_>, from: u32) -> Result<Parsed<ClassHead>, PartError>
    requires { from ≤ length tokens.now.tokens }
    ensures { Reads (Runs rule.class_head (drop from tokens.now.tokens)) rule.head_view tokens.now.tokens from result }
{
    let start = expect(tokens, from, Terminal::Class)?;
    let name = name_behind(alloc, tokens, start)?;
    let formals = formals(alloc, tokens, name.next)?;
    let end = obsolete(tokens, formals.next)?;
    Ok(Parsed {
        tree: ClassHead {
            name: name.tree,
            formals: formals.tree,
        },
        next: end.next,
        height: 0,
    })
}

/// The class text from its parents on.
fn class_rest(
    alloc: Global,
    tokens: &Tokens<'_>,
    from: u32,
    is_deferred: bool,
    head: ClassHead,
) -> Result<Parsed<ClassTree>, PartError>
    requires { from ≤ length tokens.now.tokens }
    ensures { Reads (Runs (rule.class_rest is_deferred (rule.head_view head)) (drop from tokens.now.tokens)) class_view tokens.now.tokens from result }
{
    let parents = parents(alloc, tokens, from)?;
    let creators = creators(alloc, tokens, parents.next)?;
    let features = features(alloc, tokens, creators.next)?;
    let claims = invariants(alloc, tokens, features.next, MOST_HEIGHT)?;
    let end = notes(alloc, tokens, claims.next)?;
    let next = expect(tokens, end.next, Terminal::End)?;
    Ok(Parsed {
        tree: written_class(
            head.name.place,
            head.name.name,
            is_deferred,
            head.formals,
            parents.tree,
            creators.tree,
            features.tree,
            claims.tree,
        ),
        next,
        height: 0,
    })
}

/// A class text from its word `class` on.
fn class_from(
    alloc: Global,
    tokens: &Tokens<'_>,
    from: u32,
    is_deferred: bool,
) -> Result<Parsed<ClassTree>, PartError>
    requires { from ≤ length tokens.now.tokens }
    ensures { Reads (Runs (rules.class_from is_deferred) (drop from tokens.now.tokens)) class_view tokens.now.tokens from result }
{
    let head = class_head(alloc, tokens, from)?;
    class_rest(alloc, tokens, head.next, is_deferred, head.tree)
}

/// The class text that the tokens begin with.
fn class_text(alloc: Global, tokens: &Tokens<'_>) -> Result<Parsed<ClassTree>, PartError>
    ensures { Reads (Calls (goal.class_goal goal.class_text) tokens.now.tokens) class_view tokens.now.tokens 0 result }
{
    let start = notes(alloc, tokens, 0)?.next;
    match behind(tokens, start, Terminal::Deferred) {
        Some(start) => class_from(alloc, tokens, start, true),
        None => class_from(alloc, tokens, start, false),
    }
}

/// The class that all the tokens are. The error has the number of the first token past the longest front that
/// begins a class text, or the number of tokens.
fn whole_class(alloc: Global, tokens: &Tokens<'_>) -> Result<ClassTree, PartError>
    ensures { IsWhole tokens.now.tokens result }
{
    let class = class_text(alloc, tokens)?;
    if class.next < tokens.count() {
        return Err(PartError::At(class.next));
    }
    Ok(class.tree)
}

/// Where token `at` begins, or the text ends.
fn place_or_end(tokens: &Tokens<'_>, at: u32) -> Place
    ensures { result ≡ left_place tokens.now.end (drop at tokens.now.tokens) }
{
    if at < tokens.count() {
        tokens.place(at)
    } else {
        tokens.end()
    }
}

/// The class that all the tokens are.
pub fn parse_class(alloc: Global, tokens: &Tokens<'_>) -> Result<ClassTree, ParseError>
    ensures { Parses tokens.now result }
{
    if let Some(i) = first_left_out(tokens) {
        let name = left_out_text(alloc, tokens, i)?;
        return Err(ParseError::Left(tokens.place(i), name));
    }
    match whole_class(alloc, tokens) {
        Ok(tree) => Ok(tree),
        Err(PartError::At(at)) => Err(ParseError::Syntax(place_or_end(tokens, at))),
        Err(PartError::Memory) => Err(ParseError::Memory),
    }
}
