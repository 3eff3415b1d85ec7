//! Values that are one token.

ghost use Rattle.std.specs.Prelude.{◌≡◌, ◌≢◌, ◌≤◌, drop, length, IfOk};
ghost use Rattle.std.specs.Option.{option_map};
ghost use Rattle.eif_tree.specs.Height as tall;
ghost use Rattle.eif_tree.specs.View.{expr_view};
ghost use Rattle.eif_grammar.specs.Goals as goal;
ghost use Rattle.eif_grammar.specs.Outcomes.{Calls};
ghost use Rattle.eif_grammar.specs.Spelling.{head};
ghost use Rattle.eif_grammar.specs.declared.terminal.Terminal.TheVariants as t;
ghost use Rattle.eif_parse_expr.specs.Readings.{first, Reads};
ghost use Rattle.eif_parse_expr.specs.Subrules as rule;

use crate::look::{after, character_at, integer_at, place_at, string_at};
use crate::parsed::{Parsed, PartError};
use eif_base::Memory;
use eif_grammar::Terminal;
use eif_lex::Tokens;
use eif_tree::builders::{current_value, literal, result_value, void_value};
use eif_tree::{Expr, Literal};
use std::alloc::Global;

/// The value that token `at` is, if it is one.
fn value_at(alloc: Global, tokens: &Tokens<'_>, at: u32) -> Result<Option<Expr>, Memory>
    ensures { IfOk result (λ e. option_map expr_view e ≡ rule.leaf_value (head (drop at tokens.now.tokens)) (first (drop at tokens.now.tokens))) }
{
    Ok(match tokens.next_terminal(at) {
        Terminal::Integer => {
            let value = Literal::Int(integer_at(tokens, at));
            Some(literal(place_at(tokens, at), value))
        }
        Terminal::Character => {
            let value = Literal::Char(character_at(tokens, at));
            Some(literal(place_at(tokens, at), value))
        }
        Terminal::StringText => {
            let value = Literal::Text(string_at(alloc, tokens, at)?);
            Some(literal(place_at(tokens, at), value))
        }
        Terminal::True => Some(literal(place_at(tokens, at), Literal::Bool(true))),
        Terminal::False => Some(literal(place_at(tokens, at), Literal::Bool(false))),
        Terminal::Void => Some(void_value(place_at(tokens, at))),
        Terminal::Current => Some(current_value(place_at(tokens, at))),
        Terminal::Result => Some(result_value(place_at(tokens, at))),
        _ => None,
    })
}

/// A primary that is one token.
pub fn leaf(
    alloc: Global,
    tokens: &Tokens<'_>,
    from: u32,
    room: u32,
) -> Result<Parsed<Expr>, PartError>
    requires start { from ≤ length tokens.now.tokens }
    requires some { 1 ≤ room }
    requires no_name { head (drop from tokens.now.tokens) ≢ t.Identifier }
    requires no_precursor { head (drop from tokens.now.tokens) ≢ t.Precursor }
    requires no_parenthesis { head (drop from tokens.now.tokens) ≢ t.OpenParenthesis }
    requires no_creation { head (drop from tokens.now.tokens) ≢ t.Create }
    ensures reads { Reads (Calls (goal.expression_goal (goal.primary room)) (drop from tokens.now.tokens)) expr_view tokens.now.tokens from result }
    ensures height { IfOk result (λ x. x.height ≡ tall.height (expr_view x.tree)) }
    ensures low { IfOk result (λ x. x.height ≤ room) }
{
    let _room = room;
    let Some(tree) = value_at(alloc, tokens, from)? else {
        return Err(PartError::At(from));
    };
    Ok(Parsed {
        tree,
        next: after(tokens, from),
        height: 1,
    })
}
