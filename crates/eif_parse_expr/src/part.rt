//! Types, expressions and compounds as parts of a text.

ghost use Rattle.std.specs.Prelude.{◌≤◌, length};
ghost use Rattle.eif_grammar.specs.Parts.{most_height};
ghost use Rattle.eif_parse_expr.specs.ReadParts.{ReadsType, ReadsExpression, ReadsCompound};

use crate::compounds::compound;
use crate::expressions::expression;
use crate::parsed::{Parsed, PartError};
use crate::types::written_type;
use eif_lex::Tokens;
use eif_tree::{Expr, Instr, TypeTree};
use std::alloc::Global;

/// The type that the longest reading gives from that token on, no higher than the room. Where there is
/// none, the error has the first token past the longest front that begins one.
pub fn parse_type(
    alloc: Global,
    tokens: &Tokens<'_>,
    from: u32,
    room: u32,
) -> Result<Parsed<TypeTree>, PartError>
    requires start { from ≤ length tokens.now.tokens }
    requires some { 1 ≤ room }
    requires most { room ≤ most_height }
    ensures { ReadsType room tokens.now.tokens from result }
{
    written_type(alloc, tokens, from, room)
}

/// The expression that the longest reading gives from that token on, no higher than the room. Where
/// there is none, the error has the first token past the longest front that begins one.
pub fn parse_expr(
    alloc: Global,
    tokens: &Tokens<'_>,
    from: u32,
    room: u32,
) -> Result<Parsed<Expr>, PartError>
    requires start { from ≤ length tokens.now.tokens }
    requires some { 1 ≤ room }
    requires most { room ≤ most_height }
    ensures { ReadsExpression room tokens.now.tokens from result }
{
    expression(alloc, tokens, from, room, 1)
}

/// All instructions that the longest reading gives from that token on, none higher than the room;
/// there may be none, and then the height is 0. Where one breaks off, the error has the first token past
/// the longest front that begins such instructions.
pub fn parse_compound(
    alloc: Global,
    tokens: &Tokens<'_>,
    from: u32,
    room: u32,
) -> Result<Parsed<Vec<Instr>>, PartError>
    requires start { from ≤ length tokens.now.tokens }
    requires some { 1 ≤ room }
    requires most { room ≤ most_height }
    ensures { ReadsCompound room tokens.now.tokens from result }
{
    compound(alloc, tokens, from, room)
}
