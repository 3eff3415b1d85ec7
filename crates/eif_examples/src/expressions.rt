//! The digest of types and expressions.

ghost use Rattle.std.specs.Prelude.{◌≡◌, map};
ghost use Rattle.std.specs.Option.{option_map};
ghost use Rattle.eif_tree.specs.View.{assertion_view, expr_view, exs_from, type_view, types_from};
ghost use Rattle.eif_examples.specs.Digest.{after, reads_of};
ghost use Rattle.eif_examples.specs.Numbers as its;

use crate::parts::{literal, mark, maybe_name, mixed, name, operator, place, text};
use crate::places::Places;
use eif_tree::{Assertion, Expr, ExprKind, TypeTree};

#[cycle(types)]
pub(crate) fn type_tree(places: Places, value: u64, tree: &TypeTree) -> u64
    ensures { result ≡ after value
        (its.type_numbers (reads_of places.entry) (type_view tree.now)) }
{
    let at = place(places, place(places, value, tree.place), tree.name_place);
    type_trees(
        places,
        text(mark(at, tree.mark), tree.name.text()),
        &tree.actuals,
    )
}

#[cycle(types)]
fn type_trees(places: Places, value: u64, trees: &[TypeTree]) -> u64
    ensures { result ≡ after value
        (its.types_numbers (reads_of places.entry) (types_from (map type_view trees.now))) }
{
    let mut so_far = value;
    'trees: for tree in trees {
        so_far = type_tree(places, mixed(so_far, 1), tree);
    }
    mixed(so_far, 0)
}

/// Of a type that may be left out.
pub(crate) fn maybe_type(places: Places, value: u64, maybe: &Option<TypeTree>) -> u64
    ensures { result ≡ after value
        (its.option_numbers (its.type_numbers (reads_of places.entry))
        (option_map type_view maybe.now)) }
{
    match maybe {
        Some(written) => type_tree(places, mixed(value, 1), written),
        None => mixed(value, 0),
    }
}

#[cycle(expressions)]
pub(crate) fn expression(places: Places, value: u64, expr: &Expr) -> u64
    ensures { result ≡ after value
        (its.ex_numbers (reads_of places.entry) (expr_view expr.now)) }
{
    match &expr.kind {
        ExprKind::Lit(x) => literal(place(places, mixed(value, 0), expr.place), x),
        ExprKind::VoidValue => place(places, mixed(value, 1), expr.place),
        ExprKind::CurrentValue => place(places, mixed(value, 2), expr.place),
        ExprKind::ResultValue => place(places, mixed(value, 3), expr.place),
        ExprKind::Unqualified { name: called, args } => {
            let at = place(places, mixed(value, 4), expr.place);
            expressions(places, text(at, called.text()), args)
        }
        ExprKind::Precursor { parent, args } => {
            let at = place(places, mixed(value, 5), expr.place);
            expressions(places, maybe_name(places, at, parent), args)
        }
        ExprKind::Qualified {
            target,
            name: called,
            args,
        } => {
            let at = place(places, mixed(value, 6), expr.place);
            let on = expression(places, at, target);
            expressions(places, name(places, on, called), args)
        }
        ExprKind::Creation {
            type_tree: written,
            creator,
            args,
        } => {
            let at = place(places, mixed(value, 7), expr.place);
            let of = type_tree(places, at, written);
            expressions(places, maybe_name(places, of, creator), args)
        }
        ExprKind::Test {
            type_tree: written,
            local,
            value: tested,
        } => {
            let at = place(places, mixed(value, 8), expr.place);
            let of = maybe_type(places, at, written);
            expression(places, maybe_name(places, of, local), tested)
        }
        ExprKind::Paren(inner) => {
            let at = place(places, mixed(value, 9), expr.place);
            expression(places, at, inner)
        }
        ExprKind::Unary { op, value: operand } => {
            let at = place(places, mixed(value, 10), expr.place);
            expression(places, operator(at, *op), operand)
        }
        ExprKind::Binary {
            op,
            op_place,
            left,
            right,
        } => {
            let at = place(places, mixed(value, 11), expr.place);
            let operation = place(places, operator(at, *op), *op_place);
            expression(places, expression(places, operation, left), right)
        }
    }
}

#[cycle(expressions)]
pub(crate) fn expressions(places: Places, value: u64, exprs: &[Expr]) -> u64
    ensures { result ≡ after value
        (its.exs_numbers (reads_of places.entry) (exs_from (map expr_view exprs.now))) }
{
    let mut so_far = value;
    'exprs: for expr in exprs {
        so_far = expression(places, mixed(so_far, 1), expr);
    }
    mixed(so_far, 0)
}

pub(crate) fn claims(places: Places, value: u64, claims: &[Assertion]) -> u64
    ensures { result ≡ after value
        (its.exs_numbers (reads_of places.entry) (exs_from (map assertion_view claims.now))) }
{
    let mut so_far = value;
    'claims: for claim in claims {
        so_far = expression(places, mixed(so_far, 1), &claim.value);
    }
    mixed(so_far, 0)
}

/// Of an expression that may be left out.
pub(crate) fn maybe_expression(places: Places, value: u64, maybe: &Option<Expr>) -> u64
    ensures { result ≡ after value
        (its.option_numbers (its.ex_numbers (reads_of places.entry))
        (option_map expr_view maybe.now)) }
{
    match maybe {
        Some(written) => expression(places, mixed(value, 1), written),
        None => mixed(value, 0),
    }
}
