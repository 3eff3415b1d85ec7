//! The outermost types of expressions and instructions, in the order of the text.

ghost use Rattle.std.specs.Prelude.{◌≡◌, ◌++◌, map, OnOk};
ghost use Rattle.std.specs.Option.{option_map};
ghost use Rattle.eif_system.specs.WrittenTypes as the;
ghost use Rattle.eif_tree.specs.View.{assertion_view, branch_view, branches_from, expr_view, exs_from, instr_view, inss_from, type_view};
ghost use Rattle.eif_written.specs.LentTypes.{lent_type};

use eif_base::Memory;
use eif_tree::{Assertion, Branch, Expr, ExprKind, Instr, TypeTree};

/// Adds the type, if there is one.
pub(crate) fn push_present<'t>(
    out: &mut Vec<&'t TypeTree>,
    type_tree: &'t Option<TypeTree>,
) -> Result<(), Memory>
    ensures { OnOk result (map lent_type out.new.items
        ≡ map lent_type out.old.items ++ the.present (option_map type_view type_tree.now)) }
{
    if let Some(present) = type_tree {
        out.push(present)?;
    }
    Ok(())
}

/// Adds those of an expression.
#[cycle(expressions)]
pub(crate) fn push_of_expression<'t>(
    out: &mut Vec<&'t TypeTree>,
    expr: &'t Expr,
) -> Result<(), Memory>
    ensures { OnOk result (map lent_type out.new.items
        ≡ map lent_type out.old.items ++ the.types_of_expression (expr_view expr.now)) }
{
    match &expr.kind {
        ExprKind::Lit(_) | ExprKind::VoidValue | ExprKind::CurrentValue | ExprKind::ResultValue =>
            Ok(()),
        ExprKind::Unqualified { args, .. } => push_of_expressions(out, args),
        ExprKind::Precursor { args, .. } => push_of_expressions(out, args),
        ExprKind::Qualified { target, args, .. } => {
            push_of_expression(out, target)?;
            push_of_expressions(out, args)
        }
        ExprKind::Creation {
            type_tree,
            args,
            ..
        } => {
            out.push(type_tree)?;
            push_of_expressions(out, args)
        }
        ExprKind::Test {
            type_tree,
            value,
            ..
        } => {
            push_present(out, type_tree)?;
            push_of_expression(out, value)
        }
        ExprKind::Paren(inner) => push_of_expression(out, inner),
        ExprKind::Unary { value, .. } => push_of_expression(out, value),
        ExprKind::Binary { left, right, .. } => {
            push_of_expression(out, left)?;
            push_of_expression(out, right)
        }
    }
}

/// Adds those of expressions.
#[cycle(expressions)]
pub(crate) fn push_of_expressions<'t>(
    out: &mut Vec<&'t TypeTree>,
    exprs: &'t [Expr],
) -> Result<(), Memory>
    ensures { OnOk result (map lent_type out.new.items
        ≡ map lent_type out.old.items
        ++ the.types_of_expressions (exs_from (map expr_view exprs.now))) }
{
    'exprs: for expr in exprs {
        push_of_expression(out, expr)?;
    }
    Ok(())
}

/// Adds those of claims.
pub(crate) fn push_of_claims<'t>(
    out: &mut Vec<&'t TypeTree>,
    claims: &'t [Assertion],
) -> Result<(), Memory>
    ensures { OnOk result (map lent_type out.new.items
        ≡ map lent_type out.old.items
        ++ the.types_of_expressions (exs_from (map assertion_view claims.now))) }
{
    'claims: for claim in claims {
        push_of_expression(out, &claim.value)?;
    }
    Ok(())
}

fn push_of_variant<'t>(out: &mut Vec<&'t TypeTree>, variant: &'t Option<Expr>) -> Result<(), Memory>
    ensures { OnOk result (map lent_type out.new.items
        ≡ map lent_type out.old.items ++ the.types_of_variant (option_map expr_view variant.now)) }
{
    match variant {
        Some(expr) => push_of_expression(out, expr),
        None => Ok(()),
    }
}

/// Adds those of an instruction.
#[cycle(instructions)]
fn push_of_instruction<'t>(out: &mut Vec<&'t TypeTree>, instr: &'t Instr) -> Result<(), Memory>
    ensures { OnOk result (map lent_type out.new.items
        ≡ map lent_type out.old.items ++ the.types_of_instruction (instr_view instr.now)) }
{
    match instr {
        Instr::Assign { value, .. } => push_of_expression(out, value),
        Instr::Call { call } => push_of_expression(out, call),
        Instr::Create {
            type_tree,
            args,
            ..
        } => {
            push_present(out, type_tree)?;
            push_of_expressions(out, args)
        }
        Instr::If {
            branches,
            otherwise: Some(other),
        } => {
            push_of_branches(out, branches)?;
            push_of_compound(out, other)
        }
        Instr::If {
            branches,
            otherwise: None,
        } => push_of_branches(out, branches),
        Instr::Loop {
            start,
            invariants,
            exit,
            body,
            variant,
        } => {
            push_of_compound(out, start)?;
            push_of_claims(out, invariants)?;
            push_of_expression(out, exit)?;
            push_of_compound(out, body)?;
            push_of_variant(out, variant)
        }
        Instr::Check { claims } => push_of_claims(out, claims),
    }
}

/// Adds those of instructions.
#[cycle(instructions)]
pub(crate) fn push_of_compound<'t>(
    out: &mut Vec<&'t TypeTree>,
    compound: &'t [Instr],
) -> Result<(), Memory>
    ensures { OnOk result (map lent_type out.new.items
        ≡ map lent_type out.old.items
        ++ the.types_of_compound (inss_from (map instr_view compound.now))) }
{
    'compound: for instr in compound {
        push_of_instruction(out, instr)?;
    }
    Ok(())
}

#[cycle(instructions)]
fn push_of_branches<'t>(out: &mut Vec<&'t TypeTree>, branches: &'t [Branch]) -> Result<(), Memory>
    ensures { OnOk result (map lent_type out.new.items
        ≡ map lent_type out.old.items
        ++ the.types_of_branches (branches_from (map branch_view branches.now))) }
{
    'branches: for branch in branches {
        push_of_expression(out, &branch.condition)?;
        push_of_compound(out, &branch.body)?;
    }
    Ok(())
}
