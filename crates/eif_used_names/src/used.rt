//! The names that expressions, instructions and declarations use of their own class, in the order of the text: each
//! unqualified name and each target.

ghost use Rattle.std.specs.Prelude.{◌≡◌, ◌++◌, map, IfOk, OnOk};
ghost use Rattle.std.specs.Option.{option_map};
ghost use Rattle.eif_feature_rules.specs.NamesUsed as the;
ghost use Rattle.eif_tree.specs.Members.{body_of};
ghost use Rattle.eif_tree.specs.View.{assertion_view, branch_view, branches_from, decl_view, expr_view, exs_from, instr_view, inss_from, kind_view};
ghost use Rattle.eif_used_names.specs.LentNames.{lent_name};

use eif_base::{Memory, Name};
use eif_tree::{Assertion, Branch, Expr, ExprKind, FeatureDecl, FeatureKind, Instr};
use std::alloc::Global;

/// Adds those of an expression.
#[cycle(expressions)]
fn push_of_expression<'t>(out: &mut Vec<&'t Name>, expr: &'t Expr) -> Result<(), Memory>
    ensures { OnOk result (map lent_name out.new.items
        ≡ map lent_name out.old.items ++ the.names_in (expr_view expr.now)) }
{
    match &expr.kind {
        ExprKind::Lit(_) | ExprKind::VoidValue | ExprKind::CurrentValue | ExprKind::ResultValue =>
            Ok(()),
        ExprKind::Unqualified { name, args } => {
            out.push(name)?;
            push_of_expressions(out, args)
        }
        ExprKind::Precursor { args, .. } => push_of_expressions(out, args),
        ExprKind::Qualified { target, args, .. } => {
            push_of_expression(out, target)?;
            push_of_expressions(out, args)
        }
        ExprKind::Creation { args, .. } => push_of_expressions(out, args),
        ExprKind::Test { value, .. } => push_of_expression(out, value),
        ExprKind::Paren(inner) => push_of_expression(out, inner),
        ExprKind::Unary { value, .. } => push_of_expression(out, value),
        ExprKind::Binary { left, right, .. } => {
            push_of_expression(out, left)?;
            push_of_expression(out, right)
        }
    }
}

/// Adds those of expressions.
#[cycle(expressions)]
fn push_of_expressions<'t>(out: &mut Vec<&'t Name>, exprs: &'t [Expr]) -> Result<(), Memory>
    ensures { OnOk result (map lent_name out.new.items
        ≡ map lent_name out.old.items
        ++ the.names_in_all (exs_from (map expr_view exprs.now))) }
{
    'exprs: for expr in exprs {
        push_of_expression(out, expr)?;
    }
    Ok(())
}

/// Adds those of claims.
fn push_of_claims<'t>(out: &mut Vec<&'t Name>, claims: &'t [Assertion]) -> Result<(), Memory>
    ensures { OnOk result (map lent_name out.new.items
        ≡ map lent_name out.old.items
        ++ the.names_in_all (exs_from (map assertion_view claims.now))) }
{
    'claims: for claim in claims {
        push_of_expression(out, &claim.value)?;
    }
    Ok(())
}

fn push_of_variant<'t>(out: &mut Vec<&'t Name>, variant: &'t Option<Expr>) -> Result<(), Memory>
    ensures { OnOk result (map lent_name out.new.items
        ≡ map lent_name out.old.items ++ the.names_in_variant (option_map expr_view variant.now)) }
{
    match variant {
        Some(expr) => push_of_expression(out, expr),
        None => Ok(()),
    }
}

/// Adds those of an instruction.
#[cycle(instructions)]
fn push_of_instruction<'t>(out: &mut Vec<&'t Name>, instr: &'t Instr) -> Result<(), Memory>
    ensures { OnOk result (map lent_name out.new.items
        ≡ map lent_name out.old.items ++ the.names_in_instruction (instr_view instr.now)) }
{
    match instr {
        Instr::Assign { target, value } => {
            out.push(&target.name)?;
            push_of_expression(out, value)
        }
        Instr::Call { call } => push_of_expression(out, call),
        Instr::Create { target, args, .. } => {
            out.push(&target.name)?;
            push_of_expressions(out, args)
        }
        Instr::If {
            branches,
            otherwise: Some(other),
        } => {
            push_of_branches(out, branches)?;
            push_of_compound(out, other)
        }
        Instr::If {
            branches,
            otherwise: None,
        } => push_of_branches(out, branches),
        Instr::Loop {
            start,
            invariants,
            exit,
            body,
            variant,
        } => {
            push_of_compound(out, start)?;
            push_of_claims(out, invariants)?;
            push_of_expression(out, exit)?;
            push_of_compound(out, body)?;
            push_of_variant(out, variant)
        }
        Instr::Check { claims } => push_of_claims(out, claims),
    }
}

/// Adds those of instructions.
#[cycle(instructions)]
fn push_of_compound<'t>(out: &mut Vec<&'t Name>, compound: &'t [Instr]) -> Result<(), Memory>
    ensures { OnOk result (map lent_name out.new.items
        ≡ map lent_name out.old.items
        ++ the.names_in_compound (inss_from (map instr_view compound.now))) }
{
    'compound: for instr in compound {
        push_of_instruction(out, instr)?;
    }
    Ok(())
}

#[cycle(instructions)]
fn push_of_branches<'t>(out: &mut Vec<&'t Name>, branches: &'t [Branch]) -> Result<(), Memory>
    ensures { OnOk result (map lent_name out.new.items
        ≡ map lent_name out.old.items
        ++ the.names_in_branches (branches_from (map branch_view branches.now))) }
{
    'branches: for branch in branches {
        push_of_expression(out, &branch.condition)?;
        push_of_compound(out, &branch.body)?;
    }
    Ok(())
}

fn push_of_kind<'t>(out: &mut Vec<&'t Name>, kind: &'t FeatureKind) -> Result<(), Memory>
    ensures { OnOk result (map lent_name out.new.items
        ≡ map lent_name out.old.items ++ the.names_in_compound (body_of (kind_view kind.now))) }
{
    match kind {
        FeatureKind::Routine { body, .. } => push_of_compound(out, body),
        _ => Ok(()),
    }
}

/// The names that the declaration uses of its own class, its assertions included, as often as they
/// stand there. A local or argument of that name hides none here.
pub fn used_names<'t>(alloc: Global, decl: &'t FeatureDecl) -> Result<Vec<&'t Name>, Memory>
    ensures { IfOk result (λ v. map lent_name v.items ≡ the.names_used (decl_view decl.now)) }
{
    let mut out = Vec::new(alloc);
    push_of_claims(&mut out, &decl.preconditions)?;
    push_of_kind(&mut out, &decl.kind)?;
    push_of_claims(&mut out, &decl.postconditions)?;
    Ok(out)
}
