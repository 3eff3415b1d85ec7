ghost use Rattle.std.specs.Prelude.{◌≡◌, ◌<◌, ◌^◌, map};
ghost use Rattle.std.specs.Option.{option_map};
ghost use Rattle.eif_tree.specs.Height as tall;
ghost use Rattle.eif_tree.specs.View.{assertion_view, branch_view, branches_from, expr_view, exs_from, instr_view, inss_from, type_view, types_from};

use crate::tree::{Assertion, Branch, Expr, ExprKind, Instr, TypeTree};

/// How high a type is: 1 with no actuals.
#[cycle(types)]
pub fn type_height(type_tree: &TypeTree) -> u32
    requires { tall.type_height (type_view type_tree.now) < 2 ^ 32 }
    ensures { result ≡ tall.type_height (type_view type_tree.now) }
{
    types_height(&type_tree.actuals) + 1
}

#[cycle(types)]
fn types_height(types: &[TypeTree]) -> u32
    requires { tall.types_height (types_from (map type_view types.now)) < 2 ^ 32 }
    ensures { result ≡ tall.types_height (types_from (map type_view types.now)) }
{
    let mut most = 0;
    for type_tree in types {
        let height = type_height(type_tree);
        if most < height {
            most = height;
        }
    }
    most
}

fn written_height(type_tree: &Option<TypeTree>) -> u32
    requires { tall.written_height (option_map type_view type_tree.now) < 2 ^ 32 }
    ensures { result ≡ tall.written_height (option_map type_view type_tree.now) }
{
    match type_tree {
        Some(written) => type_height(written),
        None => 0,
    }
}

/// How high an expression is: 1 with no parts.
#[cycle(exprs)]
pub fn height(expr: &Expr) -> u32
    requires { tall.height (expr_view expr.now) < 2 ^ 32 }
    ensures { result ≡ tall.height (expr_view expr.now) }
{
    match &expr.kind {
        ExprKind::Lit(_) | ExprKind::VoidValue | ExprKind::CurrentValue | ExprKind::ResultValue =>
            1,
        ExprKind::Unqualified { args, .. } => heights(args) + 1,
        ExprKind::Precursor { args, .. } => heights(args) + 1,
        ExprKind::Qualified { target, args, .. } => height(target).max(heights(args)) + 1,
        ExprKind::Creation {
            type_tree,
            args,
            ..
        } => type_height(type_tree).max(heights(args)) + 1,
        ExprKind::Test {
            type_tree,
            value,
            ..
        } => written_height(type_tree).max(height(value)) + 1,
        ExprKind::Paren(inner) => height(inner) + 1,
        ExprKind::Unary { value, .. } => height(value) + 1,
        ExprKind::Binary { left, right, .. } => height(left).max(height(right)) + 1,
    }
}

#[cycle(exprs)]
fn heights(exprs: &[Expr]) -> u32
    requires { tall.heights (exs_from (map expr_view exprs.now)) < 2 ^ 32 }
    ensures { result ≡ tall.heights (exs_from (map expr_view exprs.now)) }
{
    let mut most = 0;
    for expr in exprs {
        let height = height(expr);
        if most < height {
            most = height;
        }
    }
    most
}

fn claims_height(claims: &[Assertion]) -> u32
    requires { tall.heights (exs_from (map assertion_view claims.now)) < 2 ^ 32 }
    ensures { result ≡ tall.heights (exs_from (map assertion_view claims.now)) }
{
    let mut most = 0;
    for claim in claims {
        let height = height(&claim.value);
        if most < height {
            most = height;
        }
    }
    most
}

fn maybe_height(expr: &Option<Expr>) -> u32
    requires { tall.maybe_height (option_map expr_view expr.now) < 2 ^ 32 }
    ensures { result ≡ tall.maybe_height (option_map expr_view expr.now) }
{
    match expr {
        Some(written) => height(written),
        None => 0,
    }
}

/// How high an instruction is.
#[cycle(instrs)]
pub fn instr_height(instr: &Instr) -> u32
    requires { tall.instr_height (instr_view instr.now) < 2 ^ 32 }
    ensures { result ≡ tall.instr_height (instr_view instr.now) }
{
    match instr {
        Instr::Assign { value, .. } => height(value) + 1,
        Instr::Call { call } => height(call) + 1,
        Instr::Create {
            type_tree,
            args,
            ..
        } => written_height(type_tree).max(heights(args)) + 1,
        Instr::If {
            branches,
            otherwise: Some(other),
        } => branches_height(branches).max(compound_height(other)) + 1,
        Instr::If {
            branches,
            otherwise: None,
        } => branches_height(branches) + 1,
        Instr::Loop {
            start,
            invariants,
            exit,
            body,
            variant,
        } => {
            let claims = claims_height(invariants).max(height(exit).max(maybe_height(variant)));
            let steps = compound_height(start).max(compound_height(body));
            claims.max(steps) + 1
        }
        Instr::Check { claims } => claims_height(claims) + 1,
    }
}

/// How high the highest of these instructions is, and 0 where there are none.
#[cycle(instrs)]
pub fn compound_height(compound: &[Instr]) -> u32
    requires { tall.compound_height (inss_from (map instr_view compound.now)) < 2 ^ 32 }
    ensures { result ≡ tall.compound_height (inss_from (map instr_view compound.now)) }
{
    let mut most = 0;
    for instr in compound {
        let height = instr_height(instr);
        if most < height {
            most = height;
        }
    }
    most
}

#[cycle(instrs)]
fn branches_height(branches: &[Branch]) -> u32
    requires { tall.branches_height (branches_from (map branch_view branches.now)) < 2 ^ 32 }
    ensures { result ≡ tall.branches_height (branches_from (map branch_view branches.now)) }
{
    let mut most = 0;
    for branch in branches {
        let height = height(&branch.condition).max(compound_height(&branch.body));
        if most < height {
            most = height;
        }
    }
    most
}
