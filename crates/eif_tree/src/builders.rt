//! One function for each form of type, expression and instruction, by its parts.

ghost use Rattle.std.specs.Prelude.{◌≡◌, map, IfOk};
ghost use Rattle.std.specs.Option.{option_map};
ghost use Rattle.eif_tree.specs.Tree as the;
ghost use Rattle.eif_tree.specs.View.{assertion_view, branch_view, branches_from, expr_view, exs_from, instr_view, inss_from, otherwise_from, type_view, types_from};

use crate::tree::{Assertion, Branch, Expr, ExprKind, Instr, Literal, Mark, NameAt, Op, TypeTree};
use eif_base::{Memory, Name, Place};
use std::alloc::Global;

/// A type.
pub fn written_type(
    place: Place,
    name_place: Place,
    mark: Mark,
    name: Name,
    actuals: Vec<TypeTree>,
) -> TypeTree
    ensures { type_view result ≡ the.type_at place name_place mark name (types_from (map type_view actuals.items)) }
{
    TypeTree {
        place,
        name_place,
        mark,
        name,
        actuals,
    }
}

/// A literal.
pub fn literal(place: Place, value: Literal) -> Expr
    ensures { expr_view result ≡ the.literal place value }
{
    Expr {
        place,
        kind: ExprKind::Lit(value),
    }
}

/// `Void`.
pub fn void_value(place: Place) -> Expr
    ensures { expr_view result ≡ the.void_value place }
{
    Expr {
        place,
        kind: ExprKind::VoidValue,
    }
}

/// `Current`.
pub fn current_value(place: Place) -> Expr
    ensures { expr_view result ≡ the.current_value place }
{
    Expr {
        place,
        kind: ExprKind::CurrentValue,
    }
}

/// `Result`.
pub fn result_value(place: Place) -> Expr
    ensures { expr_view result ≡ the.result_value place }
{
    Expr {
        place,
        kind: ExprKind::ResultValue,
    }
}

/// A name with no target.
pub fn unqualified(place: Place, name: Name, args: Vec<Expr>) -> Expr
    ensures { expr_view result ≡ the.unqualified place name (exs_from (map expr_view args.items)) }
{
    Expr {
        place,
        kind: ExprKind::Unqualified { name, args },
    }
}

/// A call of `Precursor`.
pub fn precursor(place: Place, parent: Option<NameAt>, args: Vec<Expr>) -> Expr
    ensures { expr_view result ≡ the.precursor place parent (exs_from (map expr_view args.items)) }
{
    Expr {
        place,
        kind: ExprKind::Precursor { parent, args },
    }
}

/// A call on a target.
pub fn qualified(
    alloc: Global,
    place: Place,
    target: Expr,
    name: NameAt,
    args: Vec<Expr>,
) -> Result<Expr, Memory>
    ensures { IfOk result (λ e. expr_view e ≡ the.qualified place (expr_view target) name (exs_from (map expr_view args.items))) }
{
    Ok(Expr {
        place,
        kind: ExprKind::Qualified {
            target: Box::new(alloc, target)?,
            name,
            args,
        },
    })
}

/// A creation expression.
pub fn creation(place: Place, type_tree: TypeTree, creator: Option<NameAt>, args: Vec<Expr>) -> Expr
    ensures { expr_view result ≡ the.creation place (type_view type_tree) creator (exs_from (map expr_view args.items)) }
{
    Expr {
        place,
        kind: ExprKind::Creation {
            type_tree,
            creator,
            args,
        },
    }
}

/// An object test.
pub fn test(
    alloc: Global,
    place: Place,
    type_tree: Option<TypeTree>,
    local: Option<NameAt>,
    value: Expr,
) -> Result<Expr, Memory>
    ensures { IfOk result (λ e. expr_view e ≡ the.test place (option_map type_view type_tree) local (expr_view value)) }
{
    Ok(Expr {
        place,
        kind: ExprKind::Test {
            type_tree,
            local,
            value: Box::new(alloc, value)?,
        },
    })
}

/// An expression in parentheses.
pub fn paren(alloc: Global, place: Place, inner: Expr) -> Result<Expr, Memory>
    ensures { IfOk result (λ e. expr_view e ≡ the.paren place (expr_view inner)) }
{
    Ok(Expr {
        place,
        kind: ExprKind::Paren(Box::new(alloc, inner)?),
    })
}

/// An operator before its operand.
pub fn unary(alloc: Global, place: Place, op: Op, value: Expr) -> Result<Expr, Memory>
    ensures { IfOk result (λ e. expr_view e ≡ the.unary place op (expr_view value)) }
{
    Ok(Expr {
        place,
        kind: ExprKind::Unary {
            op,
            value: Box::new(alloc, value)?,
        },
    })
}

/// An operator between its operands.
pub fn binary(
    alloc: Global,
    place: Place,
    op: Op,
    op_place: Place,
    left: Expr,
    right: Expr,
) -> Result<Expr, Memory>
    ensures { IfOk result (λ e. expr_view e ≡ the.binary place op op_place (expr_view left) (expr_view right)) }
{
    Ok(Expr {
        place,
        kind: ExprKind::Binary {
            op,
            op_place,
            left: Box::new(alloc, left)?,
            right: Box::new(alloc, right)?,
        },
    })
}

/// An assertion.
pub fn written_assertion(value: Expr) -> Assertion
    ensures { assertion_view result ≡ expr_view value }
{
    Assertion { value }
}

/// An assignment.
pub fn assign(target: NameAt, value: Expr) -> Instr
    ensures { instr_view result ≡ the.assign target (expr_view value) }
{
    Instr::Assign { target, value }
}

/// A call as an instruction.
pub fn call(expr: Expr) -> Instr
    ensures { instr_view result ≡ the.call (expr_view expr) }
{
    Instr::Call { call: expr }
}

/// A creation instruction.
pub fn create(
    place: Place,
    type_tree: Option<TypeTree>,
    target: NameAt,
    creator: Option<NameAt>,
    args: Vec<Expr>,
) -> Instr
    ensures { instr_view result ≡ the.create place (option_map type_view type_tree) target creator (exs_from (map expr_view args.items)) }
{
    Instr::Create {
        place,
        type_tree,
        target,
        creator,
        args,
    }
}

/// A branch of a conditional.
pub fn written_branch(condition: Expr, body: Vec<Instr>) -> Branch
    ensures { branch_view result ≡ (expr_view condition, inss_from (map instr_view body.items)) }
{
    Branch { condition, body }
}

/// A conditional.
pub fn choose(branches: Vec<Branch>, otherwise: Option<Vec<Instr>>) -> Instr
    ensures { instr_view result ≡ the.choose (branches_from (map branch_view branches.items)) (otherwise_from (option_map (λ is. map instr_view is.items) otherwise)) }
{
    Instr::If {
        branches,
        otherwise,
    }
}

/// A loop.
pub fn written_loop(
    start: Vec<Instr>,
    invariants: Vec<Assertion>,
    exit: Expr,
    body: Vec<Instr>,
    variant: Option<Expr>,
) -> Instr
    ensures { instr_view result ≡ the.loop
        (inss_from (map instr_view start.items))
        (exs_from (map assertion_view invariants.items))
        (expr_view exit)
        (inss_from (map instr_view body.items))
        (option_map expr_view variant) }
{
    Instr::Loop {
        start,
        invariants,
        exit,
        body,
        variant,
    }
}

/// A check.
pub fn check(claims: Vec<Assertion>) -> Instr
    ensures { instr_view result ≡ the.check (exs_from (map assertion_view claims.items)) }
{
    Instr::Check { claims }
}
