use eif_base::{Memory, Name, Place};
use eif_tree::builders::{binary, paren, qualified, test, unary, unqualified, written_type};
use eif_tree::{Expr, ExprKind, Mark, NameAt, Op, TypeTree};
use std::alloc::Global;
use std::test::Fail;

fn at(column: u32) -> Place {
    Place {
        file: 0,
        offset: column,
        line: 1,
        column,
    }
}

fn name_at(alloc: Global, column: u32, name: &[u8]) -> Result<NameAt, Memory> {
    Ok(NameAt {
        place: at(column),
        name: Name::from_bytes(alloc, name)?,
    })
}

fn call(alloc: Global, column: u32, name: &[u8]) -> Result<Expr, Memory> {
    let name = Name::from_bytes(alloc, name)?;
    Ok(unqualified(at(column), name, Vec::new(alloc)))
}

/// The type `LIST [detachable A]`.
fn list_type(alloc: Global) -> Result<TypeTree, Memory> {
    let item = Name::from_bytes(alloc, b"A")?;
    let item = written_type(at(11), at(22), Mark::Detachable, item, Vec::new(alloc));
    let mut actuals = Vec::new(alloc);
    actuals.push(item)?;
    let list = Name::from_bytes(alloc, b"LIST")?;
    Ok(written_type(at(5), at(5), Mark::Plain, list, actuals))
}

/// The expression `{x: LIST [detachable A]} (- a.f + b)`.
fn test_tree(alloc: Global) -> Result<Expr, Memory> {
    let value = call(alloc, 28, b"a")?;
    let value = qualified(
        alloc,
        at(28),
        value,
        name_at(alloc, 30, b"f")?,
        Vec::new(alloc),
    )?;
    let value = unary(alloc, at(26), Op::Minus, value)?;
    let value = binary(
        alloc,
        at(26),
        Op::Plus,
        at(32),
        value,
        call(alloc, 34, b"b")?,
    )?;
    let value = paren(alloc, at(25), value)?;
    let written = list_type(alloc)?;
    test(
        alloc,
        at(1),
        Some(written),
        Some(name_at(alloc, 2, b"x")?),
        value,
    )
}

fn is_list_type(tree: &TypeTree) -> bool {
    let [item] = tree.actuals.as_slice() else {
        return false;
    };
    tree.name.text() == b"list".as_slice()
        && matches!(tree.mark, Mark::Plain)
        && item.name.text() == b"a".as_slice()
        && item.place == at(11)
        && item.name_place == at(22)
        && matches!(item.mark, Mark::Detachable)
        && item.actuals.is_empty()
}

fn is_call(tree: &Expr, column: u32, called: &[u8]) -> bool {
    match &tree.kind {
        ExprKind::Unqualified { name, args } => {
            tree.place == at(column) && name.text() == called && args.is_empty()
        }
        _ => false,
    }
}

/// Whether it is `a.f`.
fn is_dotted(tree: &Expr) -> bool {
    match &tree.kind {
        ExprKind::Qualified { target, name, args } => {
            is_call(target, 28, b"a") && name.name.text() == b"f".as_slice() && args.is_empty()
        }
        _ => false,
    }
}

/// Whether it is `- a.f`.
fn is_negated(tree: &Expr) -> bool {
    match &tree.kind {
        ExprKind::Unary { op, value } => matches!(op, Op::Minus) && is_dotted(value),
        _ => false,
    }
}

/// Whether it is `- a.f + b`.
fn is_sum(tree: &Expr) -> bool {
    match &tree.kind {
        ExprKind::Binary {
            op,
            op_place,
            left,
            right,
        } => {
            matches!(op, Op::Plus)
                && *op_place == at(32)
                && is_negated(left)
                && is_call(right, 34, b"b")
        }
        _ => false,
    }
}

fn is_sum_in_parentheses(tree: &Expr) -> bool {
    match &tree.kind {
        ExprKind::Paren(inner) => tree.place == at(25) && is_sum(inner),
        _ => false,
    }
}

fn is_test(tree: &Expr) -> bool {
    match &tree.kind {
        ExprKind::Test {
            type_tree: Some(written),
            local: Some(local),
            value,
        } => {
            tree.place == at(1)
                && is_list_type(written)
                && local.name.text() == b"x".as_slice()
                && is_sum_in_parentheses(value)
        }
        _ => false,
    }
}

#[test]
fn trees_are_built_with_ample_memory(rt: HostRuntime) -> Result<(), Fail> {
    let tree = test_tree(rt.alloc())?;
    assert!(rt; is_test(&tree));
    Ok(())
}
