use crate::{Parsed, PartError, parse_compound, parse_expr, parse_type};
use eif_lex::{Tokens, lex};
use eif_tree::{Expr, ExprKind, Instr, Mark, TypeTree};
use std::alloc::Global;

/// What is read of a text: the number of the next token, the height, and the offset of the
/// outermost operator, 0 if there is none; or the number of the token that is refused.
#[derive(Clone, Copy, Debug, PartialEq, Eq)]
enum Reading {
    Read(u32, u32, u32),
    At(u32),
    Nothing,
}

use Reading::{At, Nothing, Read};

/// The room, a text that begins with an expression, and what is read.
const EXPRESSIONS: [(u32, &[u8], Reading); 56] = [
    (1, b"a", Read(1, 1, 0)),
    (9, b"a b", Read(1, 1, 0)),
    (9, b"", At(0)),
    (9, b")", At(0)),
    (9, b"a + )", At(2)),
    (9, b"a +", At(2)),
    // Operators.
    (9, b"a + b * c", Read(5, 3, 2)),
    (9, b"a * b + c", Read(5, 3, 6)),
    (9, b"a - b - c", Read(5, 3, 6)),
    (9, b"a ^ b ^ c", Read(5, 3, 2)),
    (9, b"a = b /= c", Read(5, 3, 6)),
    (9, b"a implies b implies c", Read(5, 3, 12)),
    (9, b"a or b and c", Read(5, 3, 2)),
    (9, b"a xor b or c", Read(5, 3, 8)),
    (9, b"a < b + c", Read(5, 3, 2)),
    (9, b"a // b \\\\ c", Read(5, 3, 7)),
    (9, b"a and then b or else c", Read(7, 3, 13)),
    (9, b"a or else b and then c", Read(7, 3, 2)),
    (9, b"a and b", Read(3, 2, 2)),
    (9, b"a and then", At(3)),
    (9, b"a or then b", At(2)),
    (9, b"not a = b", Read(4, 3, 6)),
    (9, b"- a.f + b", Read(6, 4, 6)),
    (9, b"+ - not a", Read(4, 4, 0)),
    (2, b"a + b", Read(3, 2, 2)),
    (1, b"a + b", At(1)),
    (2, b"a + b * c", At(3)),
    (1, b"not a", At(0)),
    // Calls.
    (9, b"f (a)", Read(4, 2, 0)),
    (9, b"f (", At(2)),
    (9, b"f ()", At(2)),
    (9, b"f (a b)", At(3)),
    (9, b"f (a,", At(4)),
    (9, b"f (a, b + c)", Read(8, 3, 0)),
    (1, b"f (a)", At(1)),
    (9, b"a.f (b, c).g", Read(10, 3, 0)),
    (9, b"a.", At(2)),
    (9, b"a.1", At(2)),
    (1, b"a.f", At(1)),
    (9, b"Precursor", Read(1, 1, 0)),
    (9, b"Precursor {T} (a)", Read(7, 2, 0)),
    (9, b"Precursor {T", At(3)),
    // Values.
    (9, b"1 + 'a' + \"b\" + True + False", Read(9, 5, 21)),
    (9, b"Void = Current", Read(3, 2, 5)),
    (9, b"Result.f", Read(3, 2, 0)),
    (3, b"((a))", Read(5, 3, 0)),
    (2, b"((a))", At(1)),
    (9, b"(a", At(2)),
    // Creations and tests.
    (9, b"create {T} x", Read(4, 2, 0)),
    (9, b"create {A [B]}.make (a)", Read(12, 3, 0)),
    (9, b"create T", At(1)),
    (9, b"attached {?T} x.f as y", Read(10, 3, 0)),
    (9, b"attached x as", At(3)),
    (9, b"{y: T} x as z", Read(6, 2, 0)),
    (9, b"{x}", At(2)),
    (1, b"{y: T} x", At(0)),
];

/// The same of types.
const TYPES: [(u32, &[u8], Reading); 12] = [
    (1, b"A", Read(1, 1, 0)),
    (9, b"?A b", Read(2, 1, 0)),
    (9, b"detachable A [!B, attached C]", Read(9, 2, 0)),
    (9, b"A [B [C], D]", Read(9, 3, 0)),
    (9, b"A.b", Read(1, 1, 0)),
    (9, b"", At(0)),
    (9, b"1", At(0)),
    (9, b"? !", At(1)),
    (9, b"A [", At(2)),
    (9, b"A [B", At(3)),
    (9, b"A [B,]", At(4)),
    (1, b"A [B]", At(1)),
];

/// The same of instructions in a row, with their count in the place of the offset.
const COMPOUNDS: [(u32, &[u8], Reading); 31] = [
    (9, b"", Read(0, 0, 0)),
    (9, b"end", Read(0, 0, 0)),
    (9, b"(a).f", Read(0, 0, 0)),
    (9, b";;", Read(2, 0, 0)),
    (9, b"f g", Read(2, 2, 2)),
    (9, b"f; g;", Read(4, 2, 2)),
    (9, b"f )", Read(1, 2, 1)),
    (1, b"f", At(0)),
    // Assignments.
    (9, b"x := 1", Read(3, 2, 1)),
    (9, b"x :=", At(2)),
    (9, b"x := 1 + 2 y := 3", Read(8, 3, 2)),
    (9, b"Result := x", Read(3, 2, 1)),
    // Calls.
    (9, b"Result", At(1)),
    (9, b"Current.f", Read(3, 3, 1)),
    (2, b"Current.f", At(0)),
    (9, b"Precursor (a)", Read(4, 3, 1)),
    (9, b"f (a).g", Read(6, 4, 1)),
    // Creations.
    (1, b"create x", Read(2, 1, 1)),
    (9, b"create {T} x.make (a)", Read(10, 2, 1)),
    (9, b"create {T} x.", At(6)),
    // Conditionals.
    (9, b"if a then f end", Read(5, 3, 1)),
    (9, b"if a then f elseif b then g else h end", Read(11, 3, 1)),
    (9, b"if a then f", At(4)),
    (9, b"if a f end", At(2)),
    // Loops.
    (9, b"from until a loop f end", Read(6, 3, 1)),
    (
        9,
        b"from x := 1 invariant t: a until b loop f variant v: n end",
        Read(17, 3, 1),
    ),
    (9, b"from until a loop", At(4)),
    (2, b"from until a loop f end", At(4)),
    // Checks.
    (9, b"check a; t: b end", Read(7, 2, 1)),
    (1, b"check end", Read(2, 1, 1)),
    (1, b"check a end", At(1)),
];

/// What is to be read.
#[derive(Clone, Copy)]
enum Part {
    Type,
    Expression,
    Compound,
}

fn of_error(error: PartError) -> Reading {
    match error {
        PartError::At(at) => At(at),
        PartError::Memory => Nothing,
    }
}

fn of_type(read: Result<Parsed<TypeTree>, PartError>) -> Reading {
    match read {
        Ok(x) => Read(x.next, x.height, 0),
        Err(error) => of_error(error),
    }
}

fn of_expression(read: Result<Parsed<Expr>, PartError>) -> Reading {
    match read {
        Ok(x) => match x.tree.kind {
            ExprKind::Binary { op_place, .. } => Read(x.next, x.height, op_place.offset),
            _ => Read(x.next, x.height, 0),
        },
        Err(error) => of_error(error),
    }
}

fn of_compound(read: Result<Parsed<Vec<Instr>>, PartError>) -> Reading {
    match read {
        Ok(x) => {
            let count = u32::try_from(x.tree.len()).unwrap_or(u32::MAX);
            Read(x.next, x.height, count)
        }
        Err(error) => of_error(error),
    }
}

fn read(alloc: Global, part: Part, room: u32, text: &[u8]) -> Reading {
    if text.len() > 1048576 || room == 0 || room > 400 {
        return Nothing;
    }
    let Ok(tokens) = lex(alloc, 0, text) else {
        return Nothing;
    };
    match part {
        Part::Type => of_type(parse_type(alloc, &tokens, 0, room)),
        Part::Expression => of_expression(parse_expr(alloc, &tokens, 0, room)),
        Part::Compound => of_compound(parse_compound(alloc, &tokens, 0, room)),
    }
}

/// The number of the first row that is wrong.
fn wrong_row(alloc: Global, part: Part, rows: &[(u32, &[u8], Reading)]) -> Option<usize> {
    for i in 0..rows.len() {
        if read(alloc, part, rows[i].0, rows[i].1) != rows[i].2 {
            return Some(i);
        }
    }
    None
}

#[test]
fn expressions_are_read(rt: HostRuntime) {
    assert_eq!(rt; wrong_row(rt.alloc(), Part::Expression, &EXPRESSIONS), None);
}

#[test]
fn types_are_read(rt: HostRuntime) {
    assert_eq!(rt; wrong_row(rt.alloc(), Part::Type, &TYPES), None);
}

#[test]
fn compounds_are_read(rt: HostRuntime) {
    assert_eq!(rt; wrong_row(rt.alloc(), Part::Compound, &COMPOUNDS), None);
}

fn is_call_of_x(tree: &Expr) -> bool {
    match &tree.kind {
        ExprKind::Unqualified { name, args } => name.text() == b"x".as_slice() && args.is_empty(),
        _ => false,
    }
}

fn is_class_a(tree: &TypeTree) -> bool {
    tree.name.text() == b"a".as_slice()
        && matches!(tree.mark, Mark::Plain)
        && tree.actuals.is_empty()
}

/// The column of the local, where the tree tests x by the type A and gives it the local y.
fn local_column(tree: &Expr) -> Option<u32> {
    let ExprKind::Test {
        type_tree: Some(written),
        local: Some(local),
        value,
    } = &tree.kind
    else {
        return None;
    };
    if is_class_a(written) && local.name.text() == b"y".as_slice() && is_call_of_x(value) {
        Some(local.place.column)
    } else {
        None
    }
}

/// The same of the tree that all the tokens are.
fn tested(alloc: Global, tokens: &Tokens<'_>) -> Option<u32> {
    match parse_expr(alloc, tokens, 0, 400) {
        Ok(x) if x.next == tokens.count() => local_column(&x.tree),
        _ => None,
    }
}

fn tested_in(alloc: Global, text: &[u8]) -> Option<u32> {
    if text.len() > 1048576 {
        return None;
    }
    match lex(alloc, 0, text) {
        Ok(tokens) => tested(alloc, &tokens),
        Err(_) => None,
    }
}

#[test]
fn object_tests_differ_in_places_alone(rt: HostRuntime) {
    assert_eq!(rt; tested_in(rt.alloc(), b"{y: A} x"), Some(2));
    assert_eq!(rt; tested_in(rt.alloc(), b"attached {A} x as y"), Some(19));
}
