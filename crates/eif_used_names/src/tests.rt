use crate::used_names;
use eif_base::{Memory, Name, Place};
use eif_tree::builders::{
    assign, call, check, choose, create, qualified, unqualified, written_assertion, written_branch,
    written_loop,
};
use eif_tree::class_builders::{deferred_body, routine, written_decl};
use eif_tree::{Assertion, Expr, FeatureDecl, FeatureKind, Instr, NameAt};
use std::alloc::Global;
use std::test::Fail;

const HERE: Place = Place {
    file: 0,
    offset: 0,
    line: 1,
    column: 1,
};

/// A name of one letter.
fn letter(alloc: Global, name: u8) -> Result<NameAt, Memory> {
    Ok(NameAt {
        place: HERE,
        name: Name::from_bytes(alloc, &[name])?,
    })
}

/// A name as an expression.
fn named(alloc: Global, name: u8) -> Result<Expr, Memory> {
    Ok(unqualified(HERE, Name::from_bytes(alloc, &[name])?, Vec::new(alloc)))
}

/// The names as expressions.
fn all_named(alloc: Global, names: &[u8]) -> Result<Vec<Expr>, Memory> {
    let mut out = Vec::new(alloc);
    for name in names {
        out.push(named(alloc, *name)?)?;
    }
    Ok(out)
}

/// The names as claims.
fn claims(alloc: Global, names: &[u8]) -> Result<Vec<Assertion>, Memory> {
    let mut out = Vec::new(alloc);
    for name in names {
        out.push(written_assertion(named(alloc, *name)?))?;
    }
    Ok(out)
}

/// `target := source`.
fn assigned(alloc: Global, target: u8, source: u8) -> Result<Instr, Memory> {
    Ok(assign(letter(alloc, target)?, named(alloc, source)?))
}

/// `b.z (c)`, whose second name is of another class.
fn qualified_call(alloc: Global) -> Result<Instr, Memory> {
    let target = named(alloc, b'b')?;
    let args = all_named(alloc, b"c")?;
    Ok(call(qualified(alloc, HERE, target, letter(alloc, b'z')?, args)?))
}

/// `if e then create f.z (g) else h := i end`.
fn conditional(alloc: Global) -> Result<Instr, Memory> {
    let args = all_named(alloc, b"g")?;
    let creation = create(
        HERE,
        None,
        letter(alloc, b'f')?,
        Some(letter(alloc, b'z')?),
        args,
    );
    let branch = written_branch(named(alloc, b'e')?, vec![in alloc; creation]?);
    let other = vec![in alloc; assigned(alloc, b'h', b'i')?]?;
    Ok(choose(vec![in alloc; branch]?, Some(other)))
}

/// `from j := k invariant l until m loop n := o variant p end`.
fn repetition(alloc: Global) -> Result<Instr, Memory> {
    Ok(written_loop(
        vec![in alloc; assigned(alloc, b'j', b'k')?]?,
        claims(alloc, b"l")?,
        named(alloc, b'm')?,
        vec![in alloc; assigned(alloc, b'n', b'o')?]?,
        Some(named(alloc, b'p')?),
    ))
}

/// A declaration with this body between the claims `a` and `d`.
fn declared(alloc: Global, kind: FeatureKind) -> Result<FeatureDecl, Memory> {
    Ok(written_decl(
        vec![in alloc; letter(alloc, b'z')?]?,
        Vec::new(alloc),
        None,
        kind,
        claims(alloc, b"a")?,
        claims(alloc, b"d")?,
    ))
}

/// A routine with each form of instruction.
fn routine_of_all_forms(alloc: Global) -> Result<FeatureDecl, Memory> {
    let mut body = Vec::new(alloc);
    body.push(qualified_call(alloc)?)?;
    body.push(conditional(alloc)?)?;
    body.push(repetition(alloc)?)?;
    body.push(check(claims(alloc, b"ba")?))?;
    declared(alloc, routine(Vec::new(alloc), body))
}

fn are_letters(names: &[&Name], letters: &[u8]) -> bool {
    names.len() == letters.len()
        && names
            .iter()
            .zip(letters)
            .all(|(name, letter)| name.text() == [*letter].as_slice())
}

#[test]
fn names_are_used_in_the_order_of_the_text(rt: HostRuntime) -> Result<(), Fail> {
    let alloc = rt.alloc();
    let whole = routine_of_all_forms(alloc)?;
    assert!(rt; are_letters(&used_names(alloc, &whole)?, b"abcefghijklmnopbad"));
    let deferred = declared(alloc, deferred_body())?;
    assert!(rt; are_letters(&used_names(alloc, &deferred)?, b"ad"));
    Ok(())
}
