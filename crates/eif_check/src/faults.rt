//! The faults of given classes behind the rules of the universe, rule by rule.

ghost use Rattle.std.specs.Prelude.{◌≡◌, [], ◌++◌, flat_map, map, IfOk, OnOk};
ghost use Rattle.eif_rules.specs.FaultForms.{fault_at, fault_in};
ghost use Rattle.eif_system_rules.specs.SystemRules as rules;
ghost use Rattle.eif_system.specs.WrittenTypes as written;
ghost use Rattle.eif_tree.specs.Members as parts;
ghost use Rattle.eif_tree.specs.View.{class_view, decl_view};
ghost use Rattle.eif_check.specs.Mentions.{name_at};
ghost use Rattle.eif_check.specs.UnknownNames.{unknown_in, all_unknown_in};

use crate::mention::{Mention, declarations, declared_names, name_set, push_called};
use crate::plain::is_plain;
use eif_base::{Code, Fault, FaultList, Memory, Name, NameSet};
use eif_tree::{ClassTree, FeatureDecl, NameAt};
use std::alloc::Global;

/// The name of what has none.
pub(crate) fn no_name(alloc: Global) -> Result<Name, Memory>
    ensures { IfOk result (λ n. n ≡ []) }
{
    Name::from_bytes(alloc, b"")
}

/// The fault of a class that is not plain.
fn not_yet_fault(alloc: Global, class: &ClassTree) -> Result<Fault, Memory>
    ensures { IfOk result (λ f. let c = class_view class.now in
        f ≡ fault_at c Code.Xyet 1 c.place []) }
{
    Ok(Fault {
        code: Code::Xyet,
        case: 1,
        class: class.name.copy(alloc)?,
        feature: no_name(alloc)?,
        place: class.place,
        about: no_name(alloc)?,
    })
}

/// Adds the faults of the classes that are not plain.
pub(crate) fn push_not_yet(
    alloc: Global,
    out: &mut FaultList,
    given: &[ClassTree],
) -> Result<(), Memory>
    ensures { OnOk result (out.new
        ≡ out.old ++ flat_map rules.not_yet (map class_view given.now)) }
{
    'classes: for class in given {
        if !is_plain(alloc, class)? {
            out.push(not_yet_fault(alloc, class)?)?;
        }
    }
    Ok(())
}

/// The name of a declaration that faults in it are told of.
fn feature_name(alloc: Global, names: &[NameAt]) -> Result<Name, Memory>
    ensures { IfOk result (λ n. n ≡ written.feature_name names.now) }
{
    match names.first() {
        Some(first) => first.name.copy(alloc),
        None => no_name(alloc),
    }
}

fn unknown_name_fault(
    alloc: Global,
    class: &ClassTree,
    decl: &FeatureDecl,
    mention: &Mention<'_>,
) -> Result<Fault, Memory>
    ensures { IfOk result (λ f. let n = name_at mention.now in
        f ≡ fault_in (class_view class.now) (written.feature_name decl.now.names.items)
        Code.Veen 1 n.place n.name) }
{
    Ok(Fault {
        code: Code::Veen,
        case: 1,
        class: class.name.copy(alloc)?,
        feature: feature_name(alloc, &decl.names)?,
        place: mention.place,
        about: mention.name.copy(alloc)?,
    })
}

/// Adds the faults of the names that a declaration calls.
fn push_unknown(
    alloc: Global,
    out: &mut FaultList,
    class: &ClassTree,
    decl: &FeatureDecl,
    declared: &NameSet,
    called: &[Mention<'_>],
) -> Result<(), Memory>
    ensures { OnOk result (out.new ≡ out.old
        ++ flat_map (unknown_in (class_view class.now) declared.now (decl_view decl.now))
        (map name_at called.now)) }
{
    'called: for mention in called {
        if !declared.has(mention.name) {
            out.push(unknown_name_fault(alloc, class, decl, mention)?)?;
        }
    }
    Ok(())
}

/// Adds the faults of a declaration.
fn push_unknown_in(
    alloc: Global,
    out: &mut FaultList,
    class: &ClassTree,
    decl: &FeatureDecl,
    declared: &NameSet,
) -> Result<(), Memory>
    ensures { OnOk result (out.new ≡ out.old
        ++ all_unknown_in (class_view class.now) declared.now (decl_view decl.now)) }
{
    let mut called = Vec::new(alloc);
    push_called(&mut called, decl)?;
    push_unknown(alloc, out, class, decl, declared, &called)
}

/// Adds the faults of declarations.
fn push_unknown_in_all(
    alloc: Global,
    out: &mut FaultList,
    class: &ClassTree,
    decls: &[&FeatureDecl],
    declared: &NameSet,
) -> Result<(), Memory>
    ensures { OnOk result (out.new ≡ out.old
        ++ flat_map (all_unknown_in (class_view class.now) declared.now)
        (map (λ d. decl_view d.now) decls.now)) }
{
    'decls: for decl in decls {
        push_unknown_in(alloc, out, class, decl, declared)?;
    }
    Ok(())
}

/// Adds the faults of a class.
fn push_unknown_of(alloc: Global, out: &mut FaultList, class: &ClassTree) -> Result<(), Memory>
    ensures { OnOk result (out.new ≡ out.old ++ rules.unknown_names_in (class_view class.now)) }
{
    let decls = declarations(alloc, class)?;
    let names = declared_names(alloc, &decls)?;
    let declared = name_set(alloc, &names)?;
    push_unknown_in_all(alloc, out, class, &decls, &declared)?;
    Ok(())
}

/// Adds the faults of the called names that their class does not declare.
pub(crate) fn push_unknown_names(
    alloc: Global,
    out: &mut FaultList,
    given: &[ClassTree],
) -> Result<(), Memory>
    ensures { OnOk result (out.new
        ≡ out.old ++ flat_map rules.unknown_names_in (map class_view given.now)) }
{
    'classes: for class in given {
        push_unknown_of(alloc, out, class)?;
    }
    Ok(())
}
