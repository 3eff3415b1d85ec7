//! The trees of the classes that are there before any is given.

ghost use Rattle.std.specs.Prelude.{◌≡◌, map, IfOk, [], ◌∷◌, Some, None, codes};
ghost use Rattle.std.specs.Option.{option_map};
ghost use Rattle.std.specs.Str.{str_to_ascii_lowercase};
ghost use Rattle.eif_system.specs.Kernel as the;
ghost use Rattle.eif_system.specs.TreeForms as form;
ghost use Rattle.eif_tree.specs.Tree as tree;
ghost use Rattle.eif_tree.specs.View.{class_view, creators_view, decl_view, features_view, formal_view, group_view, type_view};

use eif_base::{Memory, NO_FILE, Name, Place};
use eif_tree::builders::written_type;
use eif_tree::class_builders::{
    routine, written_class, written_clients, written_creators, written_decl, written_features,
    written_formal, written_group,
};
use eif_tree::{
    ClassTree, CreatorPart, FeatureClause, FeatureDecl, FormalTree, Group, Mark, NameAt, TypeTree,
};
use std::alloc::Global;

/// How many classes the kernel has: ANY, which is the first, and those with a meaning of their own.
pub const KERNEL_COUNT: u32 = 6;

// The place of what stands in no file.
const NOWHERE: Place = Place {
    file: NO_FILE,
    offset: 0,
    line: 0,
    column: 0,
};

const ANY: &[u8] = b"any";

const ARRAY: &[u8] = b"array";

const BOOLEAN: &[u8] = b"boolean";

const CHARACTER: &[u8] = b"character";

const INTEGER: &[u8] = b"integer";

const STRING: &[u8] = b"string";

// The formal of arrays.
const FORMAL: &[u8] = b"g";

/// A name.
fn name(alloc: Global, text: &[u8]) -> Result<NameAt, Memory>
    requires { str_to_ascii_lowercase text.now ≡ text.now }
    ensures { IfOk result (λ n. n ≡ form.named form.nowhere text.now) }
{
    Ok(NameAt {
        place: NOWHERE,
        name: Name::from_bytes(alloc, text)?,
    })
}

/// The type of that name, with that mark and no actuals.
fn marked_type(alloc: Global, mark: Mark, class: &[u8]) -> Result<TypeTree, Memory>
    requires { str_to_ascii_lowercase class.now ≡ class.now }
    ensures { IfOk result (λ t. type_view t
        ≡ tree.type_at form.nowhere form.nowhere mark class.now tree.no_types) }
{
    let name = Name::from_bytes(alloc, class)?;
    Ok(written_type(NOWHERE, NOWHERE, mark, name, Vec::new(alloc)))
}

/// The unmarked type of that name.
fn of_class(alloc: Global, class: &[u8]) -> Result<TypeTree, Memory>
    requires { str_to_ascii_lowercase class.now ≡ class.now }
    ensures { IfOk result (λ t. type_view t ≡ form.unmarked form.nowhere class.now) }
{
    marked_type(alloc, Mark::Plain, class)
}

/// An argument.
fn argument(alloc: Global, text: &[u8], type_tree: TypeTree) -> Result<Group, Memory>
    requires { str_to_ascii_lowercase text.now ≡ text.now }
    ensures { IfOk result (λ g. group_view g
        ≡ form.argument (form.named form.nowhere text.now) (type_view type_tree)) }
{
    let names = vec![in alloc; name(alloc, text)?]?;
    Ok(written_group(names, type_tree))
}

/// A routine that is built in.
fn built_in(
    alloc: Global,
    text: &[u8],
    arguments: Vec<Group>,
    result_type: Option<TypeTree>,
) -> Result<FeatureDecl, Memory>
    requires { str_to_ascii_lowercase text.now ≡ text.now }
    ensures { IfOk result (λ d. decl_view d ≡ form.declared
        (form.named form.nowhere text.now)
        (map group_view arguments.items)
        (option_map type_view result_type)
        (tree.routine [] tree.no_inss)) }
{
    Ok(written_decl(
        vec![in alloc; name(alloc, text)?]?,
        arguments,
        result_type,
        routine(Vec::new(alloc), Vec::new(alloc)),
        Vec::new(alloc),
        Vec::new(alloc),
    ))
}

/// A query without arguments that is built in.
fn query(alloc: Global, text: &[u8], class: &[u8]) -> Result<FeatureDecl, Memory>
    requires name { str_to_ascii_lowercase text.now ≡ text.now }
    requires class { str_to_ascii_lowercase class.now ≡ class.now }
    ensures { IfOk result (λ d. decl_view d ≡ form.declared
        (form.named form.nowhere text.now)
        []
        (Some (form.unmarked form.nowhere class.now))
        (tree.routine [] tree.no_inss)) }
{
    let result_type = of_class(alloc, class)?;
    built_in(alloc, text, Vec::new(alloc), Some(result_type))
}

/// A procedure without arguments that is built in.
fn procedure(alloc: Global, text: &[u8]) -> Result<FeatureDecl, Memory>
    requires { str_to_ascii_lowercase text.now ≡ text.now }
    ensures { IfOk result (λ d. decl_view d ≡ form.declared
        (form.named form.nowhere text.now)
        []
        None
        (tree.routine [] tree.no_inss)) }
{
    built_in(alloc, text, Vec::new(alloc), None)
}

/// A procedure with one argument that is built in.
fn procedure_on(
    alloc: Global,
    text: &[u8],
    argument_name: &[u8],
    type_tree: TypeTree,
) -> Result<FeatureDecl, Memory>
    requires name { str_to_ascii_lowercase text.now ≡ text.now }
    requires argument { str_to_ascii_lowercase argument_name.now ≡ argument_name.now }
    ensures { IfOk result (λ d. decl_view d ≡ form.declared
        (form.named form.nowhere text.now)
        (form.argument (form.named form.nowhere argument_name.now) (type_view type_tree) ∷ [])
        None
        (tree.routine [] tree.no_inss)) }
{
    let arguments = vec![in alloc; argument(alloc, argument_name, type_tree)?]?;
    built_in(alloc, text, arguments, None)
}

/// `i: INTEGER`.
fn index(alloc: Global) -> Result<Group, Memory>
    ensures { IfOk result (λ g. group_view g ≡ form.argument
        (form.named form.nowhere (codes "i"))
        (form.unmarked form.nowhere (codes "integer"))) }
{
    argument(alloc, b"i", of_class(alloc, INTEGER)?)
}

/// `item (i: INTEGER)`, of the class.
fn item(alloc: Global, class: &[u8]) -> Result<FeatureDecl, Memory>
    requires { str_to_ascii_lowercase class.now ≡ class.now }
    ensures { IfOk result (λ d. decl_view d ≡ form.declared
        (form.named form.nowhere (codes "item"))
        (form.argument
        (form.named form.nowhere (codes "i"))
        (form.unmarked form.nowhere (codes "integer")) ∷ [])
        (Some (form.unmarked form.nowhere class.now))
        (tree.routine [] tree.no_inss)) }
{
    let arguments = vec![in alloc; index(alloc)?]?;
    built_in(alloc, b"item", arguments, Some(of_class(alloc, class)?))
}

/// One part of creators that anyone may use.
fn created_by(alloc: Global, names: Vec<NameAt>) -> Result<Vec<CreatorPart>, Memory>
    ensures { IfOk result (λ v. map creators_view v.items ≡ form.created_by names.items) }
{
    let clients = written_clients(false, Vec::new(alloc));
    Ok(vec![in alloc; written_creators(clients, names)]?)
}

/// One clause of features that anyone may use.
fn with_features(alloc: Global, decls: Vec<FeatureDecl>) -> Result<Vec<FeatureClause>, Memory>
    ensures { IfOk result (λ v. map features_view v.items
        ≡ form.with_features (map decl_view decls.items)) }
{
    let clients = written_clients(false, Vec::new(alloc));
    Ok(vec![in alloc; written_features(clients, decls)]?)
}

/// A class without parents.
fn class_with(
    alloc: Global,
    class: &[u8],
    formals: Vec<FormalTree>,
    creators: Vec<CreatorPart>,
    features: Vec<FeatureClause>,
) -> Result<ClassTree, Memory>
    requires { str_to_ascii_lowercase class.now ≡ class.now }
    ensures { IfOk result (λ c. class_view c ≡ record (form.bare_class form.nowhere class.now) {
      formals = map formal_view formals.items;
      creators = map creators_view creators.items;
      features = map features_view features.items;
    }) }
{
    Ok(written_class(
        NOWHERE,
        Name::from_bytes(alloc, class)?,
        false,
        formals,
        Vec::new(alloc),
        creators,
        features,
        Vec::new(alloc),
    ))
}

/// A class with nothing in it.
fn bare_class(alloc: Global, class: &[u8]) -> Result<ClassTree, Memory>
    requires { str_to_ascii_lowercase class.now ≡ class.now }
    ensures { IfOk result (λ c. class_view c ≡ form.bare_class form.nowhere class.now) }
{
    class_with(
        alloc,
        class,
        Vec::new(alloc),
        Vec::new(alloc),
        Vec::new(alloc),
    )
}

/// The routines of ANY.
fn any_routines(alloc: Global) -> Result<Vec<FeatureDecl>, Memory>
    ensures { IfOk result (λ v. form.with_features (map decl_view v.items)
        ≡ the.any_class.features) }
{
    let printed = marked_type(alloc, Mark::Detachable, ANY)?;
    Ok(vec![in alloc;
        procedure(alloc, b"default_create")?,
        query(alloc, b"out", STRING)?,
        procedure_on(alloc, b"print", b"o", printed)?,
    ]?)
}

/// The class ANY.
fn any_class(alloc: Global) -> Result<ClassTree, Memory>
    ensures { IfOk result (λ c. class_view c ≡ the.any_class) }
{
    let creators = vec![in alloc; name(alloc, b"default_create")?]?;
    let routines = any_routines(alloc)?;
    class_with(
        alloc,
        ANY,
        Vec::new(alloc),
        created_by(alloc, creators)?,
        with_features(alloc, routines)?,
    )
}

/// The class CHARACTER.
fn character_class(alloc: Global) -> Result<ClassTree, Memory>
    ensures { IfOk result (λ c. class_view c ≡ the.character_class) }
{
    let features = vec![in alloc; query(alloc, b"code", INTEGER)?]?;
    class_with(
        alloc,
        CHARACTER,
        Vec::new(alloc),
        Vec::new(alloc),
        with_features(alloc, features)?,
    )
}

/// The routines of STRING.
fn string_routines(alloc: Global) -> Result<Vec<FeatureDecl>, Memory>
    ensures { IfOk result (λ v. form.with_features (map decl_view v.items)
        ≡ the.string_class.features) }
{
    let appended = of_class(alloc, STRING)?;
    Ok(vec![in alloc;
        procedure(alloc, b"make_empty")?,
        query(alloc, b"count", INTEGER)?,
        query(alloc, b"is_empty", BOOLEAN)?,
        item(alloc, CHARACTER)?,
        procedure_on(alloc, b"append", b"s", appended)?,
    ]?)
}

/// The class STRING.
fn string_class(alloc: Global) -> Result<ClassTree, Memory>
    ensures { IfOk result (λ c. class_view c ≡ the.string_class) }
{
    let creators = vec![in alloc;
        name(alloc, b"default_create")?,
        name(alloc, b"make_empty")?,
    ]?;
    let routines = string_routines(alloc)?;
    class_with(
        alloc,
        STRING,
        Vec::new(alloc),
        created_by(alloc, creators)?,
        with_features(alloc, routines)?,
    )
}

/// `v: G`.
fn value(alloc: Global) -> Result<Group, Memory>
    ensures { IfOk result (λ g. group_view g ≡ form.argument
        (form.named form.nowhere (codes "v"))
        (form.unmarked form.nowhere (codes "g"))) }
{
    argument(alloc, b"v", of_class(alloc, FORMAL)?)
}

/// `lo, up: INTEGER`.
fn bounds(alloc: Global) -> Result<Group, Memory>
    ensures { IfOk result (λ g. group_view g ≡ record {
      names = form.named form.nowhere (codes "lo") ∷ form.named form.nowhere (codes "up") ∷ [];
      type_tree = form.unmarked form.nowhere (codes "integer");
    }) }
{
    let names = vec![in alloc; name(alloc, b"lo")?, name(alloc, b"up")?]?;
    Ok(written_group(names, of_class(alloc, INTEGER)?))
}

/// A procedure with these two groups of arguments that is built in.
fn procedure_on_both(
    alloc: Global,
    text: &[u8],
    first: Group,
    second: Group,
) -> Result<FeatureDecl, Memory>
    requires { str_to_ascii_lowercase text.now ≡ text.now }
    ensures { IfOk result (λ d. decl_view d ≡ form.declared
        (form.named form.nowhere text.now)
        (group_view first ∷ group_view second ∷ [])
        None
        (tree.routine [] tree.no_inss)) }
{
    built_in(alloc, text, vec![in alloc; first, second]?, None)
}

/// The routines of ARRAY.
fn array_routines(alloc: Global) -> Result<Vec<FeatureDecl>, Memory>
    ensures { IfOk result (λ v. form.with_features (map decl_view v.items)
        ≡ the.array_class.features) }
{
    let make_filled = procedure_on_both(alloc, b"make_filled", value(alloc)?, bounds(alloc)?)?;
    let put = procedure_on_both(alloc, b"put", value(alloc)?, index(alloc)?)?;
    Ok(vec![in alloc;
        make_filled,
        item(alloc, FORMAL)?,
        put,
        query(alloc, b"count", INTEGER)?,
        query(alloc, b"lower", INTEGER)?,
        query(alloc, b"upper", INTEGER)?,
    ]?)
}

/// The class ARRAY.
fn array_class(alloc: Global) -> Result<ClassTree, Memory>
    ensures { IfOk result (λ c. class_view c ≡ the.array_class) }
{
    let formal = written_formal(NOWHERE, Name::from_bytes(alloc, FORMAL)?, None);
    let creators = vec![in alloc; name(alloc, b"make_filled")?]?;
    let routines = array_routines(alloc)?;
    class_with(
        alloc,
        ARRAY,
        vec![in alloc; formal]?,
        created_by(alloc, creators)?,
        with_features(alloc, routines)?,
    )
}

/// The classes that are there before any is given, in the order of their numbers.
#[tactic(auto, unfolding(eif_system::specs::Kernel::kernel))]
pub fn kernel_trees(alloc: Global) -> Result<Vec<ClassTree>, Memory>
    ensures { IfOk result (λ v. map class_view v.items ≡ the.kernel) }
{
    Ok(vec![in alloc;
        any_class(alloc)?,
        bare_class(alloc, INTEGER)?,
        bare_class(alloc, BOOLEAN)?,
        character_class(alloc)?,
        string_class(alloc)?,
        array_class(alloc)?,
    ]?)
}
