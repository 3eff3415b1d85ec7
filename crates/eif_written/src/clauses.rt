//! The parent clauses of a class.

ghost use Rattle.std.specs.Prelude.{◌≡◌, ◌∷◌, [], map, IfOk};
ghost use Rattle.eif_system.specs.Inheritance.{any_clause, clauses};
ghost use Rattle.eif_tree.specs.View.{class_view, parent_view};

use eif_base::{Memory, NO_FILE, Name, Place};
use eif_tree::builders::written_type;
use eif_tree::class_builders::written_parent;
use eif_tree::{ClassTree, Mark, ParentClause};
use std::alloc::Global;

/// Where a clause stands that no text has.
const NOWHERE: Place = Place {
    file: NO_FILE,
    offset: 0,
    line: 0,
    column: 0,
};

/// The parent clause `ANY`, which stands for the clauses of a class that writes none.
pub fn any_clauses(alloc: Global) -> Result<Vec<ParentClause>, Memory>
    ensures { IfOk result (λ v. map parent_view v.items ≡ any_clause ∷ []) }
{
    let name = Name::from_bytes(alloc, b"any")?;
    let any = written_type(NOWHERE, NOWHERE, Mark::Plain, name, Vec::new(alloc));
    let clause = written_parent(
        any,
        Vec::new(alloc),
        Vec::new(alloc),
        Vec::new(alloc),
        Vec::new(alloc),
        Vec::new(alloc),
    );
    Ok(vec![in alloc; clause]?)
}

/// The clauses of the class as written, or `any` where there is none and the class is not ANY.
pub fn clauses_of<'u>(class: &'u ClassTree, any: &'u [ParentClause]) -> &'u [ParentClause]
    requires { map parent_view any.now ≡ any_clause ∷ [] }
    ensures { map parent_view result.now ≡ clauses (class_view class.now) }
{
    if !class.parents.is_empty() {
        &class.parents
    } else if class.name.text() == b"any".as_slice() {
        &any[..0]
    } else {
        any
    }
}
