use eif_base::ClassId;
use eif_signatures::{Signature, System};
use eif_tree::{ClassTree, ParentClause};

/// An entry of a name of a class, as the class sees it: its clause, whether it is an attribute in the
/// parent, whether it is effective there and not undefined, and its signature over the formals of the
/// class.
#[derive(Drop)]
pub struct SeenEntry<'u> {
    pub clause: &'u ParentClause,
    pub is_field: bool,
    pub lasts: bool,
    pub signature: Signature,
}

/// A class whose names are judged beside their entries, in its system, and its parent clauses: `ANY`
/// where it writes none.
#[derive(Clone, Copy)]
pub struct Heir<'u> {
    pub system: System<'u>,
    pub class_id: ClassId,
    pub class: &'u ClassTree,
    pub clauses: &'u [ParentClause],
}
