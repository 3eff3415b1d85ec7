use crate::name::Name;

/// Where a run begins: the root class is created by the root procedure.
#[derive(Debug, Drop)]
pub struct Root {
    pub class_name: Name,
    pub procedure_name: Name,
}
