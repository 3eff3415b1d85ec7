use eif_base::{FeatId, NameId};

/// A name of a class: its number among all names, and its number in the class.
#[derive(Clone, Copy)]
pub struct RowEntry {
    pub name_id: NameId,
    pub feat: FeatId,
}
