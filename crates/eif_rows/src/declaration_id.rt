use eif_base::{ClassId, FeatId};

/// What a class declares under a name: the class, and the number that the name has there.
#[derive(Clone, Copy, Debug, PartialEq, Eq)]
pub struct DeclarationId {
    pub class_id: ClassId,
    pub feat: FeatId,
}
