use eif_base::{ClassId, FeatId};

/// Where the version of a name comes from: nowhere, or from what a class declares, under the number
/// that its name has there.
#[derive(Clone, Copy)]
pub enum Origin {
    Deferred,
    Declared { class_id: ClassId, feat: FeatId },
}
