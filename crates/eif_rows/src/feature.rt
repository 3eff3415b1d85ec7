use crate::declaration_id::DeclarationId;
use crate::version::Version;
use eif_base::ClassId;

/// Where a class text declares a name first: the number of the features part, and that of the
/// declaration in the part, both from 0.
#[derive(Clone, Copy)]
pub struct DeclarationPlace {
    pub part: usize,
    pub place: usize,
}

/// What a class has under a name: the version, the declaration that gives the signature, the classes
/// to which and to whose heirs the feature is available, and where the class itself declares the
/// name, if it does.
#[derive(Drop)]
pub struct FeatureRow {
    pub version: Version,
    pub source: DeclarationId,
    pub clients: Vec<ClassId>,
    pub declared: Option<DeclarationPlace>,
}
