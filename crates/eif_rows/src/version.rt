use crate::declaration_id::DeclarationId;

/// Where the version of a name comes from: nowhere, or from the declaration of an attribute, or of a
/// routine. A constant is a routine.
#[derive(Clone, Copy)]
pub enum Version {
    Deferred,
    Attribute(DeclarationId),
    Routine(DeclarationId),
}

impl Version {
    ghost use Rattle.std.specs.Prelude.{◌≡◌};
    ghost use Rattle.eif_rows.specs.Versions as versions;

    /// Whether there is none.
    pub fn is_deferred(self) -> bool
        ensures { result ≡ versions.is_deferred_version self }
    {
        match self {
            Version::Deferred => true,
            Version::Attribute(_) | Version::Routine(_) => false,
        }
    }

    /// Whether it is an attribute.
    pub fn is_attribute(self) -> bool
        ensures { result ≡ versions.is_attribute_version self }
    {
        match self {
            Version::Attribute(_) => true,
            Version::Deferred | Version::Routine(_) => false,
        }
    }

    /// The declaration that it comes from.
    pub fn declaration(self) -> Option<DeclarationId>
        ensures { result ≡ versions.declaration_id self }
    {
        match self {
            Version::Deferred => None,
            Version::Attribute(id) | Version::Routine(id) => Some(id),
        }
    }

    /// Whether both come from one declaration, or both from none.
    pub fn is_same(self, other: Version) -> bool
        ensures { result ≡ versions.same_declaration (versions.declaration_id self)
            (versions.declaration_id other) }
    {
        match (self.declaration(), other.declaration()) {
            (None, None) => true,
            (Some(one), Some(two)) => one == two,
            _ => false,
        }
    }
}
