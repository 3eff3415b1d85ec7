//! Laws of types: substitution, the actuals of ancestors, conformance and attachment. A law is a
//! clause of a function that does nothing; its proof serves other crates as a lemma.
#![tactic(auto)]

ghost use Rattle.eif_type_laws.specs.TypeLaws.{SubstitutionComposes, AncestryComposes, AncestryIsOfTheClass, ConformanceIsReflexive, ConformanceIsTransitive, SubstitutionKeepsConformance, SubstitutionKeepsValidity, AncestryIsValid, AncestryIsDefined, ConformanceKeepsAttachment, SubstitutionKeepsAttachment};
ghost use Rattle.eif_type_laws.specs.ClosedTypes.{ClosedConformance, ClosedValidity, SubstitutionClosesConformance};
ghost use Rattle.eif_type_laws.specs.WholeUniverses.{UniverseIsHierarchy, WrittenTypesAreOfTheClass, UniverseIsDefined, ClausesAreValid, WrittenTypesAreValid, ConstraintsAreValid};

/// Actuals put in after actuals are the first ones with the second put in, put in at once.
pub fn substitution_composes()
    ensures { SubstitutionComposes }
{}

/// What a class gives an ancestor's ancestor is what the ancestor gives it, with what the class gives
/// the ancestor put in.
pub fn ancestry_composes()
    ensures { AncestryComposes }
{}

/// What a class gives an ancestor are types of the class, as many as the ancestor has formals.
pub fn ancestry_is_of_the_class()
    ensures { AncestryIsOfTheClass }
{}

/// Every type but NONE conforms to itself.
pub fn conformance_is_reflexive()
    ensures { ConformanceIsReflexive }
{}

/// Where what classes give their ancestors is defined, conformance is transitive.
pub fn conformance_is_transitive()
    ensures { ConformanceIsTransitive }
{}

/// Actuals that meet the constraints keep conformance.
pub fn substitution_keeps_conformance()
    ensures { SubstitutionKeepsConformance }
{}

/// Actuals that meet the constraints, put in a valid type, give a valid type.
pub fn substitution_keeps_validity()
    ensures { SubstitutionKeepsValidity }
{}

/// Where parent clauses are valid, what classes give their ancestors is valid and meets the
/// ancestors' constraints.
pub fn ancestry_is_valid()
    ensures { AncestryIsValid }
{}

/// What conforms to an attached type is attached.
pub fn conformance_keeps_attachment()
    ensures { ConformanceKeepsAttachment }
{}

/// An attached type stays attached.
pub fn substitution_keeps_attachment()
    ensures { SubstitutionKeepsAttachment }
{}

/// Where no class breaks a rule of derivations, what classes give their ancestors is defined.
pub fn ancestry_is_defined()
    ensures { AncestryIsDefined }
{}

/// Types without formals conform to one another, and are valid, in any class alike; put in the types
/// of a class whose constraints they meet, they keep conformance.
pub fn closed_types()
    ensures conformance { ClosedConformance }
    ensures validity { ClosedValidity }
    ensures substitution { SubstitutionClosesConformance }
{}

/// Where no rule of the universe is broken, its classes are a hierarchy in any order of inheritance,
/// and each written type means a type of its class.
pub fn universe_is_hierarchy()
    ensures hierarchy { UniverseIsHierarchy }
    ensures types { WrittenTypesAreOfTheClass }
{}

/// Where no rule of the universe and none of derivations is broken, what classes give their ancestors
/// is defined, and parent clauses, written types and constraints are valid.
pub fn universe_is_valid()
    ensures defined { UniverseIsDefined }
    ensures clauses { ClausesAreValid }
    ensures types { WrittenTypesAreValid }
    ensures constraints { ConstraintsAreValid }
{}
