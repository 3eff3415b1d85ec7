//! Worked examples of what a system of classes is. An example is a clause of a function that does nothing.
#![tactic(auto)]

ghost use Rattle.eif_classes_laws.specs.AncestryExamples.{AncestryExamples, DescentExamples};
ghost use Rattle.eif_classes_laws.specs.BindingExamples.{VersionExamples, NoVersionExamples, FieldExamples};
ghost use Rattle.eif_classes_laws.specs.ClientExamples.{ClientExamples, AvailabilityExamples, CreatorExamples};
ghost use Rattle.eif_classes_laws.specs.ConformanceExamples.{ClassConformance, FormalConformance};
ghost use Rattle.eif_classes_laws.specs.FeatureExamples.{RenamedExamples, JoinedExamples, DeclaredExamples};
ghost use Rattle.eif_classes_laws.specs.SignatureExamples.{GenericExamples, MarkExamples, SourceExamples};
ghost use Rattle.eif_classes_laws.specs.TypeExamples.{WrittenExamples, FormalExamples, FormExamples};

/// The names of classes, their origins and their fields: renamed, joined, undefined, redeclared.
pub fn feature_examples()
    ensures renamed { RenamedExamples }
    ensures joined { JoinedExamples }
    ensures declared { DeclaredExamples }
{}

/// The names of an ancestor's feature in a class, and the one that dynamic binding uses: renamed,
/// selected, replicated.
pub fn binding_examples()
    ensures versions { VersionExamples }
    ensures none { NoVersionExamples }
    ensures fields { FieldExamples }
{}

/// Whom a feature is available to, by the class that declares it and by the export items on its way
/// to an heir; the creators of a class.
pub fn client_examples()
    ensures clients { ClientExamples }
    ensures availability { AvailabilityExamples }
    ensures creators { CreatorExamples }
{}

/// What written types mean, with formals and marks, and what substitution gives.
pub fn type_examples()
    ensures written { WrittenExamples }
    ensures formals { FormalExamples }
    ensures forms { FormExamples }
{}

/// What a class gives the formals of its ancestors: by several paths that agree, and that differ.
pub fn ancestry_examples()
    ensures ancestry { AncestryExamples }
    ensures descent { DescentExamples }
{}

/// Which types conform, in each case of conformance, and which do not.
pub fn conformance_examples()
    ensures classes { ClassConformance }
    ensures formals { FormalConformance }
{}

/// The signatures of names, with the actuals of parent clauses put in; which declaration counts.
pub fn signature_examples()
    ensures generic { GenericExamples }
    ensures marks { MarkExamples }
    ensures sources { SourceExamples }
{}
