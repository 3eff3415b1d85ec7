//! What runs ask of features holds where no rule up to those of signatures is broken, and types are as
//! runs ask. A law is a clause of a function that does nothing; its proof serves other crates as a lemma.
#![tactic(auto)]

ghost use Rattle.eif_run_features.specs.LawfulFeatures.{FeaturesAreLawful};

/// On objects, dynamic binding finds for each feature what serves calls of its signature, and for each
/// field a field of its type; so does `Precursor`.
pub fn features_are_lawful()
    ensures { FeaturesAreLawful }
{}
