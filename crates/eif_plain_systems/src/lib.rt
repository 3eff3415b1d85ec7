//! What this version judges of bodies and creation is all that plain classes can break. A law is a clause
//! of a function that does nothing; its proof serves other crates as a lemma.
#![tactic(auto)]

ghost use Rattle.eif_plain_systems.specs.PlainSystems.{PlainSystemsAreValid};

/// A system without faults, whose classes are plain in this version, breaks no rule of the language.
pub fn plain_systems_are_valid()
    ensures { PlainSystemsAreValid }
{}
