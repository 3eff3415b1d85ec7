//! What runs ask of bodies holds where no rule up to those of derivations and none of bodies is broken.
//! A law is a clause of a function that does nothing; its proof serves other crates as a lemma.
#![tactic(auto)]

ghost use Rattle.eif_run_bodies.specs.LawfulBodies.{BodiesAreLawful};

/// A body that is written is valid, and its types are types of its class; what is built in is of the
/// kernel.
pub fn bodies_are_lawful()
    ensures { BodiesAreLawful }
{}
