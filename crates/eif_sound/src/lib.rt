//! What the rules say of the runs of a system. A law is a clause of a function that does nothing; its
//! proof serves other crates as a lemma.
#![tactic(auto)]

ghost use Rattle.eif_sound.specs.LawfulSystems.{ValidSystemsAreLawful};
ghost use Rattle.eif_sound.specs.Sound.{Sound};

/// The classes of a system that breaks no rule are as runs ask: types, features, creation and bodies
/// keep their laws, and the root procedure may run.
pub fn valid_systems_are_lawful()
    ensures { ValidSystemsAreLawful }
{}

/// No run of a system whose classes and root break no rule calls a feature on Void, reads an unset
/// entity, meets an object without the called feature, or branches on what is no BOOLEAN, with whatever
/// bound on the levels of calls and the turns of loops.
pub fn sound()
    ensures { Sound }
{}
