//! No run of a system whose classes keep the laws of a universe goes wrong. A law is a clause of a
//! function that does nothing; its proof serves other crates as a lemma.
#![tactic(auto)]

ghost use Rattle.std.specs.Prelude.{List};
ghost use Rattle.eif_tree.specs.Tree.{ClassT};
ghost use Rattle.eif_run_sound.specs.Bodies.{IsWrittenRoutine, Running};
ghost use Rattle.eif_run_sound.specs.ExpressionRuns.{ExpressionsKeep};
ghost use Rattle.eif_run_sound.specs.InstructionRuns.{CompoundsKeep};
ghost use Rattle.eif_run_sound.specs.Soundness.{BodiesRun, RunsAreSound};
ghost use Rattle.eif_run_sound.specs.UniverseLaws.{UniverseLaws};

/// Expressions without faults keep the invariant of a body, and give values of their types.
pub fn expressions_keep()
    ensures { (u : List ClassT) → UniverseLaws u → (r : Running u) → IsWrittenRoutine u r → ExpressionsKeep u r }
{}

/// Instructions without faults keep the invariant of a body, with what they make known and set.
pub fn compounds_keep()
    ensures { (u : List ClassT) → UniverseLaws u → (r : Running u) → IsWrittenRoutine u r → CompoundsKeep u r }
{}

/// Bodies with whatever bound on the levels of calls and the turns of loops do not go wrong, where
/// their arguments fit and the fields that they need are set.
pub fn bodies_run()
    ensures { BodiesRun }
{}

/// No run of a system whose classes keep the laws goes wrong, with whatever bound.
pub fn runs_are_sound()
    ensures { RunsAreSound }
{}
