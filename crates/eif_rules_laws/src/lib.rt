//! Worked examples of the rules. An example is a clause of a function that does nothing.
#![tactic(auto)]

ghost use Rattle.eif_rules_laws.specs.UniverseExamples.{TypeExamples, FormalExamples, ParentExamples, ClassExamples, RootExamples};

/// For each rule of the universe a class text that breaks it, with exactly its fault, and one that
/// keeps it: the rules of written types, of formals, of parent clauses, of class names and of the
/// root. Of the greatest number of ancestors only what is counted is shown.
pub fn universe_examples()
    ensures types { TypeExamples }
    ensures formals { FormalExamples }
    ensures parents { ParentExamples }
    ensures classes { ClassExamples }
    ensures roots { RootExamples }
{}
