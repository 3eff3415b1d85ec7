//! Laws of runs: of values, objects and the heap, of literals, operators and built-in bodies. A law is
//! a clause of a function that does nothing; its proof serves other crates as a lemma.
#![tactic(auto)]

ghost use Rattle.eif_run_laws.specs.BuiltInLaws.{BuiltInsAnswer};
ghost use Rattle.eif_run_laws.specs.HolderLaws.{FittingStays, StartFits, HeapStays, ObjectsStay, ObjectsAreMade};
ghost use Rattle.eif_run_laws.specs.OperatorLaws.{LiteralsGive, OperatorsGive, BasicValues};

/// What fits a type goes on to fit it while the heap grows, and fits the types to which that conforms;
/// what a holder begins with fits it.
pub fn fitting_stays()
    ensures stays { FittingStays }
    ensures start { StartFits }
{}

/// A new object, another value in a field, and other content leave a heap sound, and objects in their
/// places; each value but Void is an object of a class that may have instances.
pub fn heap_stays()
    ensures heap { HeapStays }
    ensures objects { ObjectsStay }
    ensures made { ObjectsAreMade }
{}

/// What fits a basic class is a basic value of it, and what fits STRING is a STRING.
pub fn basic_values()
    ensures { BasicValues }
{}

/// A literal gives a value of its type.
pub fn literals_give()
    ensures { LiteralsGive }
{}

/// Operators on operands that fit do not go wrong, and give a value of their type.
pub fn operators_give()
    ensures { OperatorsGive }
{}

/// A built-in body on an object of its class, with arguments that fit, does not go wrong, and answers
/// what its result type says, where calls of `out` through ANY do.
pub fn built_ins_answer()
    ensures { BuiltInsAnswer }
{}
