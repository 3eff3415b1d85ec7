//! What bodies without faults say of each of their nodes. Each law is a clause of a function that does nothing.
#![tactic(auto)]

ghost use Rattle.eif_valid_bodies.specs.KnownStays.{KnownStays};
ghost use Rattle.eif_valid_bodies.specs.SetReads.{ReadsAreSet};
ghost use Rattle.eif_valid_bodies.specs.TestNames.{OwnTestsAreTold, TestsAreFree};
ghost use Rattle.eif_valid_bodies.specs.Valid.{NoFaultIsTyped};
ghost use Rattle.eif_valid_bodies.specs.ValidBodies.{NoFaultInBodies};
ghost use Rattle.eif_valid_bodies.specs.ValidCalls.{ValidArguments, ValidCalls};
ghost use Rattle.eif_valid_bodies.specs.ValidInstructions.{NoFaultIsValid, TestsStayTyped};
ghost use Rattle.eif_valid_bodies.specs.ValidNodes.{ValidLeaves, ValidNodes};

/// What names, calls and Precursor without faults say of their target, their arguments and their result.
pub fn valid_calls()
    ensures arguments { ValidArguments }
    ensures calls { ValidCalls }
{}

/// The same of literals, Void, Current and Result, and of creations, object tests and operators.
pub fn valid_nodes()
    ensures leaves { ValidLeaves }
    ensures nodes { ValidNodes }
{}

/// Where the object tests that are known are typed, an expression without faults has a type, and so
/// has each test that it tells of.
pub fn no_fault_is_typed()
    ensures { NoFaultIsTyped }
{}

/// The local of each object test in an expression without faults denotes nothing where the expression
/// stands, and no earlier test in it has its name; and an expression tells of its own tests alone.
pub fn tests_are_free()
    ensures free { TestsAreFree }
    ensures own { OwnTestsAreTold }
{}

/// Where no read is found unset, each read of a local or of Result is of one that is set.
pub fn reads_are_set()
    ensures { ReadsAreSet }
{}

/// In a body without faults each instruction is valid, by what is known and what is set where it stands.
pub fn no_fault_is_valid()
    ensures valid { NoFaultIsValid }
    ensures typed { TestsStayTyped }
{}

/// What is known before a condition without faults stays known behind it, and what is known before an
/// instruction but for the locals that it assigns; what is known in a loop is so at each turn.
pub fn known_stays()
    ensures { KnownStays }
{}

/// In a class without faults in its bodies each declaration has a valid body, and names for its
/// arguments and locals that are no features and differ.
pub fn no_fault_in_bodies()
    ensures { NoFaultInBodies }
{}
