//! What the trees of class texts have by the grammar alone. A law is a clause of a function that does
//! nothing; its proof serves other crates as a lemma.
#![tactic(auto)]

ghost use Rattle.eif_spelled_laws.specs.SpelledTexts.{ClassTextsAreSpelled, KernelIsSpelled};

/// The tree of a class text names nothing `Result`, its routines have one name, its fields have types
/// and no arguments, and its operators have the operands that they take.
pub fn class_texts_are_spelled()
    ensures { ClassTextsAreSpelled }
{}

/// So do the trees of the kernel's classes.
pub fn kernel_is_spelled()
    ensures { KernelIsSpelled }
{}
