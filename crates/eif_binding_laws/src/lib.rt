//! Laws of dynamic binding: what a name of an ancestor is bound to, and that its signature stays. A
//! law is a clause of a function that does nothing; its proof serves other crates as a lemma.
#![tactic(auto)]

ghost use Rattle.eif_binding_laws.specs.BoundNames.{UnnamedIsUnbound, NamedIsBound};
ghost use Rattle.eif_binding_laws.specs.Creation.{CreatorsAreProcedures, DefaultIsBound, RootIsCreator};
ghost use Rattle.eif_binding_laws.specs.KeptSignatures.{BindingKeepsSignatures, BindingKeepsFields, NamesAreServed};
ghost use Rattle.eif_binding_laws.specs.Precursors.{PrecursorsServe};
ghost use Rattle.eif_binding_laws.specs.Origins.{SignaturesAreDeclared, SignaturesAreFormed, NamesHaveVersions};

/// In a class each name of an ancestor is bound to a name of the class, and nothing else is bound.
pub fn names_are_bound()
    ensures unnamed { UnnamedIsUnbound }
    ensures named { NamedIsBound }
{}

/// The signature of a name is what a declaration of the class or of an ancestor writes, with what the
/// class gives the ancestor put in; its types are types of the class. The version of the name, if it
/// has one, is that declaration; in a class that isn't deferred it has one.
pub fn signatures_are_declared()
    ensures declared { SignaturesAreDeclared }
    ensures formed { SignaturesAreFormed }
    ensures versions { NamesHaveVersions }
{}

/// What a name of an ancestor is bound to has equal arguments and a conforming result; a field is
/// bound to a field of the same type.
pub fn binding_keeps_signatures()
    ensures signatures { BindingKeepsSignatures }
    ensures fields { BindingKeepsFields }
{}

/// On objects of a class that isn't deferred each name of each ancestor has a version that serves
/// calls of the name's signature.
pub fn names_are_served()
    ensures { NamesAreServed }
{}

/// The version that `Precursor` stands for serves the signature with which the text sees it.
pub fn precursors_serve()
    ensures { PrecursorsServe }
{}

/// Creators have no result, each class has a name for ANY's `default_create`, and the root procedure is
/// a creator of the root class without arguments.
pub fn creators_are_procedures()
    ensures creators { CreatorsAreProcedures }
    ensures default { DefaultIsBound }
    ensures root { RootIsCreator }
{}
