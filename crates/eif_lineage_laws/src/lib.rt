//! Laws of the lines of classes: what a class has by its parent clauses and whom it descends from.
//! A law is a clause of a function that does nothing; its proof serves other crates as a lemma.
#![tactic(auto)]

ghost use Rattle.eif_lineage_laws.specs.Lineages.{LinesUnfold, DescentIsReaching, AncestorsAreListed, AncestorsStandBefore};
ghost use Rattle.eif_lineage_laws.specs.Orders.{OrderExists};
ghost use Rattle.eif_lineage_laws.specs.Universes.{NamesDiffer, WrittenTypesAreNamed, ParentsAreClasses, ConstraintsNameNoFormal, UniverseHasOrder};

/// The line of a class stands over the lines of the classes of its parent clauses.
pub fn lines_unfold()
    ensures { LinesUnfold }
{}

/// A class descends from exactly those that the graph of parents leads to.
pub fn descent_is_reaching()
    ensures { DescentIsReaching }
{}

/// The proper ancestors of a class are listed by rising number, and stand before it in an order of
/// inheritance.
pub fn ancestors_are_listed()
    ensures listed { AncestorsAreListed }
    ensures before { AncestorsStandBefore }
{}

/// Classes of which none inherits from itself stand in some order of inheritance.
pub fn order_exists()
    ensures { OrderExists }
{}

/// Where no rule of the universe is broken, its classes differ in their names, each written type has
/// the name of a formal or of a class and as many actuals as that takes, each parent is a class, no
/// constraint names a formal, and the classes stand in some order of inheritance. That goes for the
/// kernel's classes too.
pub fn universe_is_whole()
    ensures names { NamesDiffer }
    ensures types { WrittenTypesAreNamed }
    ensures parents { ParentsAreClasses }
    ensures constraints { ConstraintsNameNoFormal }
    ensures order { UniverseHasOrder }
{}
