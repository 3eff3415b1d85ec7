ghost use Rattle.eif_grammar_laws.specs.Laws.{TypeLaws, ExpressionLaws, CompoundLaws, ClassLaws};

/// Types, in every room from 1 on: each type that tokens begin with by the longest reading is read. What is
/// read is such a type, and the only one of all tokens that agree with these up to and with the
/// first that is left. Where the reading is refused, the tokens before begin a type within the room, and no
/// tokens that agree with these up to and with the first that is left begin with one; there is one such place.
pub fn type_laws()
    ensures { TypeLaws }
{}

/// The same of expressions, whose operators bind as their levels say.
pub fn expression_laws()
    ensures { ExpressionLaws }
{}

/// The same of instructions in a row, of which there may be none.
pub fn compound_laws()
    ensures { CompoundLaws }
{}

/// The same of class texts. And tokens are one class text at most; where the reading is refused or
/// leaves tokens, the tokens before those begin a class text, and no tokens that agree with these up to and
/// with the first that is left are one.
pub fn class_laws()
    ensures { ClassLaws }
{}
