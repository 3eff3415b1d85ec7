ghost use Rattle.eif_grammar_laws.specs.BrokenForms.{BrokenForms};
ghost use Rattle.eif_grammar_laws.specs.Examples.{WorkedTexts};

/// Class texts of a few lines, byte by byte: their tokens are those of the trees that are given
/// beside them.
pub fn worked_texts()
    ensures { WorkedTexts }
{}

/// Forms that break off are refused at the first token that fits none of their kind. So is an
/// operator behind an operand that is as high as the whole may be, as in a sum that is too long.
pub fn broken_forms()
    ensures { BrokenForms }
{}
