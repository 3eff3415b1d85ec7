ghost use Rattle.std.specs.Prelude.{◌≡◌};
ghost use Rattle.eif_classes.specs.Conformance as conformance;
ghost use Rattle.eif_classes.specs.Types as types;
ghost use Rattle.eif_type_forms.specs.Marks.{mark_over};

use eif_tree::Mark;

/// Whether the marks are equal.
pub fn same_mark(one: Mark, two: Mark) -> bool
    ensures { result ≡ types.same_mark one two }
{
    match one {
        Mark::Plain => matches!(two, Mark::Plain),
        Mark::Attached => matches!(two, Mark::Attached),
        Mark::Detachable => matches!(two, Mark::Detachable),
    }
}

/// The mark of a type that gets a mark: a plain one leaves it its own.
pub fn marked_mark(mark: Mark, own: Mark) -> Mark
    ensures { result ≡ mark_over mark own }
{
    match mark {
        Mark::Plain => own,
        _ => mark,
    }
}

/// Whether a type with the first mark may stand where the second one is: attached, plain, detachable,
/// each for itself and for the later ones.
pub fn mark_conforms(one: Mark, two: Mark) -> bool
    ensures { result ≡ conformance.mark_conforms one two }
{
    match one {
        Mark::Attached => true,
        Mark::Plain => !matches!(two, Mark::Attached),
        Mark::Detachable => matches!(two, Mark::Detachable),
    }
}
