//! Conformance. Types are compared in place, and nothing is built.

ghost use Rattle.std.specs.Prelude.{◌≡◌, List};
ghost use Rattle.eif_classes.specs.Ancestry.{ancestor};
ghost use Rattle.eif_classes.specs.Conformance as the;
ghost use Rattle.eif_classes.specs.Types as types;
ghost use Rattle.eif_tree.specs.Tree.{ClassT};
ghost use Rattle.eif_type_forms.specs.View.{ty_view, actuals_view};
ghost use Rattle.eif_types.specs.TypeTables.{AreTypesOf};

use crate::types::Types;
use eif_base::ClassId;
use eif_tree::Mark;
use eif_type_forms::{Ty, mark_conforms, marked_mark, same_puts};

impl Types {
    // Whether the actuals of the class j, as the class k with the first actuals gives them, are the second.
    fn gives(&self, k: ClassId, j: ClassId, actuals: &[Ty], others: &[Ty]) -> bool
        ensures { (u : List ClassT) → AreTypesOf u self.now → result
            ≡ the.gives (ancestor u k.0 j.0) (actuals_view actuals.now) (actuals_view others.now) }
    {
        match self.derivations.given(k, j) {
            Some(given) => same_puts(given, actuals, others),
            None => false,
        }
    }

    // Whether the first type, with the mark put over it, conforms to the second, both as class types.
    fn class_conforms(&self, mark: Mark, a: &Ty, b: &Ty) -> bool
        ensures { (u : List ClassT) → AreTypesOf u self.now → result
            ≡ the.class_conforms (ancestor u) (types.marked mark (ty_view a.now)) (ty_view b.now) }
    {
        match a {
            Ty::Class {
                class_id,
                mark: own,
                actuals,
            } => match b {
                Ty::Class {
                    class_id: other_id,
                    mark: other_mark,
                    actuals: others,
                } => {
                    mark_conforms(marked_mark(mark, *own), *other_mark)
                        && self.gives(*class_id, *other_id, actuals, others)
                }
                _ => false,
            },
            _ => false,
        }
    }

    // Whether the formal of the class conforms to the type there.
    fn formal_conforms(&self, context: ClassId, index: u32, mark: Mark, b: &Ty) -> bool
        ensures { (u : List ClassT) → AreTypesOf u self.now → result
            ≡ the.conforms u context.0 (types.formal_type index mark) (ty_view b.now) }
    {
        let Some(constraint) = self.constraint(context, index) else {
            return false;
        };
        match b {
            Ty::Formal {
                index: other,
                mark: other_mark,
            } => index == *other && mark_conforms(mark, *other_mark),
            Ty::Class { .. } => self.class_conforms(mark, constraint, b),
            Ty::Nothing => false,
        }
    }

    // Whether NONE conforms to the type in the class.
    fn is_open(&self, context: ClassId, b: &Ty) -> bool
        ensures { (u : List ClassT) → AreTypesOf u self.now → result
            ≡ the.conforms u context.0 types.none_type (ty_view b.now) }
    {
        match b {
            Ty::Class { mark, .. } => matches!(*mark, Mark::Detachable),
            Ty::Formal { index, mark } => {
                self.constraint(context, *index).is_some() && matches!(*mark, Mark::Detachable)
            }
            Ty::Nothing => false,
        }
    }

    /// Whether the first type conforms to the second in the class.
    pub fn conforms(&self, context: ClassId, a: &Ty, b: &Ty) -> bool
        ensures { (u : List ClassT) → AreTypesOf u self.now
            → result ≡ the.conforms u context.0 (ty_view a.now) (ty_view b.now) }
    {
        match a {
            Ty::Class { .. } => self.class_conforms(Mark::Plain, a, b),
            Ty::Formal { index, mark } => self.formal_conforms(context, *index, *mark, b),
            Ty::Nothing => self.is_open(context, b),
        }
    }
}
