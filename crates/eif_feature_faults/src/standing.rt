//! What the entries of a name are in the class.

ghost use Rattle.std.specs.Prelude.{◌≡◌, false, List, map, Some, IfSome, IfNone};
ghost use Rattle.std.specs.List.{list_any};
ghost use Rattle.eif_base.specs.Numbering.{is_among};
ghost use Rattle.eif_classes.specs.Entries as entries;
ghost use Rattle.eif_classes.specs.Features.{names};
ghost use Rattle.eif_feature_rules.specs.DeclarationRules as rules;
ghost use Rattle.eif_heirs.specs.Clauses.{ups_in, entry_at};
ghost use Rattle.eif_heirs.specs.Heirs.{AreSources, IsHeir};
ghost use Rattle.eif_system.specs.Lineage.{line_of};
ghost use Rattle.eif_tree.specs.Tree.{ClassT};
ghost use Rattle.eif_tree.specs.View.{class_view};

use eif_base::Name;
use eif_heirs::{EntryId, Heir, NameSources};
use eif_rows::find_name;

/// What the name of the class stands for.
pub(crate) fn sources_of<'h>(heir: &'h Heir<'_>, name: &Name) -> Option<&'h NameSources>
    ensures found { IfSome result (λ s. (u : List ClassT) → IsHeir u heir.now
        → AreSources u (class_view heir.now.tree.now) s.now name.now) }
    ensures none { IfNone result ((u : List ClassT) → IsHeir u heir.now
        → is_among (names (line_of u heir.now.class_id.0)) name.now ≡ false) }
{
    match find_name(&heir.names, name) {
        Some(i) => heir.sources.get(i),
        None => None,
    }
}

/// Whether one of the entries is effective and not undefined.
pub(crate) fn any_lasts(heir: &Heir<'_>, ids: &[EntryId]) -> bool
    ensures { (u : List ClassT) (es : List entries.Entry) → IsHeir u heir.now
        → map (entry_at (ups_in u (class_view heir.now.tree.now))) ids.now ≡ map Some es
        → result ≡ list_any entries.lasts es }
{
    'entries: for id in ids {
        if heir.lasts(*id) {
            return true;
        }
    }
    false
}

/// Whether one of the entries is effective, not undefined and not redefined.
pub(crate) fn any_kept(heir: &Heir<'_>, ids: &[EntryId]) -> bool
    ensures { (u : List ClassT) (es : List entries.Entry) → IsHeir u heir.now
        → map (entry_at (ups_in u (class_view heir.now.tree.now))) ids.now ≡ map Some es
        → result ≡ list_any rules.is_kept es }
{
    'entries: for id in ids {
        if heir.is_kept(*id) {
            return true;
        }
    }
    false
}
