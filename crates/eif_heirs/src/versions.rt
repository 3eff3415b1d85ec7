//! Where the version and the signature of a name come from.

ghost use Rattle.std.specs.Prelude.{◌≡◌};
ghost use Rattle.std.specs.List.{list_all};
ghost use Rattle.std.specs.Option.{option_and_then};
ghost use Rattle.eif_heirs.specs.DraftParts as forms;
ghost use Rattle.eif_heirs.specs.EntryParts as parts;
ghost use Rattle.eif_tree.specs.View.{kind_view};

use crate::heir::{EntryId, Heir};
use eif_rows::{DeclarationId, Version};
use eif_tree::FeatureKind;

/// The version by a declaration of that kind.
pub(crate) fn declared_version(kind: &FeatureKind, id: DeclarationId) -> Version
    ensures { result ≡ forms.declared_version (kind_view kind.now) id }
{
    match kind {
        FeatureKind::Attribute => Version::Attribute(id),
        FeatureKind::DeferredBody => Version::Deferred,
        FeatureKind::Constant(_) | FeatureKind::Routine { .. } => Version::Routine(id),
    }
}

// The first of the entries that lasts.
fn first_lasting(heir: &Heir<'_>, entries: &[EntryId]) -> Option<EntryId>
    ensures { result ≡ parts.first_lasting heir.now entries.now }
{
    'entries: for entry in entries {
        if heir.is_lasting(*entry) {
            return Some(*entry);
        }
    }
    None
}

// Whether the entry has this version, if it lasts.
fn agrees(heir: &Heir<'_>, version: Version, entry: EntryId) -> bool
    ensures { result ≡ parts.agrees_at heir.now version entry }
{
    !heir.is_lasting(entry) || version.is_same(heir.version(entry))
}

// Whether all entries that last have this version.
fn all_agree(heir: &Heir<'_>, version: Version, entries: &[EntryId]) -> bool
    ensures { result ≡ list_all (parts.agrees_at heir.now version) entries.now }
{
    'entries: for entry in entries {
        if !agrees(heir, version, *entry) {
            return false;
        }
    }
    true
}

/// The one version of the entries that last: none where they differ.
pub(crate) fn joined_version(heir: &Heir<'_>, entries: &[EntryId]) -> Option<Version>
    ensures { result ≡ parts.joined_at heir.now entries.now }
{
    match first_lasting(heir, entries) {
        Some(first) => {
            let version = heir.version(first);
            if all_agree(heir, version, entries) {
                Some(version)
            } else {
                None
            }
        }
        None => Some(Version::Deferred),
    }
}

// The first entry that lasts, and else the first.
fn leading(heir: &Heir<'_>, entries: &[EntryId]) -> Option<EntryId>
    ensures { result ≡ parts.leading_at heir.now entries.now }
{
    match first_lasting(heir, entries) {
        Some(first) => Some(first),
        None => entries.first().copied(),
    }
}

// The declaration that gives the signature of the entry in its parent.
fn source(heir: &Heir<'_>, entry: EntryId) -> Option<DeclarationId>
    ensures { result ≡ parts.source_at heir.now entry }
{
    match heir.parent_row(entry) {
        Some(row) => Some(row.source),
        None => None,
    }
}

/// The declaration that gives the signature of a name with these entries.
pub(crate) fn leading_source(heir: &Heir<'_>, entries: &[EntryId]) -> Option<DeclarationId>
    ensures { result ≡ option_and_then (parts.source_at heir.now)
        (parts.leading_at heir.now entries.now) }
{
    match leading(heir, entries) {
        Some(entry) => source(heir, entry),
        None => None,
    }
}
