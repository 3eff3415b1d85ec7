//! What is kept of a class that has no breach.

ghost use Rattle.std.specs.Prelude.{◌≡◌, [], ◌<◌, ◌^◌, ℕ, List, length, map, Some, IfOk};
ghost use Rattle.std.specs.List.{filter};
ghost use Rattle.eif_class_rows.specs.ClassRows.{IsJudged, row_version, feature_row};
ghost use Rattle.eif_classes.specs.Entries.{Feature};
ghost use Rattle.eif_classes.specs.Features.{is_field};
ghost use Rattle.eif_rows.specs.Matched.{Match};
ghost use Rattle.eif_rows.specs.Numbers.{names_of};
ghost use Rattle.eif_rows.specs.Rows.{IsRow};
ghost use Rattle.eif_rows.specs.Versions.{IsVersion};
ghost use Rattle.eif_tree.specs.Tree.{ClassT};

use crate::judged::Judged;
use eif_base::{FeatId, Memory};
use eif_heirs::FeatureDraft;
use eif_rows::{FeatureRow, Row, Version};
use std::alloc::Global;

/// The version, or none. Where a class has no breach no versions clash.
fn version_or_none(version: Option<Version>) -> Version
    ensures { result ≡ row_version version }
{
    match version {
        Some(version) => version,
        None => Version::Deferred,
    }
}

/// What is kept of the names of a class.
fn feature_rows(alloc: Global, drafts: Vec<FeatureDraft>) -> Result<Vec<FeatureRow>, Memory>
    ensures { IfOk result (λ v. v.items ≡ map feature_row drafts.items) }
{
    let mut rows = Vec::with_capacity(alloc, drafts.len())?;
    'drafts: for draft in drafts {
        rows.push(FeatureRow {
            version: version_or_none(draft.version),
            source: draft.source,
            clients: draft.clients,
            declared: draft.declared,
        })?;
    }
    Ok(rows)
}

/// The numbers of the features that are fields.
fn field_numbers(alloc: Global, features: &[FeatureRow]) -> Result<Vec<FeatId>, Memory>
    requires { length features.now < 2 ^ 32 }
    ensures { IfOk result (λ v. (u : List ClassT) (fs : List Feature)
        → Match (λ r f. IsVersion u r.version f.origin) features.now fs
        → names_of (map (λ f. f.name) fs) v.items
        ≡ map (λ f. Some f.name) (filter (λ f. is_field f.origin) fs)) }
{
    let mut fields = Vec::new(alloc);
    'features: for (i, feature) in features.iter().enumerate() {
        if feature.version.is_attribute() {
            fields.push(FeatId(i as u32))?;
        }
    }
    Ok(fields)
}

/// What is kept of the class, which has no breach.
pub fn class_row(alloc: Global, judged: Judged<'_>) -> Result<Row, Memory>
    requires names { length judged.heir.names.items < 2 ^ 32 }
    requires drafts { length judged.drafts.items < 2 ^ 32 }
    ensures { IfOk result (λ r. (u : List ClassT) (d : ℕ) → IsJudged u d judged.entry
        → judged.entry.faults ≡ [] → IsRow u d r) }
{
    let Judged {
        heir,
        drafts,
        choices,
        ..
    } = judged;
    let features = feature_rows(alloc, drafts)?;
    let fields = field_numbers(alloc, &features)?;
    Ok(Row {
        names: heir.names,
        features,
        fields,
        ancestors: choices.ancestors,
    })
}
