//! The features of a class as the parent clauses of its heirs see them.

ghost use Rattle.std.specs.Prelude.{◌≡◌, map, IfOk};
ghost use Rattle.eif_adapt.specs.Adaptations.{feature_view, state_view};
ghost use Rattle.eif_heirs.specs.SeenFeatures.{seen_features, seen_state};

use eif_adapt::{ParentFeature, ParentState};
use eif_base::Memory;
use eif_rows::{Row, Version};
use std::alloc::Global;

// What a class has by a version.
fn parent_state(version: Version) -> ParentState
    ensures { state_view result ≡ seen_state version }
{
    match version {
        Version::Deferred => ParentState::DeferredFeature,
        Version::Attribute(_) => ParentState::AttributeFeature,
        Version::Routine(_) => ParentState::RoutineFeature,
    }
}

/// The features of the class with that row.
pub(crate) fn parent_features(alloc: Global, row: &Row) -> Result<Vec<ParentFeature>, Memory>
    ensures { IfOk result (λ fs. map feature_view fs.items
        ≡ seen_features row.now.names.items row.now.features.items) }
{
    let mut features = Vec::with_capacity(alloc, row.names.len())?;
    'names: for (name, feature) in row.names.iter().zip(&row.features) {
        features.push(ParentFeature {
            name: name.copy(alloc)?,
            state: parent_state(feature.version),
        })?;
    }
    Ok(features)
}
