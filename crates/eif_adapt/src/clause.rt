ghost use Rattle.std.specs.Prelude.{◌≡◌, map, IfOk};
ghost use Rattle.std.proofs.Props.{props};
ghost use Rattle.eif_adapt.specs.Adaptations.{adapted, entry_view, feature_view};
ghost use Rattle.eif_adapt.specs.FeatureSets.{AreSetsOf};
ghost use Rattle.eif_tree.specs.View.{parent_view};

use crate::adapted::AdaptedEntry;
use crate::feature_sets::FeatureSets;
use crate::indexed_clause::IndexedClause;
use crate::parent_feature::ParentFeature;
use eif_base::{Memory, Name};
use eif_tree::ParentClause;
use std::alloc::Global;

/// A parent clause of the class with that name, and the features of the clause's class.
#[derive(Drop)]
pub(crate) struct Clause<'c> {
    pub alloc: Global,
    pub class_name: &'c Name,
    pub indexed: IndexedClause<'c>,
    pub features: &'c [ParentFeature],
    pub sets: FeatureSets,
    ghost sets_are: { AreSetsOf (parent_view indexed.tree.now) (map feature_view features.now) sets } by { Prim.hlevel props },
}

impl<'c> Clause<'c> {
    pub fn new(
        alloc: Global,
        class_name: &'c Name,
        tree: &'c ParentClause,
        features: &'c [ParentFeature],
    ) -> Result<Clause<'c>, Memory>
        ensures class { IfOk result (λ c. c.class_name.now ≡ class_name.now) }
        ensures tree { IfOk result (λ c. c.indexed.tree.now ≡ tree.now) }
        ensures features { IfOk result (λ c. c.features.now ≡ features.now) }
    {
        let indexed = IndexedClause::new(alloc, tree)?;
        let sets = FeatureSets::of(alloc, &indexed, features)?;
        Ok(Clause {
            alloc,
            class_name,
            indexed,
            features,
            sets,
        })
    }

    /// What the clause makes of each feature.
    pub fn entries(&self) -> Result<Vec<AdaptedEntry>, Memory>
        ensures { IfOk result (λ es. map entry_view es.items
            ≡ map (adapted (parent_view self.now.indexed.tree.now))
            (map feature_view self.now.features.now)) }
    {
        let mut entries = Vec::with_capacity(self.alloc, self.features.len())?;
        'features: for feature in self.features {
            entries.push(self.indexed.entry(self.alloc, feature)?)?;
        }
        Ok(entries)
    }
}
