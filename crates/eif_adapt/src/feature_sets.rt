ghost use Rattle.std.specs.Prelude.{◌≡◌, List, [], ◌∷◌, ◌++◌, map, IfOk, OnOk};
ghost use Rattle.eif_adapt.specs.Adaptations.{feature_view};
ghost use Rattle.eif_adapt.specs.FeatureSets.{AreSetsOf};
ghost use Rattle.eif_classes.specs.Names as the;
ghost use Rattle.eif_feature_rules.specs.ParentFeatures as rules;
ghost use Rattle.eif_tree.specs.Tree.{ParentT};
ghost use Rattle.eif_tree.specs.View.{parent_view};

use crate::indexed_clause::IndexedClause;
use crate::parent_feature::{ParentFeature, ParentState};
use eif_base::{Memory, Name, NameSet};
use std::alloc::Global;

/// The names of the features of a clause's class: those that they have there, and of all, of the
/// attributes and of the deferred ones those in the heir.
#[derive(Drop)]
pub(crate) struct FeatureSets {
    pub parents: NameSet,
    pub finals: NameSet,
    pub attributes: NameSet,
    pub deferred: NameSet,
}

impl FeatureSets {
    /// Adds a feature that has this name in the heir.
    fn add(&mut self, feature: &ParentFeature, final_name: &Name) -> Result<(), Memory>
        ensures { OnOk result ((p : ParentT) (fs : List rules.ParentFeature)
            → final_name.now ≡ the.final_name p feature.now.name
            → AreSetsOf p fs self.old → AreSetsOf p (fs ++ feature_view feature.now ∷ []) self.new) }
    {
        self.parents.insert(&feature.name)?;
        self.finals.insert(final_name)?;
        match feature.state {
            ParentState::AttributeFeature => {
                self.attributes.insert(final_name)?;
                Ok(())
            }
            ParentState::DeferredFeature => {
                self.deferred.insert(final_name)?;
                Ok(())
            }
            ParentState::RoutineFeature => Ok(()),
        }
    }

    /// Those of these features, under the clause.
    pub fn of(
        alloc: Global,
        clause: &IndexedClause<'_>,
        features: &[ParentFeature],
    ) -> Result<FeatureSets, Memory>
        ensures { IfOk result (AreSetsOf (parent_view clause.now.tree.now)
            (map feature_view features.now)) }
    {
        let mut sets = FeatureSets {
            parents: NameSet::new(alloc),
            finals: NameSet::new(alloc),
            attributes: NameSet::new(alloc),
            deferred: NameSet::new(alloc),
        };
        'features: for feature in features {
            sets.add(feature, clause.final_name(&feature.name))?;
        }
        Ok(sets)
    }
}
