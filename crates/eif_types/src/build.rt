//! The types of a universe that breaks no rule of derivations.

ghost use Rattle.std.specs.Prelude.{◌≡◌, ◌++◌, IfOk, IfErr, OnOk};
ghost use Rattle.eif_derivation_laws.specs.GivenDerivations.{actuals_by};
ghost use Rattle.eif_feature_rules.specs.FeaturePhases.{DerivationsBroken};
ghost use Rattle.eif_rows.specs.Systems.{IsSystem};
ghost use Rattle.eif_rules.specs.FaultForms.{IsNone};
ghost use Rattle.eif_types.specs.TypeTables.{AreTypes, AreTypesOf, IsErrorOf};
ghost use Rattle.eif_universe.specs.Universes.{classes_of, given_in};

use crate::actual_faults::Writer;
use crate::constraints::all_constraints;
use crate::types::Types;
use eif_base::{ClassId, FaultList, Memory};
use eif_derivations::Derivations;
use eif_universe::Universe;
use std::alloc::Global;

/// Why a universe has no types.
#[derive(Drop)]
pub enum TypeError {
    /// Its given classes break these rules of derivations.
    Faults(FaultList),
    /// There was not enough memory.
    Memory,
}

impl From<Memory> for TypeError {
    ghost use Rattle.std.specs.Prelude.{◌≡◌};
    ghost use Rattle.eif_types.specs.declared.build.TypeError.TheVariants as error;

    ghost from_gives = { λ _ r. r ≡ error.Memory };

    fn from(_error: Memory) -> TypeError {
        TypeError::Memory
    }
}

/// Adds the faults of the actuals that the classes write, class by class.
fn push_actual_faults(
    alloc: Global,
    u: &Universe,
    types: &Types,
    out: &mut FaultList,
) -> Result<(), Memory>
    requires { AreTypesOf (classes_of u.now) types.now }
    ensures { OnOk result (out.new ≡ out.old ++ actuals_by (classes_of u.now)) }
{
    'classes: for number in 0..u.class_count() {
        let class_id = ClassId(number);
        let writer = Writer {
            alloc,
            u,
            types,
            class_id,
            class: u.tree(class_id),
        };
        writer.push_faults(out)?;
    }
    Ok(())
}

impl Types {
    /// The types of the universe.
    pub fn build(alloc: Global, u: &Universe) -> Result<Types, TypeError>
        requires { IsSystem (classes_of u.now) }
        ensures types { IfOk result (AreTypes (classes_of u.now)) }
        ensures sound { OnOk result (IsNone (DerivationsBroken (given_in (classes_of u.now)))) }
        ensures faults { IfErr result (IsErrorOf (DerivationsBroken (given_in (classes_of u.now)))) }
    {
        let mut faults = FaultList::new(alloc);
        let derivations = Derivations::of(alloc, u, &mut faults)?;
        let constraints = all_constraints(alloc, u)?;
        let types = Types {
            derivations,
            constraints,
        };
        push_actual_faults(alloc, u, &types, &mut faults)?;
        if faults.is_empty() {
            Ok(types)
        } else {
            Err(TypeError::Faults(faults))
        }
    }
}
