ghost use Rattle.std.specs.Prelude.{◌≡◌, ◌++◌, OnOk};
ghost use Rattle.std.specs.Option.{option_to_list};
ghost use Rattle.eif_rows.specs.AncestorRows.{bound_at, reached_at};

use eif_base::{ClassId, FeatId, Memory};
use indexmap::IndexMap;

/// What becomes of the features of an ancestor in a class: for each of them the name that dynamic
/// binding uses, and all its names in rising order where these are not just that one.
#[derive(Drop)]
pub struct AncestorRow {
    pub class_id: ClassId,
    pub bound: Vec<Option<FeatId>>,
    pub several: IndexMap<u32, Vec<FeatId>>,
}

impl AncestorRow {
    /// The name that dynamic binding uses for the ancestor's feature.
    pub fn bound(&self, feat: FeatId) -> Option<FeatId>
        ensures { result ≡ bound_at self.now feat.0 }
    {
        match self.bound.get(feat.0 as usize) {
            Some(name) => *name,
            None => None,
        }
    }

    /// Adds all names of the ancestor's feature, in rising order.
    pub fn push_reached(&self, feat: FeatId, out: &mut Vec<FeatId>) -> Result<(), Memory>
        ensures { OnOk result (out.new.items ≡ out.old.items ++ reached_at self.now feat.0) }
    {
        match self.several.get(&feat.0) {
            Some(names) => {
                out.extend_from_slice(names)?;
                Ok(())
            }
            None => push_any(self.bound(feat), out),
        }
    }
}

// Adds the name, if there is one.
fn push_any(name: Option<FeatId>, out: &mut Vec<FeatId>) -> Result<(), Memory>
    ensures { OnOk result (out.new.items ≡ out.old.items ++ option_to_list name) }
{
    if let Some(name) = name {
        out.push(name)?;
    }
    Ok(())
}
