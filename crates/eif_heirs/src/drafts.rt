ghost use Rattle.std.specs.Prelude.{◌≡◌, ◌<◌, ◌^◌, map, Some, IfOk, slice_get};
ghost use Rattle.std.specs.Option.{option_map};
ghost use Rattle.eif_classes.specs.Features.{features};
ghost use Rattle.eif_heirs.specs.DraftForms.{IsByDeclaration, IsByDeclared, IsByEntries, IsDraftAt};
ghost use Rattle.eif_heirs.specs.DraftParts.{lent_part, parts_of};
ghost use Rattle.eif_heirs.specs.Drafts.{IsDraft};
ghost use Rattle.eif_heirs.specs.Heirs.{IsHeir};
ghost use Rattle.eif_rows.specs.Matched.{Match};
ghost use Rattle.eif_rows.specs.Systems.{IsSystem};
ghost use Rattle.eif_system.specs.Lineage.{line_of};
ghost use Rattle.eif_tree.specs.View.{class_view, features_view};
ghost use Rattle.eif_universe.specs.Universes.{classes_of};

use crate::clients::{inherited_clients, listed_clients};
use crate::declared::DeclaredName;
use crate::heir::{EntryId, Heir, NameSources};
use crate::parts::declaring_parts;
use crate::versions::{declared_version, joined_version, leading_source};
use eif_base::{ClassId, FeatId, Memory};
use eif_rows::{DeclarationId, DeclarationPlace, Version};
use eif_tree::FeatureClause;
use eif_universe::Universe;
use std::alloc::Global;

/// What the class has under a name while it is judged. There is no version where several clash.
#[derive(Drop)]
pub struct FeatureDraft {
    pub version: Option<Version>,
    pub source: DeclarationId,
    pub clients: Vec<ClassId>,
    pub declared: Option<DeclarationPlace>,
}

// By the declared name in that features part.
fn draft_by_declaration(
    alloc: Global,
    u: &Universe,
    id: DeclarationId,
    declared: &DeclaredName<'_>,
    part: &FeatureClause,
) -> Result<FeatureDraft, Memory>
    requires { IsSystem (classes_of u.now) }
    ensures { IfOk result (IsByDeclaration (classes_of u.now) id.class_id id.feat.0 declared.now
        (features_view part.now)) }
{
    let clients = listed_clients(alloc, u, &part.clients)?;
    Ok(FeatureDraft {
        version: Some(declared_version(&declared.tree.kind, id)),
        source: id,
        clients,
        declared: Some(declared.place),
    })
}

fn declared_at<'u>(heir: &Heir<'u>, i: usize) -> Option<DeclaredName<'u>>
    ensures { result ≡ slice_get heir.now.declared.items i }
{
    heir.declared.get(i).copied()
}

fn part_at<'t>(parts: &[&'t FeatureClause], i: usize) -> Option<&'t FeatureClause>
    ensures { option_map lent_part result ≡ slice_get (map lent_part parts.now) i }
{
    parts.get(i).copied()
}

// By the declared name with that number, which is the class's own under the name.
fn draft_by_declared(
    alloc: Global,
    u: &Universe,
    heir: &Heir<'_>,
    parts: &[&FeatureClause],
    name: FeatId,
    first: usize,
) -> Result<FeatureDraft, Memory>
    requires system { IsSystem (classes_of u.now) }
    requires parts { map lent_part parts.now ≡ parts_of (class_view heir.now.tree.now).features }
    ensures { IfOk result (IsByDeclared (classes_of u.now) heir.now name.0 first) }
{
    let Some(declared) = declared_at(heir, first) else {
        return Err(Memory);
    };
    let Some(part) = part_at(parts, first) else {
        return Err(Memory);
    };
    let id = DeclarationId {
        class_id: heir.class_id,
        feat: name,
    };
    draft_by_declaration(alloc, u, id, &declared, part)
}

// By the entries of a name that the class does not declare.
fn draft_by_entries(
    alloc: Global,
    u: &Universe,
    heir: &Heir<'_>,
    entries: &[EntryId],
) -> Result<FeatureDraft, Memory>
    requires { IsSystem (classes_of u.now) }
    ensures { IfOk result (IsByEntries (classes_of u.now) heir.now entries.now) }
{
    let Some(source) = leading_source(heir, entries) else {
        return Err(Memory);
    };
    let clients = inherited_clients(alloc, u, heir, entries)?;
    Ok(FeatureDraft {
        version: joined_version(heir, entries),
        source,
        clients,
        declared: None,
    })
}

// What the class has under the name with that number.
fn draft(
    alloc: Global,
    u: &Universe,
    heir: &Heir<'_>,
    parts: &[&FeatureClause],
    name: usize,
    sources: &NameSources,
) -> Result<FeatureDraft, Memory>
    requires system { IsSystem (classes_of u.now) }
    requires heir { IsHeir (classes_of u.now) heir.now }
    requires parts { map lent_part parts.now ≡ parts_of (class_view heir.now.tree.now).features }
    requires sources { slice_get heir.now.sources.items name ≡ Some sources.now }
    ensures { IfOk result (IsDraftAt (classes_of u.now) heir.now name) }
{
    match sources.declared {
        Some(first) => draft_by_declared(alloc, u, heir, parts, FeatId(name as u32), first),
        None => draft_by_entries(alloc, u, heir, &sources.entries),
    }
}

/// What the class has under each of its names.
pub fn feature_drafts(
    alloc: Global,
    u: &Universe,
    heir: &Heir<'_>,
) -> Result<Vec<FeatureDraft>, Memory>
    requires system { IsSystem (classes_of u.now) }
    requires heir { IsHeir (classes_of u.now) heir.now }
    ensures { IfOk result (λ v. let u = classes_of u.now in let d = heir.now.class_id.0 in
        Match (IsDraft u d (class_view heir.now.tree.now)) v.items (features (line_of u d))) }
{
    let parts = declaring_parts(alloc, heir.tree)?;
    let mut drafts = Vec::with_capacity(alloc, heir.names.len())?;
    'names: for (i, sources) in heir.sources.iter().enumerate() {
        drafts.push(draft(alloc, u, heir, &parts, i, sources)?)?;
    }
    Ok(drafts)
}
