//! What each name of a class stands for, by numbers.

ghost use Rattle.std.specs.Prelude.{◌≡◌, ℕ, ◌<◌, ◌==◌, [], ◌++◌, length, map, None, IfOk, OnOk, slice_get, Some};
ghost use Rattle.std.specs.List.{All, position_from};
ghost use Rattle.std.specs.Option.{option_map};
ghost use Rattle.eif_heirs.specs.Numbered.{AreBelow, if_named, ids_from, ids_under, collected, declared_under, noted_at};

use crate::heir::{EntryId, NameSources};
use eif_base::{FeatId, Memory};
use std::alloc::Global;

// Notes the place, where none is noted.
fn note_first(places: &mut Vec<Option<usize>>, at: usize, place: usize)
    requires { at < length places.old.items }
    ensures count { length places.new.items ≡ length places.old.items }
    ensures places { (k : ℕ) → slice_get places.new.items k
        ≡ option_map (noted_at k at place) (slice_get places.old.items k) }
{
    if places[at].is_none() {
        places[at] = Some(place);
    }
}

/// For each number below the count the place of the first name that has it.
fn first_places(alloc: Global, count: usize, names: &[FeatId]) -> Result<Vec<Option<usize>>, Memory>
    requires { AreBelow count names.now }
    ensures count { IfOk result (λ v. length v.items ≡ count) }
    ensures places { IfOk result (λ v. (k : ℕ) → k < count
        → slice_get v.items k ≡ Some (position_from (λ f. f.0 == k) 0 names.now)) }
{
    let mut places: Vec<Option<usize>> = vec![in alloc; None; count]?;
    'names: for (i, name) in names.iter().enumerate() {
        note_first(&mut places, name.0 as usize, i);
    }
    Ok(places)
}

/// Sources with these declared names, and without entries.
fn sources_without_entries(
    alloc: Global,
    places: &[Option<usize>],
) -> Result<Vec<NameSources>, Memory>
    ensures declared { IfOk result (λ v. declared_under v.items ≡ places.now) }
    ensures none { IfOk result (λ v. (k : ℕ) → collected v.items k ≡ []) }
{
    let mut sources = Vec::with_capacity(alloc, places.len())?;
    'names: for place in places {
        sources.push(NameSources {
            declared: *place,
            entries: Vec::new(alloc),
        })?;
    }
    Ok(sources)
}

// Adds the entry to those of a name.
fn push_entry(sources: &mut [NameSources], name: FeatId, entry: EntryId) -> Result<(), Memory>
    requires { name.0 < length sources.old }
    ensures declared { OnOk result (declared_under sources.new ≡ declared_under sources.old) }
    ensures entries { OnOk result ((k : ℕ) → collected sources.new k
        ≡ collected sources.old k ++ if_named k name entry) }
{
    sources[name.0 as usize].entries.push(entry)?;
    Ok(())
}

// Adds the entries of the clause with that number.
fn push_clause_entries(
    sources: &mut [NameSources],
    clause: usize,
    names: &[FeatId],
) -> Result<(), Memory>
    requires { AreBelow (length sources.old) names.now }
    ensures declared { OnOk result (declared_under sources.new ≡ declared_under sources.old) }
    ensures entries { OnOk result ((k : ℕ) → collected sources.new k
        ≡ collected sources.old k ++ ids_from k clause 0 names.now) }
{
    if names.len() > u32::MAX as usize {
        return Err(Memory);
    }
    'entries: for (i, name) in names.iter().enumerate() {
        let entry = EntryId {
            clause,
            feat: FeatId(i as u32),
        };
        push_entry(sources, *name, entry)?;
    }
    Ok(())
}

// Adds the entries of all clauses.
fn push_entries(sources: &mut [NameSources], finals: &[Vec<FeatId>]) -> Result<(), Memory>
    requires { All (λ fs. AreBelow (length sources.old) fs.items) finals.now }
    ensures declared { OnOk result (declared_under sources.new ≡ declared_under sources.old) }
    ensures entries { OnOk result ((k : ℕ) → collected sources.new k
        ≡ collected sources.old k ++ ids_under k 0 finals.now) }
{
    'clauses: for (i, names) in finals.iter().enumerate() {
        push_clause_entries(sources, i, names)?;
    }
    Ok(())
}

/// What each of so many names stands for, by the numbers of the declared names and of the final
/// names of each clause.
pub(crate) fn name_sources(
    alloc: Global,
    count: usize,
    numbers: &[FeatId],
    finals: &[Vec<FeatId>],
) -> Result<Vec<NameSources>, Memory>
    requires declared { AreBelow count numbers.now }
    requires finals { All (λ fs. AreBelow count fs.items) finals.now }
    ensures count { IfOk result (λ v. length v.items ≡ count) }
    ensures declared { IfOk result (λ v. (k : ℕ) → k < count → slice_get (declared_under v.items) k
        ≡ Some (position_from (λ f. f.0 == k) 0 numbers.now)) }
    ensures entries { IfOk result (λ v. (k : ℕ) → collected v.items k ≡ ids_under k 0 finals.now) }
{
    let places = first_places(alloc, count, numbers)?;
    let mut sources = sources_without_entries(alloc, &places)?;
    push_entries(&mut sources, finals)?;
    Ok(sources)
}
