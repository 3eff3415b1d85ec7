ghost use Rattle.std.specs.Prelude.{◌≡◌, ◌≢◌, ◌<◌, ℕ, List, length, map, slice_get, Some};
ghost use Rattle.std.specs.Prelude.{IfOk, OnOk, IfErr, IfSome, IfNone, false, true};
ghost use Rattle.std.specs.List.Sorted.{IsStrictlyIncreasing};
ghost use Rattle.std.specs.Option.{option_and_then, option_map};
ghost use Rattle.eif_base.specs.Numbering.{is_among};
ghost use Rattle.eif_class_rows.specs.Phase.{IsErrorOf};
ghost use Rattle.eif_classes.specs.Binding as binding;
ghost use Rattle.eif_classes.specs.Clients.{is_available};
ghost use Rattle.eif_classes.specs.Descent.{descends};
ghost use Rattle.eif_classes.specs.Entries as entries;
ghost use Rattle.eif_classes.specs.Entries.{Declaration, Feature};
ghost use Rattle.eif_classes.specs.Features as the;
ghost use Rattle.eif_feature_rules.specs.FeaturePhases.{FeaturesBroken};
ghost use Rattle.eif_rows.specs.Numbers.{class_numbers, name_of, names_of};
ghost use Rattle.eif_rows.specs.Rows as rows;
ghost use Rattle.eif_rows.specs.Rows.{IsFeatureRow, IsRow};
ghost use Rattle.eif_rows.specs.Systems.{IsSystem};
ghost use Rattle.eif_rows.specs.Versions.{IsDeclaration, IsVersion};
ghost use Rattle.eif_rows.specs.declared.row.Row as row;
ghost use Rattle.eif_rules.specs.FaultForms.{IsNone};
ghost use Rattle.eif_system.specs.Lineage.{line_of};
ghost use Rattle.eif_table_laws.specs.WholeClasses.{is_whole};
ghost use Rattle.eif_tables.specs.Numbered.{AreEntries, AreTablesOf, IsTableOf};
ghost use Rattle.eif_tables.specs.TablesOf.{AreTables, HasClass, HasFeature, IsOrigin};
ghost use Rattle.eif_tables.specs.TablesOf.{numbering_of};
ghost use Rattle.eif_tables.specs.declared.row_entry.RowEntry as entry;
ghost use Rattle.eif_tree.specs.Tree.{ClassT};
ghost use Rattle.eif_tree.specs.View.{class_view, decl_view};
ghost use Rattle.eif_universe.specs.Universes.{classes_of, given_in};

use crate::numbering::{name_numbering, row_entries};
use crate::origin::Origin;
use crate::row_entry::RowEntry;
use eif_base::{ClassId, FeatId, Memory, Name, NameId, Names};
use eif_class_rows::{TableError, class_rows};
use eif_rows::{DeclarationPlace, FeatureRow, Row, Version};
use eif_tree::{ClassTree, FeatureDecl};
use eif_universe::Universe;
use std::alloc::Global;

/// The features of a class, and its names by their numbers among all names.
#[derive(Drop)]
pub(crate) struct ClassTable {
    pub row: Row,
    pub entries: Vec<RowEntry>,
}

/// The features of all classes of a universe that breaks no rule of features. A feature of a class
/// has as its number the place of its name among the names of the class, in the order of their
/// bytes. Numbers of classes are those of the universe.
#[derive(Drop)]
pub struct Tables {
    pub(crate) classes: Vec<ClassTable>,
    pub(crate) names: Names,
}

/// The table of the row.
fn class_table(alloc: Global, names: &Names, row: Row) -> Result<ClassTable, Memory>
    ensures { IfOk result (λ t. IsTableOf names.now t row) }
{
    let entries = row_entries(alloc, names, &row)?;
    Ok(ClassTable { row, entries })
}

/// The tables of these rows.
fn class_tables(alloc: Global, names: &Names, rows: Vec<Row>) -> Result<Vec<ClassTable>, Memory>
    ensures { IfOk result (λ ts. AreTablesOf names.now ts.items rows.items) }
{
    let mut classes = Vec::with_capacity(alloc, rows.len())?;
    'rows: for row in rows {
        classes.push(class_table(alloc, names, row)?)?;
    }
    Ok(classes)
}

/// Where the version comes from.
fn origin_of(version: Version) -> Origin
    ensures { (u : List ClassT) (x : entries.Origin) → IsVersion u version x → IsOrigin u result x }
{
    match version {
        Version::Deferred => Origin::Deferred,
        Version::Attribute(id) | Version::Routine(id) => Origin::Declared {
            class_id: id.class_id,
            feat: id.feat,
        },
    }
}

/// The declaration at that place of a class text.
fn declaration_at(tree: &ClassTree, at: DeclarationPlace) -> Option<&FeatureDecl>
    ensures { option_map (λ x. decl_view x.now) result
        ≡ rows.declaration_at (class_view tree.now) (Some at) }
{
    match tree.features.get(at.part) {
        Some(part) => part.decls.get(at.place),
        None => None,
    }
}

/// The number, where it is one of so many.
fn if_below(count: usize, name: Option<FeatId>) -> Option<FeatId>
    ensures below { IfSome result (λ n. n.0 < count) }
    ensures same { (names : List (List ℕ)) → length names ≡ count
        → option_and_then (name_of names) result ≡ option_and_then (name_of names) name }
{
    match name {
        Some(n) => {
            if (n.0 as usize) < count {
                Some(n)
            } else {
                None
            }
        }
        None => None,
    }
}

/// The name that the ancestor's feature has in the class with this row. Here an ancestor is not the
/// class itself.
fn bound_name(row: &Row, k: ClassId, f: FeatId) -> Option<FeatId>
    ensures below { IfSome result (λ n. n.0 < length row.now.names.items) }
    ensures bound { (u : List ClassT) (d : ℕ) (m : List ℕ) → IsSystem u → d < length u → d ≢ k.0
        → IsRow u d row.now → name_of (the.names (line_of u k.0)) f ≡ Some m
        → option_and_then (name_of (the.names (line_of u d))) result
        ≡ binding.bind (line_of u d) k.0 m }
{
    match row.ancestor(k) {
        Some(ancestor) => if_below(row.names.len(), ancestor.bound(f)),
        None => None,
    }
}

/// The entry with that number among all names.
fn find_entry(entries: &[RowEntry], id: NameId) -> Option<RowEntry>
    ensures found { IfSome result (λ e. (i : ℕ) × (slice_get entries.now i ≡ Some e)
        × (e.name_id.0 ≡ id.0)) }
    ensures none { IfNone result (IsStrictlyIncreasing (map (λ e. e.name_id.0) entries.now)
        → (i : ℕ) (e : entry.RowEntry) → slice_get entries.now i ≡ Some e → e.name_id.0 ≢ id.0) }
{
    match entries.binary_search_by(|entry| entry.name_id.0.cmp(&id.0)) {
        Ok(i) => Some(entries[i]),
        Err(_) => None,
    }
}

impl Tables {
    /// The tables of the universe.
    pub fn build(alloc: Global, u: &Universe) -> Result<Tables, TableError>
        requires { IsSystem (classes_of u.now) }
        ensures tables { IfOk result (AreTables (classes_of u.now)) }
        ensures sound { OnOk result (IsNone (FeaturesBroken (given_in (classes_of u.now)))) }
        ensures faults { IfErr result (IsErrorOf (FeaturesBroken (given_in (classes_of u.now)))) }
    {
        let rows = class_rows(alloc, u)?;
        Ok(Tables::of(alloc, rows)?)
    }

    /// The tables of the universe with these rows.
    pub fn of(alloc: Global, rows: Vec<Row>) -> Result<Tables, Memory>
        ensures { IfOk result (λ t. (u : List ClassT) → IsSystem u
            → ((d : ℕ) → d < length u → is_whole u d ≡ true) → length rows.items ≡ length u
            → ((d : ℕ) (r : row.Row) → slice_get rows.items d ≡ Some r → IsRow u d r)
            → AreTables u t) }
    {
        let names = name_numbering(alloc, &rows)?;
        let classes = class_tables(alloc, &names, rows)?;
        Ok(Tables { classes, names })
    }

    // The table of the class.
    fn table(&self, c: ClassId) -> &ClassTable
        requires { HasClass self.now c }
        ensures { slice_get self.now.classes.items c.0 ≡ Some result.now }
    {
        &self.classes[c.0 as usize]
    }

    // What the class has under the name with that number.
    fn feature_row(&self, c: ClassId, f: FeatId) -> &FeatureRow
        requires { HasFeature self.now c f }
        ensures { (u : List ClassT) (x : Feature) → AreTables u self.now
            → slice_get (the.features (line_of u c.0)) f.0 ≡ Some x
            → (class : ClassT) × (slice_get u c.0 ≡ Some class)
            × IsFeatureRow u c.0 class result.now x }
    {
        &self.table(c).row.features[f.0 as usize]
    }

    /// How many names the class has.
    pub fn count(&self, c: ClassId) -> u32
        requires { HasClass self.now c }
        ensures { (u : List ClassT) → AreTables u self.now
            → result ≡ length (the.names (line_of u c.0)) }
    {
        self.table(c).row.names.len() as u32
    }

    /// The number of the name in the class.
    pub fn find(&self, c: ClassId, name: &Name) -> Option<FeatId>
        requires { HasClass self.now c }
        ensures found { IfSome result (λ f. (u : List ClassT) → AreTables u self.now
            → name_of (the.names (line_of u c.0)) f ≡ Some name.now) }
        ensures none { IfNone result ((u : List ClassT) → AreTables u self.now
            → the.has_feature (line_of u c.0) name.now ≡ false) }
    {
        self.table(c).row.find(name)
    }

    /// The name with that number in the class.
    pub fn name(&self, c: ClassId, f: FeatId) -> &Name
        requires { HasFeature self.now c f }
        ensures { (u : List ClassT) → AreTables u self.now
            → name_of (the.names (line_of u c.0)) f ≡ Some result.now }
    {
        &self.table(c).row.names[f.0 as usize]
    }

    /// The name that the feature of the class `k` has in the class `c` by dynamic binding. None
    /// exactly where `c` is not `k` and does not descend from it.
    pub fn bind(&self, c: ClassId, k: ClassId, f: FeatId) -> Option<FeatId>
        requires class { HasClass self.now c }
        requires feature { HasFeature self.now k f }
        ensures bound { (u : List ClassT) (m : List ℕ) → AreTables u self.now
            → name_of (the.names (line_of u k.0)) f ≡ Some m
            → option_and_then (name_of (the.names (line_of u c.0))) result
            ≡ binding.bind (line_of u c.0) k.0 m }
        ensures some { IfSome result (λ n. (u : List ClassT) → AreTables u self.now
            → descends (line_of u c.0) k.0 ≡ true) }
        ensures none { IfNone result ((u : List ClassT) → AreTables u self.now
            → descends (line_of u c.0) k.0 ≡ false) }
    {
        if c == k {
            return Some(f);
        }
        bound_name(&self.table(c).row, k, f)
    }

    /// Where the version of the feature comes from.
    pub fn origin(&self, c: ClassId, f: FeatId) -> Origin
        requires { HasFeature self.now c f }
        ensures { (u : List ClassT) (x : Feature) → AreTables u self.now
            → slice_get (the.features (line_of u c.0)) f.0 ≡ Some x → IsOrigin u result x.origin }
    {
        origin_of(self.feature_row(c, f).version)
    }

    /// The declaration that gives the signature of the feature: its class, and the number that its
    /// name has there.
    pub fn signature_source(&self, c: ClassId, f: FeatId) -> (ClassId, FeatId)
        requires { HasFeature self.now c f }
        ensures { (u : List ClassT) (x : Feature) → AreTables u self.now
            → slice_get (the.features (line_of u c.0)) f.0 ≡ Some x
            → (y : Declaration) × (x.source ≡ Some y)
            × IsDeclaration u (record { class_id = result.0; feat = result.1 }) y }
    {
        let source = self.feature_row(c, f).source;
        (source.class_id, source.feat)
    }

    /// The first declaration of the feature in the class. None exactly where the class inherits the
    /// feature without declaring it.
    pub fn declaration<'u>(&self, u: &'u Universe, c: ClassId, f: FeatId) -> Option<&'u FeatureDecl>
        requires tables { AreTables (classes_of u.now) self.now }
        requires feature { HasFeature self.now c f }
        ensures { (class : ClassT) (n : List ℕ) → slice_get (classes_of u.now) c.0 ≡ Some class
            → name_of (the.names (line_of (classes_of u.now) c.0)) f ≡ Some n
            → option_map (λ x. decl_view x.now) result ≡ the.declaration_of class n }
    {
        match self.feature_row(c, f).declared {
            Some(at) => declaration_at(u.tree(c), at),
            None => None,
        }
    }

    /// Whether the feature is available to the class `client`.
    pub fn available(&self, u: &Universe, c: ClassId, f: FeatId, client: ClassId) -> bool
        requires tables { AreTables (classes_of u.now) self.now }
        requires feature { HasFeature self.now c f }
        requires client { HasClass self.now client }
        ensures { (n : List ℕ) → name_of (the.names (line_of (classes_of u.now) c.0)) f ≡ Some n
            → result ≡ is_available (classes_of u.now) (line_of (classes_of u.now) c.0) n client.0 }
    {
        is_client(u, &self.feature_row(c, f).clients, client)
    }

    /// The features of the class that are fields, by rising number.
    pub fn fields(&self, c: ClassId) -> &[FeatId]
        requires { HasClass self.now c }
        ensures { (u : List ClassT) → AreTables u self.now
            → names_of (the.names (line_of u c.0)) result.now
            ≡ map Some (the.fields (line_of u c.0)) }
    {
        &self.table(c).row.fields
    }

    /// The numbering of all names of all classes.
    pub fn names(&self) -> &Names
        ensures held { (u : List ClassT) (d : ℕ) (n : List ℕ) → AreTables u self.now → d < length u
            → the.has_feature (line_of u d) n ≡ true → is_among result.now n ≡ true }
        ensures numbering { result.now ≡ numbering_of self.now }
    {
        &self.names
    }

    /// The names of the class, by rising numbers among all names.
    pub fn row(&self, c: ClassId) -> &[RowEntry]
        requires { HasClass self.now c }
        ensures { (u : List ClassT) → AreTables u self.now
            → AreEntries (numbering_of self.now) (the.names (line_of u c.0)) result.now }
    {
        &self.table(c).entries
    }

    /// The number in the class of the name with that number among all names.
    pub fn find_id(&self, c: ClassId, id: NameId) -> Option<FeatId>
        requires class { HasClass self.now c }
        requires id { id.0 < length (numbering_of self.now) }
        ensures found { IfSome result (λ f. (u : List ClassT) → AreTables u self.now
            → name_of (the.names (line_of u c.0)) f ≡ slice_get (numbering_of self.now) id.0) }
        ensures none { IfNone result ((u : List ClassT) (n : List ℕ) → AreTables u self.now
            → slice_get (numbering_of self.now) id.0 ≡ Some n
            → the.has_feature (line_of u c.0) n ≡ false) }
    {
        match find_entry(&self.table(c).entries, id) {
            Some(entry) => Some(entry.feat),
            None => None,
        }
    }
}

/// Whether the class is the client or descends from it. A number of no class is nobody's.
fn is_heir(u: &Universe, class: ClassId, client: ClassId) -> bool
    requires system { IsSystem (classes_of u.now) }
    requires class { class.0 < length (classes_of u.now) }
    ensures { result ≡ descends (line_of (classes_of u.now) class.0) client.0 }
{
    client.0 < u.class_count() && u.is_descendant(class, client)
}

/// Whether the class is one of these, or descends from one.
fn is_client(u: &Universe, clients: &[ClassId], class: ClassId) -> bool
    requires system { IsSystem (classes_of u.now) }
    requires class { class.0 < length (classes_of u.now) }
    ensures { result ≡ rows.is_client_by (classes_of u.now) (class_numbers clients.now) class.0 }
{
    'clients: for client in clients {
        if is_heir(u, class, *client) {
            return true;
        }
    }
    false
}

fn crosses<T: Send + Sync>() {}

/// Tables may be sent to another thread, and shared by threads.
pub fn tables_cross() {
    crosses::<Tables>();
}
