use eif_base::Name;
use eif_tree::Clients;

/// A feature of the clause's class, and what the clause makes of it. Without an export item that
/// holds for it there are no clients: it keeps those that it has in the parent.
#[derive(Drop)]
pub struct AdaptedEntry {
    pub parent_name: Name,
    pub final_name: Name,
    pub clients: Option<Clients>,
    pub undefined: bool,
    pub redefined: bool,
    pub selected: bool,
}

/// The entries of a parent clause.
#[derive(Drop)]
pub struct Adapted {
    pub entries: Vec<AdaptedEntry>,
}
