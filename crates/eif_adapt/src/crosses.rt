use crate::adapted::{Adapted, AdaptedEntry};
use crate::parent_feature::{ParentFeature, ParentState};

fn crosses<T: Send + Sync>() {}

/// Is there for what its compiling shows: what goes in and what comes out may be sent to another
/// thread, and shared by threads.
pub fn adapt_crosses() {
    crosses::<ParentState>();
    crosses::<ParentFeature>();
    crosses::<AdaptedEntry>();
    crosses::<Adapted>();
}
