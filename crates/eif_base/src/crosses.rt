use crate::bytes::Bytes;
use crate::fault::FaultList;
use crate::memory::Memory;
use crate::name::Name;
use crate::name_set::NameSet;
use crate::names::Names;
use crate::place::Place;
use crate::root::Root;

fn crosses<T: Send>() {}

fn is_shared<T: Send + Sync>() {}

/// Is there for what its compiling shows: results may be sent to another thread, and what every
/// layer reads may be shared between threads.
pub fn base_crosses() {
    crosses::<FaultList>();
    crosses::<Memory>();
    is_shared::<Place>();
    is_shared::<Name>();
    is_shared::<Bytes>();
    is_shared::<Names>();
    is_shared::<NameSet>();
    is_shared::<Root>();
}
