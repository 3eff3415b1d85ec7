//! What every layer speaks of: places, names, bytes, faults and their lists, and the outside as
//! traits for reading texts, writing the report and holding work back.
#![tactic(auto)]

mod bytes;
mod class_id;
mod code;
mod crosses;
mod fault;
mod feat_id;
mod file_list;
mod file_texts;
mod gate;
pub mod limits;
mod mem_sink;
mod mem_texts;
mod memory;
mod name;
mod name_id;
mod name_set;
mod names;
mod out_sink;
mod place;
mod read_log;
mod root;
mod sink;
mod streams;
mod sure_sink;
mod sure_texts;
mod text_map;
mod texts;

pub use bytes::Bytes;
pub use class_id::ClassId;
pub use code::Code;
pub use crosses::base_crosses;
pub use fault::{Fault, FaultList};
pub use feat_id::FeatId;
pub use file_list::{FileList, file_list_crosses};
pub use file_texts::FileTexts;
pub use gate::{Gate, OpenGate};
pub use mem_sink::MemSink;
pub use mem_texts::MemTexts;
pub use memory::Memory;
pub use name::Name;
pub use name_id::NameId;
pub use name_set::NameSet;
pub use names::Names;
pub use out_sink::OutSink;
pub use place::{NO_FILE, Place};
pub use root::Root;
pub use sink::{Sink, WriteFail};
pub use sure_sink::SureSink;
pub use sure_texts::SureTexts;
pub use texts::{Ended, ReadEnd, ReadFail, Texts};

#[cfg(test)]
mod tests;
