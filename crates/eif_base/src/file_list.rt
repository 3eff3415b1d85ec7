ghost use Rattle.std.specs.Prelude.{◌≡◌, ◌<◌, ◌++◌, ◌∷◌, [], Some, OnOk, OnErr, length, slice_get};
ghost use Rattle.eif_base.specs.FileLists.{names_of, texts_of};

use crate::memory::Memory;
use crate::place::NO_FILE;
use std::alloc::Global;
use std::marker::Model;

/// A class text under its file name.
#[derive(Debug, Drop)]
struct File {
    name: String,
    text: Vec<u8>,
}

impl Model for File {
    ghost use Rattle.std.specs.Prelude.{string_bytes};
    ghost use Rattle.eif_base.specs.FileLists.{NamedText};

    ghost Value = { NamedText };

    ghost view = { λ f. record { name = string_bytes f.name; text = f.text.items } };
}

/// The files of a system, numbered from 0.
#[derive(Debug, Drop)]
pub struct FileList {
    alloc: Global,
    files: Vec<File>,
}

impl Model for FileList {
    ghost use Rattle.std.specs.Prelude.{List, ◌≤◌, length};
    ghost use Rattle.eif_base.specs.declared.place.TheConstants.{NO_FILE};
    ghost use Rattle.eif_base.specs.FileLists.{NamedText};

    ghost Value = { List NamedText };

    ghost view = { λ l. l.files.items };

    ghost invariant = { λ l. length l.files.items ≤ NO_FILE };
}

impl FileList {
    /// No file.
    pub fn new(alloc: Global) -> FileList
        ensures { result ≡ [] }
    {
        FileList {
            alloc,
            files: Vec::new(alloc),
        }
    }

    /// Adds a file at the end.
    pub fn push(&mut self, name: &str, text: Vec<u8>) -> Result<(), Memory>
        requires { length self.old < NO_FILE }
        ensures ok { OnOk result (self.new ≡ self.old ++ record { name = name.now; text = text.items } ∷ []) }
        ensures err { OnErr result (self.new ≡ self.old) }
    {
        let name = String::from_str(self.alloc, name)?;
        self.files.push(File { name, text })?;
        Ok(())
    }

    /// How many files there are.
    pub fn count(&self) -> u32
        ensures { result ≡ length self.now }
    {
        self.files.len() as u32
    }

    /// The name of the file with that number.
    pub fn name(&self, i: u32) -> &str
        requires { i < length self.now }
        ensures { slice_get (names_of self.now) i ≡ Some result.now }
    {
        let file = &self.files[i as usize];
        &file.name
    }

    /// The text of the file with that number.
    pub fn text(&self, i: u32) -> &[u8]
        requires { i < length self.now }
        ensures { slice_get (texts_of self.now) i ≡ Some result.now }
    {
        let file = &self.files[i as usize];
        &file.text
    }
}

fn crosses<T: Send + Sync>() {}

/// Threads may share the files.
pub fn file_list_crosses() {
    crosses::<FileList>();
}
