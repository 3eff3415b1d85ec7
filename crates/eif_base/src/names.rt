ghost use Rattle.std.specs.Prelude.{◌≡◌, ◌<◌, ◌-◌, ◌^◌, [], false, length, slice_get, Some};
ghost use Rattle.std.specs.Prelude.{OnOk, OnErr, IfOk, IfSome, IfNone};
ghost use Rattle.eif_base.specs.Numbering.{is_among, with_text, IsNumbering};

use crate::memory::Memory;
use crate::name_id::NameId;
use indexmap::IndexSet;
use std::alloc::Global;
use std::marker::Model;

/// A numbering of texts: each has the number of its place, in the order in which they came.
#[derive(Debug, Drop)]
pub struct Names {
    alloc: Global,
    texts: IndexSet<Vec<u8>>,
}

impl Model for Names {
    ghost use Rattle.std.specs.Prelude.{List, ℕ, ◌<◌, ◌^◌, length, map};
    ghost use Rattle.std.specs.Coded.{coded_list, coded_ℕ};
    ghost use Rattle.eif_base.specs.Numbering.{IsNumbering};

    ghost Value = { List (List ℕ) };

    ghost coded = { coded_list (coded_list coded_ℕ) };

    ghost view = { λ n. map (λ t. t.items) n.texts.keys };

    ghost invariant = { λ n. (length n.texts.keys < 2 ^ 32)
        × IsNumbering (map (λ t. t.items) n.texts.keys) };
}

impl Names {
    /// No text.
    pub fn new(alloc: Global) -> Names
        ensures { result ≡ [] }
    {
        Names {
            alloc,
            texts: IndexSet::new(alloc),
        }
    }

    /// The number of the text. A new text gets the next number.
    pub fn intern(&mut self, text: &[u8]) -> Result<NameId, Memory>
        requires { length self.old < 2 ^ 32 - 1 }
        ensures texts { OnOk result (self.new ≡ with_text self.old text.now) }
        ensures number { IfOk result (λ id. slice_get self.new id.0 ≡ Some text.now) }
        ensures err { OnErr result (self.new ≡ self.old) }
        ensures once { IsNumbering self.new }
    {
        match self.find(text) {
            Some(id) => Ok(id),
            None => self.add(text),
        }
    }

    // Numbers a text that has no number.
    fn add(&mut self, text: &[u8]) -> Result<NameId, Memory>
        requires few { length self.old < 2 ^ 32 - 1 }
        requires absent { is_among self.old text.now ≡ false }
        ensures texts { OnOk result (self.new ≡ with_text self.old text.now) }
        ensures number { IfOk result (λ id. slice_get self.new id.0 ≡ Some text.now) }
        ensures err { OnErr result (self.new ≡ self.old) }
        ensures once { IsNumbering self.new }
    {
        let number = self.texts.len() as u32;
        let copy = Vec::from_slice(self.alloc, text)?;
        self.texts.insert(copy)?;
        Ok(NameId(number))
    }

    /// The number of the text, if it has one.
    pub fn find(&self, text: &[u8]) -> Option<NameId>
        ensures found { IfSome result (λ id. slice_get self.now id.0 ≡ Some text.now) }
        ensures absent { IfNone result (is_among self.now text.now ≡ false) }
        ensures once { IsNumbering self.now }
    {
        match self.texts.get_index_of(text) {
            Some(i) => Some(NameId(i as u32)),
            None => None,
        }
    }

    /// How many texts have a number.
    pub fn count(&self) -> u32
        ensures count { result ≡ length self.now }
        ensures once { IsNumbering self.now }
    {
        self.texts.len() as u32
    }

    /// The text with that number.
    pub fn text(&self, id: NameId) -> &[u8]
        requires { id.0 < length self.now }
        ensures text { slice_get self.now id.0 ≡ Some result.now }
        ensures once { IsNumbering self.now }
    {
        &self.texts.as_slice()[id.0 as usize]
    }
}
