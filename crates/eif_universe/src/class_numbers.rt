//! The classes by their names.

ghost use Rattle.std.specs.Prelude.{◌≡◌, ℕ, ◌<◌, ◌^◌, List, length, map, IfOk, OnOk, is_some};
ghost use Rattle.eif_tree.specs.View.{class_view};
ghost use Rattle.eif_universe.specs.ClassNumbering.{number_in, or_number, IsNumbering, MarksRepeats};

use eif_base::Memory;
use eif_tree::ClassTree;
use indexmap::IndexMap;
use std::alloc::Global;

/// For each name the number of the first class that has it.
#[derive(Drop)]
pub struct ClassNumbers {
    numbers: IndexMap<Vec<u8>, u32>,
}

/// The classes by their names, and for each class whether an earlier one has its name.
#[derive(Drop)]
pub struct Numbering {
    pub numbers: ClassNumbers,
    pub repeated: Vec<bool>,
}

impl ClassNumbers {
    /// The number of the first class with the name.
    pub fn find(&self, name: &[u8]) -> Option<u32>
        ensures { result ≡ number_in self.now name.now }
    {
        self.numbers.get(name).copied()
    }

    // Numbers a name, unless it has a number. True where it has one.
    fn add(&mut self, alloc: Global, name: &[u8], number: u32) -> Result<bool, Memory>
        ensures known { IfOk result (λ known. known ≡ is_some (number_in self.old name.now)) }
        ensures numbers { OnOk result ((n : List ℕ) → number_in self.new n
            ≡ or_number (number_in self.old n) name.now number n) }
    {
        if self.find(name).is_some() {
            return Ok(true);
        }
        self.numbers.insert(Vec::from_slice(alloc, name)?, number)?;
        Ok(false)
    }
}

/// Numbers the classes by their places, and says of each whether an earlier one has its name.
pub fn number_classes(alloc: Global, trees: &[ClassTree]) -> Result<Numbering, Memory>
    requires { length trees.now < 2 ^ 32 }
    ensures numbers { IfOk result (λ n. IsNumbering (map class_view trees.now) n.numbers) }
    ensures repeated { IfOk result (λ n. MarksRepeats (map class_view trees.now) n.repeated.items) }
{
    let mut numbers = ClassNumbers {
        numbers: IndexMap::new(alloc),
    };
    let mut repeated = Vec::new(alloc);
    'classes: for (i, tree) in trees.iter().enumerate() {
        repeated.push(numbers.add(alloc, tree.name.text(), i as u32)?)?;
    }
    Ok(Numbering { numbers, repeated })
}
