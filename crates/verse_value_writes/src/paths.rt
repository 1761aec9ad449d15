//! Paths: the indices of a place in a value.

ghost use Rattle.std.specs.Prelude.{◌≡◌, [], ◌∷◌, ◌++◌, length, reverse, IfOk, OnOk, OnErr};
ghost use Rattle.verse_value.specs.View.{vals_of};

use smallvec::SmallVec;
use std::alloc::Global;
use std::marker::Model;
use verse_base::refusals::Memory;
use verse_value::values::Value;

/// The indices of a place in a slot's value, the outermost first. Up to four take no memory.
#[derive(Drop)]
pub struct Path {
    indices: SmallVec<Value, 4>,
}

impl Model for Path {
    ghost use Rattle.std.specs.Prelude.{List};
    ghost use Rattle.std.specs.Coded.{coded_list};
    ghost use Rattle.verse_value.specs.declared.values.Value.{Value as V};
    ghost use Rattle.verse_value.specs.contracts.values.Value as v;

    ghost Value = { List V };

    ghost coded = { coded_list v.the_row.coded };

    ghost view = { λ p. p.indices.items };
}

impl Path {
    /// The path to the slot's value itself. Takes no memory.
    pub fn new(alloc: Global) -> Path
        ensures { result ≡ [] }
    {
        Path {
            indices: SmallVec::new(alloc),
        }
    }

    /// The path of these indices. Takes no memory.
    pub fn from_vec(indices: Vec<Value>) -> Path
        ensures { result ≡ indices.items }
    {
        Path {
            indices: SmallVec::from_vec(indices),
        }
    }

    /// How many indices there are.
    pub fn len(&self) -> usize
        ensures { result ≡ length self.now }
    {
        self.indices.len()
    }

    /// The indices, the outermost first.
    pub fn as_slice(&self) -> &[Value]
        ensures { result.now ≡ self.now }
    {
        self.indices.as_slice()
    }

    /// Adds an index, which leads on from where the path leads.
    pub fn push(&mut self, index: Value) -> Result<(), Memory>
        ensures ok { OnOk result (self.new ≡ self.old ++ index ∷ []) }
        ensures err { OnErr result (self.new ≡ self.old) }
    {
        self.indices.push(index)?;
        Ok(())
    }

    /// Turns the indices round: those that were taken off a stack stand the innermost first. Takes
    /// no memory.
    pub fn reverse(&mut self)
        ensures { self.new ≡ reverse self.old }
    {
        self.indices.as_mut_slice().reverse();
    }

    /// A path of equal indices.
    pub fn copy(&self, alloc: Global) -> Result<Path, Memory>
        ensures { IfOk result (λ p. vals_of p ≡ vals_of self.now) }
    {
        let mut copies = SmallVec::new(alloc);
        'indices: for index in self.indices.as_slice() {
            copies.push(index.copy(alloc)?)?;
        }
        Ok(Path { indices: copies })
    }
}
