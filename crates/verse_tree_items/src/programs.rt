//! A program with its tables.

ghost use Rattle.std.specs.Prelude.{◌≡◌};

use crate::items::ProgramTree;
use std::marker::Model;
use verse_tree::programs::Program;
use verse_tree::tables::{Names, Typed};

/// A program with what its names stand for and the types of its nodes.
pub struct TypedProgram {
    program: Program,
}

impl Model for TypedProgram {
    ghost use Rattle.verse_tree.specs.declared.programs.Program.{Program};
    ghost use Rattle.verse_tree.specs.contracts.programs.Program as e;
    ghost use Rattle.std.specs.Coded.{codes};

    ghost Value = { Program };

    ghost coded = { Prim.hlevel (codes, e.the_row.coded) };

    ghost view = { λ p. p.program };
}

impl Drop for TypedProgram {
    fn drop(self) {
        let Self { program: _ } = self;
    }
}

impl TypedProgram {
    pub fn new(tree: ProgramTree, names: Names, typed: Typed) -> TypedProgram
        ensures tree { result.tree ≡ tree }
        ensures names { result.names ≡ names }
        ensures typed { result.typed ≡ typed }
    {
        TypedProgram {
            program: Program {
                tree: tree.into_tree(),
                names,
                typed,
            },
        }
    }

    pub fn get(&self) -> &Program
        ensures { result.now ≡ self.now }
    {
        &self.program
    }
}
