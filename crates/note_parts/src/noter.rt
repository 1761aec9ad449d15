//! A part and the operands of a form.

ghost use Rattle.std.specs.Prelude.{◌≡◌, map, OnOk};
ghost use Rattle.verse_tree.specs.View.{tree_of, trees};
ghost use Rattle.verse_meaning.specs.Evaluating.{number_of};
ghost use Rattle.lower_expr.specs.Locals.{scope_of};
ghost use Rattle.note_stretches.specs.Noted.{noted, walked};
ghost use Rattle.note_parts.specs.Parts.{tree_walk, operands_walk, Notes};

use lower_code::arounds::Around;
use lower_expr::scopes::Scopes;
use lower_items::tables::Tables;
use note_stretches::noting::Noting;
use verse_base::refusals::Memory;
use verse_tree::exprs::Expr;

/// The number of the node of a tree.
#[tactic(auto, using(verse_tree::proofs::Shapes::tree_is))]
pub fn number_of(part: &Expr) -> u32
    ensures { result ≡ number_of (tree_of part.now) }
{
    part.node
}

/// Notes a form whose parts are noted by `nested`, with the tables of the program.
#[derive(Clone, Copy)]
pub struct Noter<'a, F> {
    pub tables: &'a Tables<'a>,
    /// How deep trees may still be nested; deeper ones count as want of memory.
    pub depth: u32,
    pub nested: F,
}

impl<
    'a,
    F: Fn(
        &'a Tables<'a>,
        u32,
        &mut Noting,
        &mut Scopes<'a>,
        Around,
        &'a Expr,
    ) -> Result<(), Memory>,
> Noter<'a, F> {
    /// A part of the form.
    pub fn part(
        &self,
        noting: &mut Noting,
        scopes: &mut Scopes<'a>,
        around: Around,
        part: &'a Expr,
    ) -> Result<(), Memory>
        requires nests { Notes self.now.depth (F.pre self.now.nested) (F.post self.now.nested) }
        ensures states { OnOk result (noted noting.new ≡ walked (tree_walk
            self.now.tables.now.program.now
            (tree_of part.now) (scope_of scopes.old) around) (noted noting.old)) }
        ensures scopes { OnOk result (scope_of scopes.new ≡ scope_of scopes.old) }
    {
        let Some(depth) = self.depth.checked_sub(1) else {
            return Err(Memory);
        };
        (self.nested)(self.tables, depth, noting, scopes, around, part)
    }

    /// Operands, each above those before it.
    pub fn operands(
        &self,
        noting: &mut Noting,
        scopes: &mut Scopes<'a>,
        around: Around,
        parts: &'a [Expr],
    ) -> Result<(), Memory>
        requires nests { Notes self.now.depth (F.pre self.now.nested) (F.post self.now.nested) }
        ensures states { OnOk result (noted noting.new ≡ walked (operands_walk
            self.now.tables.now.program.now
            (trees (map tree_of parts.now)) (scope_of scopes.old) around) (noted noting.old)) }
        ensures scopes { OnOk result (scope_of scopes.new ≡ scope_of scopes.old) }
    {
        let mut above = around;
        'parts: for part in parts {
            self.part(noting, scopes, above, part)?;
            above = above.up()?;
        }
        Ok(())
    }
}
