//! A part and the operands of a form.

ghost use Rattle.std.specs.Prelude.{◌≡◌, map, OnOk};
ghost use Rattle.verse_tree.specs.View.{tree_of, trees};
ghost use Rattle.lower_expr.specs.Building.{built, made};
ghost use Rattle.lower_expr.specs.Locals.{scope_of};
ghost use Rattle.lower_parts.specs.Parts.{tree_code, operands_code, Lowers};

use lower_code::arounds::Around;
use lower_expr::builder::Builder;
use lower_expr::scopes::Scopes;
use lower_items::tables::Tables;
use verse_base::refusals::Memory;
use verse_tree::exprs::Expr;

/// Lowers a form whose parts are lowered by `nested`, with the tables of the program.
#[derive(Clone, Copy)]
pub struct Lowering<'a, F> {
    pub tables: &'a Tables<'a>,
    /// How deep trees may still be nested; deeper ones count as want of memory.
    pub depth: u32,
    pub nested: F,
}

impl<
    'a,
    F: Fn(
        &'a Tables<'a>,
        u32,
        &mut Builder,
        &mut Scopes<'a>,
        Around,
        &'a Expr,
    ) -> Result<(), Memory>,
> Lowering<'a, F> {
    /// A part of the form.
    pub fn part(
        &self,
        builder: &mut Builder,
        scopes: &mut Scopes<'a>,
        around: Around,
        part: &'a Expr,
    ) -> Result<(), Memory>
        requires nests { Lowers self.now.depth (F.pre self.now.nested) (F.post self.now.nested) }
        ensures code { OnOk result (built builder.new ≡ made (tree_code
            self.now.tables.now.program.now
            (tree_of part.now) (scope_of scopes.old) around) (built builder.old)) }
        ensures scopes { OnOk result (scope_of scopes.new ≡ scope_of scopes.old) }
    {
        let Some(depth) = self.depth.checked_sub(1) else {
            return Err(Memory);
        };
        (self.nested)(self.tables, depth, builder, scopes, around, part)
    }

    /// Operands, each above those before it.
    pub fn operands(
        &self,
        builder: &mut Builder,
        scopes: &mut Scopes<'a>,
        around: Around,
        parts: &'a [Expr],
    ) -> Result<(), Memory>
        requires nests { Lowers self.now.depth (F.pre self.now.nested) (F.post self.now.nested) }
        ensures code { OnOk result (built builder.new ≡ made (operands_code
            self.now.tables.now.program.now
            (trees (map tree_of parts.now)) (scope_of scopes.old) around) (built builder.old)) }
        ensures scopes { OnOk result (scope_of scopes.new ≡ scope_of scopes.old) }
    {
        let mut above = around;
        'parts: for part in parts {
            self.part(builder, scopes, above, part)?;
            above = above.up()?;
        }
        Ok(())
    }
}
