//! What is nested in a phrase is read by a call of its own.

ghost use Rattle.std.specs.Prelude.{◌≡◌, ◌<◌, ◌≤◌, ℕ, IfOk, length, drop};
ghost use Rattle.std.specs.Result.{IsErrOf};
ghost use Rattle.verse_tree.specs.View.{tree_of};
ghost use Rattle.verse_grammar.specs.Exprs.{Reads};
ghost use Rattle.verse_grammar.specs.Symbols.{phrase};
ghost use Rattle.verse_grammar.specs.Reading.{EatsRule, SticksRule};
ghost use Rattle.verse_expr_reader.specs.Nests.{Nests};
ghost use Rattle.verse_expr_reader.specs.declared.steps.ReadFault.TheVariants as read_fault;

use crate::steps::ReadFault;
use std::alloc::Global;
use verse_grammar::phrases::Phrase;
use verse_layout::toks::Tok;
use verse_tree_nodes::trees::Tree;

/// Reads the phrases of a file; what is nested in one is read by `nested`, which answers the tree
/// and how many toks it has.
#[derive(Clone, Copy)]
pub struct Reader<'b, F> {
    pub alloc: Global,
    pub bytes: &'b [u8],
    /// `nested` reads from fewer toks than these.
    pub most: usize,
    pub nested: F,
}

impl<'b, F: Fn(Global, &[u8], Phrase, &[Tok]) -> Result<(Tree, usize), ReadFault>> Reader<'b, F> {
    /// A phrase inside another.
    pub fn inner<'t>(&self, what: Phrase, toks: &'t [Tok]) -> Result<(Tree, &'t [Tok]), ReadFault>
        requires nests { Nests self.now.bytes.now self.now.most (F.pre self.now.nested)
            (F.post self.now.nested) }
        requires fewer { length toks.now < self.now.most }
        ensures spelled { IfOk result
            (λ r. Reads self.now.bytes.now what toks.now (tree_of r.0) r.1.now) }
        ensures eats { IfOk result (λ r. EatsRule (phrase what) toks.now r.1.now) }
        ensures sticks { (left : ℕ) → IsErrOf result (read_fault.Stuck left) →
            SticksRule (phrase what) toks.now left }
        ensures shorter { IfOk result (λ r. length r.1.now < length toks.now) }
    {
        let (expr, count) = (self.nested)(self.alloc, self.bytes, what, toks)?;
        Ok((expr, &toks[count..]))
    }
}
