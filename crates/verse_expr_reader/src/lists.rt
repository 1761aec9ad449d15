//! Lists of phrases.

ghost use Rattle.std.specs.Prelude.{◌<◌, ℕ, IfOk, length, map};
ghost use Rattle.std.specs.Result.{IsErrOf};
ghost use Rattle.verse_tree.specs.View.{tree_of};
ghost use Rattle.verse_grammar.specs.Exprs.{Closed, Until};
ghost use Rattle.verse_grammar.specs.Starts.{kind_of};
ghost use Rattle.verse_grammar.specs.Symbols.{closed, until};
ghost use Rattle.verse_grammar.specs.Reading.{EatsRule, SticksRule};
ghost use Rattle.verse_expr_reader.specs.Nests.{Nests};
ghost use Rattle.verse_expr_reader.specs.declared.steps.ReadFault.TheVariants as read_fault;

use crate::nesting::Reader;
use crate::steps::{ReadFault, take};
use std::alloc::Global;
use verse_grammar::phrases::Phrase;
use verse_grammar::starts::Fixed;
use verse_layout::toks::Tok;
use verse_tree_nodes::trees::{Tree, Trees};

impl<'b, F: Fn(Global, &[u8], Phrase, &[Tok]) -> Result<(Tree, usize), ReadFault>> Reader<'b, F> {
    /// One phrase or more, with a separator between them, up to a closing tok.
    #[tactic(auto, using(crate::proofs::RuleSets::of_closed))]
    pub fn closed<'t>(
        &self,
        what: Phrase,
        separator: Fixed,
        close: Fixed,
        toks: &'t [Tok],
    ) -> Result<(Trees, &'t [Tok]), ReadFault>
        requires nests { Nests self.now.bytes.now self.now.most (F.pre self.now.nested)
            (F.post self.now.nested) }
        requires fewer { length toks.now < self.now.most }
        ensures spelled { IfOk result
            (λ r. Closed self.now.bytes.now what (kind_of separator) (kind_of close) toks.now
            (map tree_of r.0) r.1.now) }
        ensures eats { IfOk result (λ r.
            EatsRule (closed what (kind_of separator) (kind_of close)) toks.now r.1.now) }
        ensures sticks { (left : ℕ) → IsErrOf result (read_fault.Stuck left) →
            SticksRule (closed what (kind_of separator) (kind_of close)) toks.now left }
        ensures shorter { IfOk result (λ r. length r.1.now < length toks.now) }
    {
        let (first, after) = self.inner(what, toks)?;
        let mut exprs = Trees::new(self.alloc);
        exprs.push(first)?;
        let mut rest = after;
        'more: while let Some((_, behind)) = take(rest, separator) {
            let (expr, left) = self.inner(what, behind)?;
            exprs.push(expr)?;
            rest = left;
        }
        match take(rest, close) {
            Some((_, rest)) => Ok((exprs, rest)),
            None => Err(ReadFault::Stuck(rest.len())),
        }
    }

    /// No phrase or more, up to a closing tok.
    #[tactic(auto, using(crate::proofs::RuleSets::of_until))]
    pub fn until<'t>(
        &self,
        what: Phrase,
        separator: Fixed,
        close: Fixed,
        toks: &'t [Tok],
    ) -> Result<(Trees, &'t [Tok]), ReadFault>
        requires nests { Nests self.now.bytes.now self.now.most (F.pre self.now.nested)
            (F.post self.now.nested) }
        requires fewer { length toks.now < self.now.most }
        ensures spelled { IfOk result
            (λ r. Until self.now.bytes.now what (kind_of separator) (kind_of close) toks.now
            (map tree_of r.0) r.1.now) }
        ensures eats { IfOk result (λ r.
            EatsRule (until what (kind_of separator) (kind_of close)) toks.now r.1.now) }
        ensures sticks { (left : ℕ) → IsErrOf result (read_fault.Stuck left) →
            SticksRule (until what (kind_of separator) (kind_of close)) toks.now left }
        ensures shorter { IfOk result (λ r. length r.1.now < length toks.now) }
    {
        match take(toks, close) {
            Some((_, rest)) => Ok((Trees::new(self.alloc), rest)),
            None => self.closed(what, separator, close, toks),
        }
    }
}
