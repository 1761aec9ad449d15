//! Primary forms of one tok, but for names.

ghost use Rattle.std.specs.Prelude.{◌≡◌, ◌≤◌, ◌∷◌, ℕ, Some, IfOk, length};
ghost use Rattle.std.specs.Result.{IsErrOf};
ghost use Rattle.verse_tree.specs.Tree.{tree};
ghost use Rattle.verse_tree.specs.View.{tree_of};
ghost use Rattle.verse_grammar.specs.Exprs.{Reads};
ghost use Rattle.verse_grammar.specs.Starts.{primary_start};
ghost use Rattle.verse_grammar.specs.Symbols.{phrase};
ghost use Rattle.verse_grammar.specs.Reading.{EatsRule, SticksRule};
ghost use Rattle.verse_grammar.specs.declared.phrases.Phrase.{Phrase};
ghost use Rattle.verse_expr_keywords.specs.Leaves.{leaf_start, leaf_shape};
ghost use Rattle.verse_expr_reader.specs.declared.steps.ReadFault.TheVariants as read_fault;

use std::alloc::Global;
use verse_base::refusals::Memory;
use verse_expr_reader::nesting::Reader;
use verse_expr_reader::spans::text_at;
use verse_expr_reader::steps::ReadFault;
use verse_grammar::phrases::Phrase;
use verse_layout::toks::Tok;
use verse_tree_nodes::literals;
use verse_tree_nodes::trees::Tree;

/// What one tok can be.
#[derive(Clone, Copy)]
pub enum Leaf {
    Int(i64),
    Char(u8),
    /// A text without holes.
    Text,
    True,
    False,
    /// `Self`
    This,
}

/// The form of one tok.
#[tactic(auto, using(crate::proofs::LeafForms::leaf_reads, crate::proofs::LeafForms::leaf_eaten))]
pub fn leaf_form<'t, F: Fn(Global, &[u8], Phrase, &[Tok]) -> Result<(Tree, usize), ReadFault>>(
    reader: &Reader<'_, F>,
    leaf: Leaf,
    tok: Tok,
    toks: &'t [Tok],
) -> Result<(Tree, &'t [Tok]), ReadFault>
    requires start { primary_start tok.kind ≡ Some (leaf_start leaf) }
    ensures spelled { IfOk result (λ r. Reads reader.now.bytes.now Phrase.Primary (tok ∷ toks.now)
        (tree_of r.0) r.1.now) }
    ensures eats { IfOk result (λ r. EatsRule (phrase Phrase.Primary) (tok ∷ toks.now) r.1.now) }
    ensures sticks { (left : ℕ) → IsErrOf result (read_fault.Stuck left) →
        SticksRule (phrase Phrase.Primary) (tok ∷ toks.now) left }
    ensures shorter { IfOk result (λ r. length r.1.now ≤ length toks.now) }
{
    Ok((leaf_node(reader.alloc, reader.bytes, leaf, tok)?, toks))
}

/// The node of such a form.
fn leaf_node(alloc: Global, bytes: &[u8], leaf: Leaf, tok: Tok) -> Result<Tree, Memory>
    ensures { IfOk result (λ r. tree_of r ≡ tree 0 tok.place (leaf_shape bytes.now tok leaf)) }
{
    match leaf {
        Leaf::Int(value) => literals::integer(alloc, tok.place, value),
        Leaf::Char(value) => literals::character(alloc, tok.place, value),
        Leaf::Text => literals::text(alloc, tok.place, text_at(alloc, bytes, tok)?),
        Leaf::True => literals::truth(alloc, tok.place),
        Leaf::False => literals::falsehood(alloc, tok.place),
        Leaf::This => literals::this(alloc, tok.place),
    }
}
