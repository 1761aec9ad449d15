//! A layer over all files in turn. The first file that a layer refuses decides.

ghost use Rattle.std.specs.Prelude.{◌≡◌, ◌≤◌, ◌*◌, ℕ, IfOk, IsSome, IfSome, IfNone, length, map};
ghost use Rattle.std.specs.Result.{IsErrOf};
ghost use Rattle.verse_base.specs.RuleText.{rule_text_of};
ghost use Rattle.verse_base.specs.declared.refusals.Refusal.{Refusal};
ghost use Rattle.verse_base.specs.declared.refusals.Front.TheVariants as front;
ghost use Rattle.verse_tree.specs.ItemView.{item_of};
ghost use Rattle.verse_accept.specs.Stages.{makes_each, refuses_first};
ghost use Rattle.verse_accept.specs.Fronts.{sized, cutting, laying, spelling};
ghost use Rattle.verse_accept.specs.Files.{cut_of, laid_of};
ghost use Rattle.verse_accept.specs.Ready.{Each, IsSmall, CanBeLaid, CanBeRead, HasFewNodes};
ghost use Rattle.verse_join.specs.Joining.{file_items};

use crate::files::{CutFile, LaidFile, cut, lay, spell};
use std::alloc::Global;
use verse_base::limits::MOST_FILE_BYTES;
use verse_base::places::Place;
use verse_base::refusals::{Front, Refusal, Rule};
use verse_base::rules::FILE_TOO_LARGE;
use verse_tree_items::items::ItemTrees;

/// The refusal of the first file that is too large.
pub(crate) fn too_large(files: &[Vec<u8>]) -> Option<Refusal>
    requires { length files.now ≤ 16 }
    ensures refused { IfSome result (λ r. refuses_first sized 0 (map (λ f. f.items) files.now) r) }
    ensures listed { IfSome result (λ r. IsSome (rule_text_of r.rule.0)) }
    ensures small { IfNone result
        (makes_each sized 0 (map (λ f. f.items) files.now) (map (λ f. f.items) files.now)) }
    ensures each { IfNone result (Each IsSmall (map (λ f. f.items) files.now)) }
{
    let mut number = 0;
    for file in files {
        if file.len() > MOST_FILE_BYTES {
            let place = Place {
                file: number,
                line: 1,
                col: 1,
            };
            return Some(Refusal {
                rule: Rule(FILE_TOO_LARGE),
                place,
            });
        }
        number += 1;
    }
    None
}

/// The tokens of all files.
pub(crate) fn cut_all<'a>(alloc: Global, files: &'a [Vec<u8>]) -> Result<Vec<CutFile<'a>>, Front>
    requires few { length files.now ≤ 16 }
    requires small { Each IsSmall (map (λ f. f.items) files.now) }
    ensures made { IfOk result (λ cuts. makes_each cutting 0 (map (λ f. f.items) files.now)
        (map cut_of cuts.items)) }
    ensures ready { IfOk result (λ cuts. Each CanBeLaid (map cut_of cuts.items)) }
    ensures count { IfOk result (λ cuts. length cuts.items ≡ length files.now) }
    ensures refused { (r : Refusal) → IsErrOf result (front.Refused r) →
        refuses_first cutting 0 (map (λ f. f.items) files.now) r }
    ensures listed { (r : Refusal) → IsErrOf result (front.Refused r) →
        IsSome (rule_text_of r.rule.0) }
{
    let mut cuts = Vec::new(alloc);
    let mut number = 0;
    for file in files {
        let file = cut(alloc, number, file.as_slice())?;
        cuts.push(file)?;
        number += 1;
    }
    Ok(cuts)
}

/// The layout of all files.
pub(crate) fn lay_all<'a>(alloc: Global, cuts: &[CutFile<'a>]) -> Result<Vec<LaidFile<'a>>, Front>
    requires few { length cuts.now ≤ 16 }
    requires ready { Each CanBeLaid (map cut_of cuts.now) }
    ensures made { IfOk result (λ laid. makes_each laying 0 (map cut_of cuts.now)
        (map laid_of laid.items)) }
    ensures ready { IfOk result (λ laid. Each CanBeRead (map laid_of laid.items)) }
    ensures count { IfOk result (λ laid. length laid.items ≡ length cuts.now) }
    ensures refused { (r : Refusal) → IsErrOf result (front.Refused r) →
        refuses_first laying 0 (map cut_of cuts.now) r }
    ensures listed { (r : Refusal) → IsErrOf result (front.Refused r) →
        IsSome (rule_text_of r.rule.0) }
{
    let mut laid = Vec::new(alloc);
    for file in cuts {
        let file = lay(alloc, file)?;
        laid.push(file)?;
    }
    Ok(laid)
}

/// The items of all files.
pub(crate) fn spell_all(alloc: Global, laid: &[LaidFile<'_>]) -> Result<Vec<ItemTrees>, Front>
    requires few { length laid.now ≤ 16 }
    requires ready { Each CanBeRead (map laid_of laid.now) }
    ensures made { IfOk result (λ files. makes_each spelling 0 (map laid_of laid.now)
        (map file_items files.items)) }
    ensures few { IfOk result (λ files. Each HasFewNodes (map file_items files.items)) }
    ensures count { IfOk result (λ files. length files.items ≡ length laid.now) }
    ensures refused { (r : Refusal) → IsErrOf result (front.Refused r) →
        refuses_first spelling 0 (map laid_of laid.now) r }
    ensures listed { (r : Refusal) → IsErrOf result (front.Refused r) →
        IsSome (rule_text_of r.rule.0) }
{
    let mut files = Vec::new(alloc);
    let mut number = 0;
    for file in laid {
        let items = spell(alloc, number, file)?;
        files.push(items)?;
        number += 1;
    }
    Ok(files)
}
