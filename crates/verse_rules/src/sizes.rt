//! The size of a program.

ghost use Rattle.std.specs.Prelude.{◌≡◌, ◌+◌, ◌*◌, ℕ, min, map, slice_get, IfOk};
ghost use Rattle.verse_tree.specs.View.{shape_of};
ghost use Rattle.verse_tree.specs.ItemView.{item_of};
ghost use Rattle.verse_tree.specs.Numbering.{program_nodes};
ghost use Rattle.verse_tree.specs.Sizes.{class_fields, fields_at, items_fields};
ghost use Rattle.verse_rules_walk.specs.Passes.{part_node};
ghost use Rattle.verse_rules_least.specs.Least.{each};
ghost use Rattle.verse_rules_walk.specs.Nodes.{items_nodes};
ghost use Rattle.verse_rules_walk.specs.Views.{around_of};
ghost use Rattle.verse_rules.specs.Sound.{SizesAgree};
ghost use Rattle.verse_rules.specs.Counting.{counted, shape_adds, what_adds};

use verse_base::refusals::Memory;
use verse_check_typing::lookups::ref_at;
use verse_rules_walk::arounds::Around;
use verse_rules_walk::items::walk_items;
use verse_rules_walk::passes::{Part, Pass};
use verse_tree::exprs::Form;
use verse_tree::items::Tree;
use verse_tree::tables::{Names, Ref};

/// The greatest size of a program.
pub const MOST_SIZE: u64 = 16_777_216;

/// The fields of the classes of the instance expressions so far, or the largest number.
#[derive(Drop)]
struct Count {
    fields: u64,
}

/// The pass: what the names of the program stand for.
#[derive(Drop)]
struct CountPass<'a> {
    names: &'a Names,
}

fn fields_of_class(names: &Names, class: u32) -> u64
    ensures { result ≡ class_fields (slice_get names.now.classes class) }
{
    match names.classes.get(class as usize) {
        Some(class) => class.fields.len() as u64,
        None => 0,
    }
}

/// The fields of the class for which the node with this number stands.
fn class_fields_at(names: &Names, node: u32) -> u64
    ensures { result ≡ fields_at names.now node }
{
    match ref_at(names.refs.as_slice(), node) {
        Some(Ref::Class(class)) => fields_of_class(names, class),
        _ => 0,
    }
}

fn form_adds(names: &Names, node: u32, form: &Form) -> u64
    ensures { result ≡ shape_adds names.now node (shape_of form.now) }
{
    match form {
        Form::Instance(_, _) => class_fields_at(names, node),
        _ => 0,
    }
}

fn part_adds(names: &Names, around: Around<'_>, part: Part<'_>) -> u64
    ensures { result ≡ what_adds names.now (part_node (around_of around.entry) part.entry).number
        (part_node (around_of around.entry) part.entry).what }
{
    match part {
        Part::Expr(expr) => form_adds(names, expr.node, &expr.form),
        Part::Item(_) => 0,
        Part::Member(_) => 0,
        Part::Param(_) => 0,
        Part::TypeName(_) => 0,
    }
}

impl<'a> Pass for CountPass<'a> {
    type Seen = Count;

    ghost Sight = { ℕ };

    ghost sight = { λ c. c.fields };

    ghost step = { λ p. counted p.names.now };

    #[tactic(auto, unfolding(crate::specs::Counting::counted))]
    fn note(&self, seen: &mut Count, around: Around<'_>, part: Part<'_>) -> Result<(), Memory> {
        let more = part_adds(self.names, around, part);
        seen.fields = seen.fields.saturating_add(more);
        Ok(())
    }
}

/// 16 for each node and 4 for each field of the class of each instance expression, or the largest
/// number. Want of memory alone is an error.
pub fn program_size(tree: &Tree, names: &Names) -> Result<u64, Memory>
    requires counted { tree.now.nodes ≡ program_nodes (map item_of tree.now.items) }
    ensures { IfOk result (λ s. s ≡
        min (16 * program_nodes (map item_of tree.now.items) + 4 * items_fields names.now
        (map item_of tree.now.items)) 18446744073709551615) }
{
    let fields = fields_in(tree, names)?;
    let nodes = tree.nodes as u64;
    Ok((16 * nodes).saturating_add(fields.saturating_mul(4)))
}

/// A program that is kept whole, with these names, has this size.
pub fn sizes_agree()
    ensures { SizesAgree }
{}

fn fields_in(tree: &Tree, names: &Names) -> Result<u64, Memory>
    ensures { IfOk result (λ f. f ≡
        min (items_fields names.now (map item_of tree.now.items)) 18446744073709551615) }
{
    let fields = count_fields(tree, names)?;
    Ok(fields)
}

fn count_fields(tree: &Tree, names: &Names) -> Result<u64, Memory>
    ensures { IfOk result (λ f. f ≡
        each (counted names.now) (items_nodes (map item_of tree.now.items)) 0) }
{
    let mut count = Count { fields: 0 };
    walk_items(&CountPass { names }, &mut count, tree.items.as_slice())?;
    Ok(count.fields)
}
