//! Classes and their ancestors, by the numbers of the classes.

ghost use Rattle.std.specs.Prelude.{◌≡◌, length};
ghost use Rattle.verse_rules_types.specs.Types.{classes_of};
ghost use Rattle.verse_rules_types.specs.Fitting.{parent_of, inherits, common};
ghost use Rattle.verse_rules_types.specs.Depths as depths;
ghost use Rattle.verse_rules_types.specs.Kinds as kinds;

use verse_tree::tables::ClassInfo;

/// The class from which a class inherits.
pub fn parent(classes: &[ClassInfo], class: u32) -> Option<u32>
    ensures { result ≡ parent_of (classes_of classes.now) class }
{
    match classes.get(class as usize) {
        None => None,
        Some(info) => info.parent,
    }
}

/// Whether a class is another one or inherits from it.
#[tactic(auto, using(crate::proofs::RuleSets::of_climbing))]
pub fn does_inherit(classes: &[ClassInfo], class: u32, other: u32) -> bool
    ensures { result ≡ inherits (classes_of classes.now) class other }
{
    let mut at = class;
    'steps: for _i in 0..classes.len() {
        if at == other {
            return true;
        }
        match parent(classes, at) {
            None => return false,
            Some(up) => at = up,
        }
    }
    false
}

/// How many classes stand above a class; none where they stand in a circle.
#[tactic(auto, using(crate::proofs::RuleSets::of_heights))]
fn height(classes: &[ClassInfo], class: u32) -> Option<usize>
    ensures { result ≡ depths.height (classes_of classes.now) class }
{
    let mut at = class;
    'steps: for i in 0..classes.len() {
        match parent(classes, at) {
            None => return Some(i),
            Some(up) => at = up,
        }
    }
    None
}

/// The class so many above one; the last one where there are fewer.
#[tactic(auto, using(crate::proofs::RuleSets::of_lifting))]
fn lifted(classes: &[ClassInfo], class: u32, count: usize) -> u32
    ensures { result ≡ depths.lifted (classes_of classes.now) count class }
{
    let mut at = class;
    'steps: for _i in 0..count {
        match parent(classes, at) {
            None => return at,
            Some(up) => at = up,
        }
    }
    at
}

/// Where two classes meet that go up in step.
#[tactic(auto, using(crate::proofs::RuleSets::of_meeting))]
fn meeting(classes: &[ClassInfo], class: u32, other: u32) -> Option<u32>
    ensures { result ≡ depths.meeting (classes_of classes.now) (length classes.now) class other }
{
    let mut at = class;
    let mut far = other;
    'steps: for _i in 0..classes.len() {
        if at == far {
            return Some(at);
        }
        match parent(classes, at) {
            None => return None,
            Some(up) => at = up,
        }
        match parent(classes, far) {
            None => return None,
            Some(up) => far = up,
        }
    }
    None
}

/// Where two classes meet above which so many stand.
fn meeting_from(
    classes: &[ClassInfo],
    class: u32,
    other: u32,
    height: usize,
    other_height: usize,
) -> Option<u32>
    ensures { result ≡ depths.meeting_from (classes_of classes.now) class other height
        other_height }
{
    let at = lifted(classes, class, height.saturating_sub(other_height));
    let far = lifted(classes, other, other_height.saturating_sub(height));
    meeting(classes, at, far)
}

/// The nearest common ancestor of two classes.
#[tactic(auto, using(crate::proofs::Levels::meet_levels))]
pub fn common_ancestor(classes: &[ClassInfo], class: u32, other: u32) -> Option<u32>
    ensures { result ≡ common (classes_of classes.now) class other }
{
    let Some(above) = height(classes, class) else {
        return climbed_ancestor(classes, class, other);
    };
    let Some(above_other) = height(classes, other) else {
        return climbed_ancestor(classes, class, other);
    };
    meeting_from(classes, class, other, above, above_other)
}

/// The nearest common ancestor, where a circle is come to.
#[tactic(auto, using(crate::proofs::RuleSets::of_climbing))]
fn climbed_ancestor(classes: &[ClassInfo], class: u32, other: u32) -> Option<u32>
    ensures { result ≡ common (classes_of classes.now) class other }
{
    let mut at = class;
    'steps: for _i in 0..classes.len() {
        if does_inherit(classes, other, at) {
            return Some(at);
        }
        match parent(classes, at) {
            None => return None,
            Some(up) => at = up,
        }
    }
    None
}

/// Whether a class or an ancestor of it is unique.
#[tactic(auto, using(crate::proofs::RuleSets::of_climbing))]
pub fn is_unique(classes: &[ClassInfo], class: u32) -> bool
    ensures { result ≡ kinds.is_unique (classes_of classes.now) class }
{
    let mut at = class;
    'steps: for _i in 0..classes.len() {
        if is_unique_itself(classes, at) {
            return true;
        }
        match parent(classes, at) {
            None => return false,
            Some(up) => at = up,
        }
    }
    false
}

fn is_unique_itself(classes: &[ClassInfo], class: u32) -> bool
    ensures { result ≡ kinds.unique_at (classes_of classes.now) class }
{
    match classes.get(class as usize) {
        None => false,
        Some(info) => info.is_unique,
    }
}
