//! The patterns of the arms of a `case`.

ghost use Rattle.std.specs.Prelude.{◌≡◌, OnOk, IfOk};
ghost use Rattle.std.specs.Option.{option_map};
ghost use Rattle.verse_tree.specs.View.{tree_of, shape_of, two_of};
ghost use Rattle.verse_meaning.specs.Programs as p;
ghost use Rattle.lower_notes.specs.Noting.{enum_pattern};
ghost use Rattle.note_stretches.specs.Noted.{noted, walked};
ghost use Rattle.lower_blocks.specs.Arms.{is_any_shape, is_any_tree, arm_parts, arm_parts_shape};
ghost use Rattle.note_cases.specs.Arms.{pattern_of, shape_pattern, tree_pattern};

use lower_items::tables::Tables;
use note_sorts::kinds::Kind;
use note_stretches::noting::Noting;
use verse_base::refusals::Memory;
use verse_tree::exprs::{Expr, Form, Two};
use verse_tree::programs::Program;

fn of_enum(tables: &Tables<'_>, of: &[u8], name: &[u8]) -> Result<Option<Kind>, Memory>
    ensures { IfOk result (λ k. pattern_of tables.now.program.now k ≡ enum_pattern
        (p.pattern_value (p.program_of tables.now.program.now) of.now name.now)) }
{
    match tables.pattern_value(of, name)? {
        None => Ok(None),
        Some(value) => Ok(Some(Kind::Enum(value.of))),
    }
}

/// The sort of a pattern that is compared.
#[tactic(auto, using(crate::proofs::RuleSets::of_patterns))]
fn of_form(tables: &Tables<'_>, form: &Form) -> Result<Option<Kind>, Memory>
    ensures { IfOk result (λ k. pattern_of tables.now.program.now k ≡
        shape_pattern tables.now.program.now (shape_of form.now)) }
{
    match form {
        Form::IntPattern(_) => Ok(Some(Kind::Int)),
        Form::MinusPattern(_) => Ok(Some(Kind::Int)),
        Form::CharPattern(_) => Ok(Some(Kind::Char)),
        Form::TextPattern(_) => Ok(Some(Kind::Text)),
        Form::TruePattern => Ok(Some(Kind::Logic)),
        Form::FalsePattern => Ok(Some(Kind::Nil)),
        Form::EnumPattern(of, name) => of_enum(tables, of.as_slice(), name.as_slice()),
        _ => Ok(None),
    }
}

fn of_tree(tables: &Tables<'_>, part: &Expr) -> Result<Option<Kind>, Memory>
    ensures { IfOk result (λ k. pattern_of tables.now.program.now k ≡
        tree_pattern tables.now.program.now (tree_of part.now)) }
{
    of_form(tables, &part.form)
}

fn push_kind(noting: &mut Noting, program: &Program, kind: Option<Kind>) -> Result<(), Memory>
    ensures { OnOk result (noted noting.new ≡ walked (pattern_of program.now kind)
        (noted noting.old)) }
{
    match kind {
        None => noting.ends(),
        Some(kind) => noting.push(program, kind),
    }
}

/// The value of a pattern.
pub fn push_pattern(tables: &Tables<'_>, noting: &mut Noting, part: &Expr) -> Result<(), Memory>
    ensures { OnOk result (noted noting.new ≡ walked (tree_pattern tables.now.program.now
        (tree_of part.now)) (noted noting.old)) }
{
    let kind = of_tree(tables, part)?;
    push_kind(noting, tables.program, kind)?;
    Ok(())
}

#[tactic(auto, using(crate::proofs::RuleSets::of_any))]
fn is_any_form(tables: &Tables<'_>, form: &Form) -> bool
    ensures { result ≡ is_any_shape tables.now.program.now (shape_of form.now) }
{
    match form {
        Form::AnyPattern => true,
        _ => false,
    }
}

/// Whether a pattern is `_`.
pub fn is_any(tables: &Tables<'_>, part: &Expr) -> bool
    ensures { result ≡ is_any_tree tables.now.program.now (tree_of part.now) }
{
    is_any_form(tables, &part.form)
}

#[tactic(auto, using(crate::proofs::RuleSets::of_arms))]
fn parts_of_form<'a>(form: &'a Form) -> Option<&'a Two>
    ensures { option_map (λ two. two_of two.now) result ≡ arm_parts_shape (shape_of form.now) }
{
    match form {
        Form::Arm(two) => Some(two),
        _ => None,
    }
}

/// The pattern and the body of an arm.
pub fn parts_of_arm<'a>(part: &'a Expr) -> Option<&'a Two>
    ensures { option_map (λ two. two_of two.now) result ≡ arm_parts (tree_of part.now) }
{
    parts_of_form(&part.form)
}
