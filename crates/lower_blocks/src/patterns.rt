//! The patterns of the arms of a `case`.

ghost use Rattle.std.specs.Prelude.{◌≡◌, neg_ℤ, OnOk, IfOk};
ghost use Rattle.std.specs.Option.{option_map};
ghost use Rattle.verse_tree.specs.View.{tree_of, shape_of, two_of};
ghost use Rattle.verse_meaning.specs.Programs as p;
ghost use Rattle.verse_code.specs.declared.operations.Op.TheVariants as o;
ghost use Rattle.lower_code.specs.Pieces.{one};
ghost use Rattle.lower_code.specs.Lowering.{enum_pattern};
ghost use Rattle.lower_expr.specs.Building.{built, made};
ghost use Rattle.lower_blocks.specs.Arms.{pattern_code, shape_pattern, tree_pattern};
ghost use Rattle.lower_blocks.specs.Arms.{is_any_shape, is_any_tree, arm_parts, arm_parts_shape};

use lower_declared::enums::EnumValue;
use lower_expr::builder::Builder;
use lower_items::tables::Tables;
use verse_base::refusals::Memory;
use verse_code::operations::Op;
use verse_tree::exprs::{Expr, Form, Two};

/// What puts the value of a pattern on the stack.
#[derive(Clone, Copy)]
pub enum Pattern<'a> {
    /// What is no pattern that is compared.
    Nothing,
    Operation(Op),
    Text(&'a [u8]),
}

fn of_minus<'a>(number: i64) -> Result<Pattern<'a>, Memory>
    ensures { IfOk result (λ r. pattern_code r ≡ one (o.Int (neg_ℤ number))) }
{
    match number.checked_neg() {
        None => Err(Memory),
        Some(opposite) => Ok(Pattern::Operation(Op::Int(opposite))),
    }
}

fn of_enum<'a>(tables: &Tables<'_>, of: &[u8], name: &[u8]) -> Result<Pattern<'a>, Memory>
    ensures { IfOk result (λ r. pattern_code r ≡ enum_pattern
        (p.pattern_value (p.program_of tables.now.program.now) of.now name.now)) }
{
    match tables.pattern_value(of, name)? {
        None => Ok(Pattern::Nothing),
        Some(EnumValue { of, value }) => Ok(Pattern::Operation(Op::Enum(of, value))),
    }
}

#[tactic(auto, using(crate::proofs::RuleSets::of_patterns))]
fn of_form<'a>(tables: &Tables<'_>, form: &'a Form) -> Result<Pattern<'a>, Memory>
    ensures { IfOk result (λ r. pattern_code r ≡
        shape_pattern tables.now.program.now (shape_of form.now)) }
{
    match form {
        Form::IntPattern(number) => Ok(Pattern::Operation(Op::Int(*number))),
        Form::MinusPattern(number) => of_minus(*number),
        Form::CharPattern(byte) => Ok(Pattern::Operation(Op::Char(*byte as u32))),
        Form::TextPattern(text) => Ok(Pattern::Text(text.as_slice())),
        Form::TruePattern => Ok(Pattern::Operation(Op::True)),
        Form::FalsePattern => Ok(Pattern::Operation(Op::False)),
        Form::EnumPattern(of, name) => of_enum(tables, of.as_slice(), name.as_slice()),
        _ => Ok(Pattern::Nothing),
    }
}

fn of_tree<'a>(tables: &Tables<'_>, part: &'a Expr) -> Result<Pattern<'a>, Memory>
    ensures { IfOk result (λ r. pattern_code r ≡
        tree_pattern tables.now.program.now (tree_of part.now)) }
{
    of_form(tables, &part.form)
}

fn push_value(builder: &mut Builder, seen: Pattern<'_>) -> Result<(), Memory>
    ensures { OnOk result (built builder.new ≡ made (pattern_code seen.entry)
        (built builder.old)) }
{
    match seen {
        Pattern::Nothing => builder.stuck(),
        Pattern::Operation(op) => builder.one(op),
        Pattern::Text(bytes) => builder.texted(bytes),
    }
}

/// The value of a pattern.
pub fn push_pattern(tables: &Tables<'_>, builder: &mut Builder, part: &Expr) -> Result<(), Memory>
    ensures { OnOk result (built builder.new ≡ made (tree_pattern tables.now.program.now
        (tree_of part.now)) (built builder.old)) }
{
    let seen = of_tree(tables, part)?;
    push_value(builder, seen)?;
    Ok(())
}

#[tactic(auto, using(crate::proofs::RuleSets::of_any))]
fn is_any_form(tables: &Tables<'_>, form: &Form) -> bool
    ensures { result ≡ is_any_shape tables.now.program.now (shape_of form.now) }
{
    match form {
        Form::AnyPattern => true,
        _ => false,
    }
}

/// Whether a pattern is `_`.
pub fn is_any(tables: &Tables<'_>, part: &Expr) -> bool
    ensures { result ≡ is_any_tree tables.now.program.now (tree_of part.now) }
{
    is_any_form(tables, &part.form)
}

#[tactic(auto, using(crate::proofs::RuleSets::of_arms))]
fn parts_of_form<'a>(form: &'a Form) -> Option<&'a Two>
    ensures { option_map (λ two. two_of two.now) result ≡ arm_parts_shape (shape_of form.now) }
{
    match form {
        Form::Arm(two) => Some(two),
        _ => None,
    }
}

/// The pattern and the body of an arm.
pub fn parts_of_arm<'a>(part: &'a Expr) -> Option<&'a Two>
    ensures { option_map (λ two. two_of two.now) result ≡ arm_parts (tree_of part.now) }
{
    parts_of_form(&part.form)
}
