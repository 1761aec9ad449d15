//! What the parts of a block or of conditions are.

ghost use Rattle.std.specs.Prelude.{◌≡◌, map, length};
ghost use Rattle.verse_tree.specs.View.{tree_of, shape_of, trees};
ghost use Rattle.verse_meaning.specs.Evaluating as e;
ghost use Rattle.lower_code.specs.Lowering as l;
ghost use Rattle.lower_lookup.specs.Statements.{statement_view};

use verse_base::places::Place;
use verse_tree::exprs::{Expr, Form};

/// What a statement defines.
#[derive(Clone, Copy)]
pub enum Binder<'a> {
    Nothing,
    Constant(&'a [u8]),
    Variable(&'a [u8], Place),
}

/// The names of a generator.
#[derive(Clone, Copy)]
pub enum Generator<'a> {
    /// An element.
    Elements(&'a [u8]),
    /// An index or a key, and an element.
    Entries(&'a [u8], &'a [u8]),
    /// An int of a range.
    Range(&'a [u8]),
}

/// What a statement is, seen from the block or the conditions in which it stands.
#[derive(Clone, Copy)]
pub enum Statement<'a> {
    Plain,
    /// Of the value of its part.
    Defines(Binder<'a>),
    Defers(&'a Expr),
    Generates(Generator<'a>),
}

#[tactic(auto, using(crate::proofs::RuleSets::of_statements))]
fn statement_of_form<'a>(form: &'a Form, place: Place) -> Statement<'a>
    ensures { statement_view result ≡ e.statement_of_shape (shape_of form.now) place }
{
    match form {
        Form::Let(name, _) => Statement::Defines(Binder::Constant(name.as_slice())),
        Form::Def(name, _) => Statement::Defines(Binder::Constant(name.as_slice())),
        Form::VarDef(name, _) => Statement::Defines(Binder::Variable(name.as_slice(), place)),
        Form::Defer(part) => Statement::Defers(part.get()),
        Form::Elements(name, _) => Statement::Generates(Generator::Elements(name.as_slice())),
        Form::Entries(key, name, _) => {
            Statement::Generates(Generator::Entries(key.as_slice(), name.as_slice()))
        }
        Form::Range(name, _) => Statement::Generates(Generator::Range(name.as_slice())),
        _ => Statement::Plain,
    }
}

/// What a statement is.
pub fn statement_of<'a>(expr: &'a Expr) -> Statement<'a>
    ensures { statement_view result ≡ e.statement_of (tree_of expr.now) }
{
    statement_of_form(&expr.form, expr.place)
}

#[tactic(auto, using(crate::proofs::RuleSets::of_defers))]
fn is_defer_form(form: &Form) -> bool
    ensures { result ≡ l.is_defer_shape (shape_of form.now) }
{
    match form {
        Form::Defer(_) => true,
        _ => false,
    }
}

fn is_defer(expr: &Expr) -> bool
    ensures { result ≡ l.is_defer (tree_of expr.now) }
{
    is_defer_form(&expr.form)
}

/// Whether a statement of a block defers.
pub fn any_defer(parts: &[Expr]) -> bool
    ensures { result ≡ l.any_defer (trees (map tree_of parts.now)) }
{
    'parts: for part in parts {
        if is_defer(part) {
            return true;
        }
    }
    false
}

/// How many parts there are.
#[tactic(auto, using(crate::proofs::PlainStatements::how_many_is))]
pub fn how_many(parts: &[Expr]) -> usize
    ensures { result ≡ l.how_many (trees (map tree_of parts.now)) }
{
    parts.len()
}

/// Whether no parts are left.
pub fn none_left(parts: &[Expr]) -> bool
    ensures { result ≡ e.none_left (trees (map tree_of parts.now)) }
{
    match parts.split_first() {
        None => true,
        Some(_) => false,
    }
}
