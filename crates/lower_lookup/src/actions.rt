//! The forms that have operands, without them.

ghost use Rattle.std.specs.Prelude.{◌≡◌, map};
ghost use Rattle.verse_tree.specs.View.{tree_of, shape_of, trees};
ghost use Rattle.verse_meaning.specs.Evaluating as e;
ghost use Rattle.lower_lookup.specs.Actions.{form_of};

use verse_base::places::Place;
use verse_tree::exprs::{Expr, Form};

/// What is done with operands. A place is where its errors are.
#[derive(Clone, Copy, Debug)]
pub enum Action {
    /// Reads the field with this place among those of its object.
    Read(u32),
    /// The length of an array or a map.
    Length,
    /// What is no member.
    NoMember,
    /// The element of a tuple, by the literal that is its number.
    Pick(Option<u64>),
    Index,
    /// A function by its number.
    Call(u32),
    /// A method of `Self`, by its place among those of the class.
    CallOwn(u32),
    /// A method of the object that is the first operand.
    CallMethod(u32),
    Print(Place),
    Floor(Place),
    Ceil(Place),
    Modulo,
    /// Whether it is of an event.
    Await(bool),
    Signal,
    Spawn(u32),
    SpawnOwn(u32),
    SpawnMethod(u32),
}

fn literal_of_form(form: &Form) -> Option<u64>
    ensures { result ≡ e.literal_of_shape (shape_of form.now) }
{
    match form {
        Form::Int(number) => u64::try_from(*number).ok(),
        _ => None,
    }
}

/// The number that a literal is.
pub fn literal_of(expr: &Expr) -> Option<u64>
    ensures { result ≡ e.literal_of (tree_of expr.now) }
{
    literal_of_form(&expr.form)
}

/// What a call of a value does with it.
pub fn picked(args: &[Expr]) -> Action
    ensures { form_of result ≡ e.picked (trees (map tree_of args.now)) }
{
    let Some((only, rest)) = args.split_first() else {
        return Action::Pick(None);
    };
    match rest.split_first() {
        None => Action::Pick(literal_of(only)),
        Some(_) => Action::Pick(None),
    }
}

/// What `spawn` does in its place.
pub fn spawned(action: Action) -> Action
    ensures { form_of result ≡ e.spawned_form (form_of action) }
{
    match action {
        Action::Call(function) => Action::Spawn(function),
        Action::CallOwn(method) => Action::SpawnOwn(method),
        Action::CallMethod(method) => Action::SpawnMethod(method),
        _ => action,
    }
}
