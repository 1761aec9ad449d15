//! A form behind its operands.

ghost use Rattle.std.specs.Prelude.{◌≡◌, OnOk};
ghost use Rattle.lower_notes.specs.Applied as p;
ghost use Rattle.lower_notes.specs.Stretches.{last, when_else};
ghost use Rattle.lower_lookup.specs.Actions.{form_of};
ghost use Rattle.lower_expr.specs.Locals.{scope_of};
ghost use Rattle.note_stretches.specs.Noted.{noted, walked};

use crate::names::push_fixed;
use lower_expr::scopes::Scopes;
use lower_lookup::actions::Action;
use note_sorts::kinds::Kind;
use note_stretches::noting::Noting;
use verse_base::refusals::Memory;
use verse_tree::exprs::Operator;
use verse_tree::programs::Program;

/// An operator that computes from two operands.
#[tactic(auto, using(note_stretches::proofs::Laws::walked_nothing))]
pub fn computing(noting: &mut Noting, operator: Operator) -> Result<(), Memory>
    ensures { OnOk result (noted noting.new ≡ walked (p.computing operator) (noted noting.old)) }
{
    match operator {
        Operator::Add => noting.last(),
        Operator::Sub => noting.last(),
        Operator::Mul => noting.last(),
        Operator::And => Ok(()),
        Operator::Or => noting.ends(),
        Operator::Div => noting.ends(),
    }
}

/// An operation on one operand.
fn with_one(noting: &mut Noting, count: u32) -> Result<(), Memory>
    ensures { OnOk result (noted noting.new ≡ walked (p.with_one count last) (noted noting.old)) }
{
    match count {
        0 => noting.ends(),
        1 => noting.last(),
        _ => noting.ends(),
    }
}

/// An operation on two operands.
fn with_two(noting: &mut Noting, count: u32) -> Result<(), Memory>
    ensures { OnOk result (noted noting.new ≡ walked (p.with_two count last) (noted noting.old)) }
{
    match count {
        0 | 1 => noting.ends(),
        2 => noting.last(),
        _ => noting.ends(),
    }
}

fn when_fits(noting: &mut Noting, fits: bool) -> Result<(), Memory>
    ensures { OnOk result (noted noting.new ≡ walked (when_else fits last) (noted noting.old)) }
{
    if fits { noting.last() } else { noting.ends() }
}

/// So many operands fall away, and then an operation.
fn dropping(noting: &mut Noting, count: u32) -> Result<(), Memory>
    ensures { OnOk result (noted noting.new ≡ walked (p.dropping count last) (noted noting.old)) }
{
    'operands: for _operand in 0..count {
        noting.drop_values(1)?;
    }
    noting.last()?;
    Ok(())
}

/// An index behind what is indexed, with so many of them.
#[tactic(auto, using(crate::proofs::Steps::indexing_none, crate::proofs::Steps::indexing_some))]
fn indexing(noting: &mut Noting, count: u32) -> Result<(), Memory>
    ensures { OnOk result (noted noting.new ≡ walked (p.indexing count) (noted noting.old)) }
{
    if count == 0 {
        Ok(())
    } else {
        dropping(noting, count - 1)
    }
}

#[tactic(auto, using(note_stretches::proofs::Laws::walked_then))]
fn signal_unit(noting: &mut Noting, program: &Program) -> Result<(), Memory>
    ensures { OnOk result (noted noting.new ≡ walked (p.signalling 0) (noted noting.old)) }
{
    noting.push(program, Kind::Unit)?;
    noting.last()?;
    Ok(())
}

/// A signal behind its event, with so many arguments.
#[tactic(auto, using(crate::proofs::Steps::signalling_none, crate::proofs::Steps::signalling_some))]
fn signalling(noting: &mut Noting, program: &Program, count: u32) -> Result<(), Memory>
    ensures { OnOk result (noted noting.new ≡ walked (p.signalling count) (noted noting.old)) }
{
    if count == 0 {
        signal_unit(noting, program)
    } else {
        dropping(noting, count - 1)
    }
}

/// An action on so many operands; whether a called function takes so many, or there is the object
/// of the method.
#[tactic(auto, using(note_stretches::proofs::Laws::walked_nothing))]
pub fn applied(
    noting: &mut Noting,
    program: &Program,
    action: Action,
    count: u32,
    fits: bool,
) -> Result<(), Memory>
    ensures { OnOk result (noted noting.new ≡ walked (p.finish (form_of action) count fits)
        (noted noting.old)) }
{
    match action {
        Action::Read(_) | Action::Length | Action::Print(_) => with_one(noting, count),
        Action::NoMember => Ok(()),
        Action::Pick(_) => noting.last(),
        Action::Index => indexing(noting, count),
        Action::Call(_) | Action::CallOwn(_) | Action::Spawn(_) | Action::SpawnOwn(_) => {
            when_fits(noting, fits)
        }
        Action::CallMethod(_) | Action::SpawnMethod(_) => noting.last(),
        Action::Floor(_) | Action::Ceil(_) | Action::Modulo => with_two(noting, count),
        Action::Await(_) => dropping(noting, count),
        Action::Signal => signalling(noting, program, count),
    }
}

/// What stands before the operands: the object of one's own method.
#[tactic(auto, using(note_stretches::proofs::Laws::walked_nothing))]
pub fn start(
    noting: &mut Noting,
    program: &Program,
    action: Action,
    scopes: &Scopes<'_>,
) -> Result<(), Memory>
    ensures { OnOk result (noted noting.new ≡ walked (p.start (form_of action)
        (scope_of scopes.now)) (noted noting.old)) }
{
    match action {
        Action::CallOwn(_) | Action::SpawnOwn(_) => {
            let this = scopes.this()?;
            push_fixed(noting, program, this)
        }
        _ => Ok(()),
    }
}
