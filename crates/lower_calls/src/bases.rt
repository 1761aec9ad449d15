//! What `set` writes to, before its indices.

ghost use Rattle.std.specs.Prelude.{◌≡◌, ℕ, Bool, IfOk};
ghost use Rattle.verse_tree.specs.View.{tree_of};
ghost use Rattle.verse_meaning.specs.Programs.{Program};
ghost use Rattle.lower_code.specs.Arounds as a;
ghost use Rattle.lower_code.specs.Scopes as s;
ghost use Rattle.lower_code.specs.Applied as p;
ghost use Rattle.lower_code.specs.Lowering as l;
ghost use Rattle.lower_lookup.specs.Members.{base_view};
ghost use Rattle.lower_expr.specs.Endings.{ending_code};
ghost use Rattle.lower_expr.specs.Locals.{scope_of, found_of};

use lower_code::arounds::Around;
use lower_expr::endings::{Ending, push_fixed, push_varies};
use lower_expr::scopes::{Found, Scopes};
use lower_lookup::members::Base;
use lower_lookup::targets::{Target, target_of};
use verse_base::refusals::Memory;
use verse_code::operations::Op;
use verse_tree::exprs::{Assign, Expr};

/// The cell of a base.
pub fn base_code(base: Base<'_>, scopes: &Scopes<'_>) -> Result<Ending, Memory>
    ensures { IfOk result (λ ending. (p : Program) (k : ℕ → ℕ → Bool) →
        ending_code ending ≡ l.base_code p k (base_view base.entry) (scope_of scopes.now)) }
{
    match base {
        Base::Variable(name) => Ok(push_varies(scopes.find(name)?)),
        Base::Own(_) => Ok(push_fixed(scopes.this()?)),
        Base::Object(_) | Base::Nowhere => Ok(Ending::One(Op::Unit)),
    }
}

fn is_fixed(found: Found) -> bool
    ensures { result ≡ s.is_fixed (found_of found) }
{
    match found {
        Found::Fixed(_) => true,
        _ => false,
    }
}

fn is_varies(found: Found) -> bool
    ensures { result ≡ s.is_varies (found_of found) }
{
    match found {
        Found::Varies(_) => true,
        _ => false,
    }
}

/// Whether a base is there that is a name.
fn named_base(base: Base<'_>, scopes: &Scopes<'_>) -> Result<bool, Memory>
    ensures { IfOk result (λ there. (p : Program) (k : ℕ → ℕ → Bool) →
        there ≡ l.named_base p k (base_view base.entry) (scope_of scopes.now)) }
{
    match base {
        Base::Variable(name) => Ok(is_varies(scopes.find(name)?)),
        Base::Own(_) => Ok(is_fixed(scopes.this()?)),
        Base::Object(_) | Base::Nowhere => Ok(false),
    }
}

/// Whether a base is there that is a member.
fn member_base(base: Base<'_>) -> bool
    ensures { (p : Program) (k : ℕ → ℕ → Bool) → result ≡ l.member_base p k (base_view base.entry) }
{
    match base {
        Base::Object(_) => true,
        _ => false,
    }
}

/// Whether the base of a target is there.
pub fn has_base(target: &Expr, base: Base<'_>, scopes: &Scopes<'_>) -> Result<bool, Memory>
    ensures { IfOk result (λ there. (p : Program) (k : ℕ → ℕ → Bool) →
        there ≡ l.has_base p k (tree_of target.now) (base_view base.entry) (scope_of scopes.now)) }
{
    match target_of(target) {
        Target::Name => Ok(named_base(base, scopes)?),
        Target::Member => Ok(member_base(base)),
        Target::Other => Ok(false),
    }
}

/// The slot of the cell that is written.
pub fn slot_of(base: Base<'_>) -> u32
    ensures { result ≡ p.slot_of (base_view base.entry) }
{
    match base {
        Base::Own(slot) | Base::Object(slot) => slot,
        _ => 0,
    }
}

/// Whether the value given stays, where the types of the value and the place differ or not.
pub fn keeps(assign: Assign, differ: bool) -> bool
    ensures { result ≡ l.keeps assign differ }
{
    match assign {
        Assign::Set => differ,
        _ => false,
    }
}

/// Above so many operands more.
#[tactic(auto, using(crate::proofs::Aiming::raised_is))]
pub fn raised(count: u32, around: Around) -> Result<Around, Memory>
    ensures { IfOk result (λ above. above ≡ a.raised count around) }
{
    match around.height.checked_add(count) {
        Some(height) => Ok(Around { height, ..around }),
        None => Err(Memory),
    }
}
