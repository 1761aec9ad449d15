//! `if`.

ghost use Rattle.std.specs.Prelude.{◌≡◌, IfOk};
ghost use Rattle.verse_tree.specs.View.{if_of};
ghost use Rattle.verse_rules_types.specs.Types.{ty_of};
ghost use Rattle.verse_check_typing.specs.Views.{facts_of};
ghost use Rattle.verse_check_control.specs.Choices.{choice_type};

use verse_base::refusals::Memory;
use verse_check_typing::facts::Facts;
use verse_rules_types::joining::join_of;
use verse_tree::exprs::IfParts;
use verse_tree::tables::Ty;

/// An `if`: the join of both parts, and void where there is no other one.
pub fn choice(facts: &Facts<'_, '_>, parts: &IfParts) -> Result<Ty, Memory>
    ensures { IfOk result (λ t. ty_of t ≡ choice_type (facts_of facts.now) (if_of parts.now).taken
        (if_of parts.now).otherwise) }
{
    match &parts.otherwise {
        None => Ok(Ty::Void),
        Some(other) => {
            let taken = facts.type_of(parts.then.get());
            let other = facts.type_of(other.get());
            join_of(facts.world.alloc, facts.classes(), taken, other)
        }
    }
}
