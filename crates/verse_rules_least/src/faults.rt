//! Broken rules, each at a node.

ghost use Rattle.std.specs.Prelude.{◌≡◌};
ghost use Rattle.verse_base.specs.declared.refusals.Front.TheVariants as front;
ghost use Rattle.verse_rules_least.specs.Least.{fault_at, first, refusal_of};
ghost use Rattle.verse_rules_least.specs.Both as both;

use verse_base::places::Place;
use verse_base::refusals::{Front, Refusal, Rule};

/// A rule that is broken at a node: the node's number, the rule, and where it is reported.
#[derive(Clone, Copy, Debug, PartialEq, Eq)]
pub struct Fault {
    pub node: u32,
    pub rule: Rule,
    pub place: Place,
}

/// The fault at a node that breaks the rule with this code, where it breaks one.
pub fn fault_for(node: u32, place: Place, code: Option<u16>) -> Option<Fault>
    ensures { result ≡ fault_at node place code }
{
    match code {
        None => None,
        Some(code) => Some(Fault {
            node,
            rule: Rule(code),
            place,
        }),
    }
}

/// The fault that is there already, or else the other one.
pub fn keep_first(kept: Option<Fault>, fault: Option<Fault>) -> Option<Fault>
    ensures { result ≡ first kept fault }
{
    match kept {
        Some(kept) => Some(kept),
        None => fault,
    }
}

/// Whether a fault is at a lesser node than another one, or at the same one with a code not above.
fn is_before(fault: Fault, other: Fault) -> bool
    ensures { result ≡ both.is_before fault other }
{
    fault.node < other.node || (fault.node == other.node && fault.rule.0 <= other.rule.0)
}

/// Of two faults the one at the lesser node, and of two at one node the one with the lesser code.
pub fn lesser(fault: Option<Fault>, other: Option<Fault>) -> Option<Fault>
    ensures { result ≡ both.less_of fault other }
{
    match (fault, other) {
        (Some(fault), Some(other)) if is_before(fault, other) => Some(fault),
        (Some(_), Some(other)) => Some(other),
        (Some(fault), None) => Some(fault),
        (None, other) => other,
    }
}

/// Why a program with this fault is refused.
pub fn refusal(fault: Fault) -> Refusal
    ensures { result ≡ refusal_of fault }
{
    Refusal {
        rule: fault.rule,
        place: fault.place,
    }
}

/// Nothing, or the refusal for a fault.
pub fn refused_for(fault: Option<Fault>) -> Result<(), Front>
    ensures { result ≡ both.outcome fault }
{
    match fault {
        Some(fault) => Err(Front::Refused(refusal(fault))),
        None => Ok(()),
    }
}
