//! The text that is printed for each rule.

ghost use Rattle.std.specs.Prelude.{◌≡◌, Some, IsSome};
ghost use Rattle.verse_base.specs.RuleText.{rule_text_of};

use crate::refusals::Rule;

/// The text that is printed for a listed rule, as `unexpected token` for E030.
pub fn rule_text(rule: Rule) -> &'static str
    requires { IsSome (rule_text_of rule.0) }
    ensures { Some result.now ≡ rule_text_of rule.0 }
{
    match rule.0 {
        1 => "not UTF-8",
        2 => "file too large",
        10 => "unexpected character",
        11 => "text not closed",
        12 => "comment not closed",
        13 => "unknown escape",
        14 => "integer too large",
        15 => "duration out of range",
        16 => "bad character literal",
        20 => "bad indentation",
        21 => "bracket not matched",
        22 => "nested too deeply",
        30 => "unexpected token",
        40 => "name already defined",
        41 => "unknown name",
        42 => "class inherits from itself",
        43 => "no Main",
        44 => "Main has the wrong shape",
        45 => "override does not fit",
        50 => "types do not match",
        51 => "cannot be called",
        52 => "wrong number of arguments",
        53 => "cannot be compared",
        54 => "cannot be set",
        55 => "field without a value",
        56 => "no such member",
        57 => "needs two expressions",
        58 => "case not covered",
        59 => "quotient outside Floor or Ceil",
        60 => "can fail outside a failure context",
        61 => "cannot be undone here",
        62 => "suspends outside an async context",
        63 => "suspends in a failure context",
        64 => "specifiers do not fit",
        65 => "effect not allowed in computes",
        66 => "leaves a failure context or an arm",
        67 => "wrong kind of brackets",
        68 => "rush or branch in a loop",
        69 => "not part of this profile",
        70 => "type nested too deeply",
        98 => "program too large",
        99 => "not built yet",
        _ => unreachable!(),
    }
}
