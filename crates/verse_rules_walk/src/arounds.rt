//! What stands round a node.

ghost use Rattle.std.specs.Prelude.{◌≡◌, map};
ghost use Rattle.verse_tree.specs.View.{written_of};
ghost use Rattle.verse_tree.specs.ItemView.{spec_of};
ghost use Rattle.verse_rules_walk.specs.Around as w;
ghost use Rattle.verse_rules_walk.specs.Specifiers.{writes, written_effects};
ghost use Rattle.verse_rules_walk.specs.Views.{used_of, around_of};

use verse_tree::exprs::Operator;
use verse_tree::items::Spec;
use verse_tree::tables::Effects;
use verse_tree::types::TyExpr;

/// How a node is used by the one that it is a part of.
#[derive(Clone, Copy)]
pub enum Used<'a> {
    Free,
    /// What is called or indexed.
    Callee,
    /// What stands before the dot of a member.
    Object,
    /// An argument: the number of the callee's node, and its place from 0.
    Argument(u32, usize),
    /// What has to fit a written type: the value of a definition, the default of a field, the body
    /// of a function.
    Value(&'a TyExpr),
    /// The target of a `set`.
    Target,
    /// What is indexed in the target of a `set`.
    Base,
    /// The operand of `spawn`.
    Spawned,
}

/// The function in which a node stands, or what takes its place for the default of a field.
#[derive(Clone, Copy)]
pub struct Owner<'a> {
    /// The number of the function's node.
    pub function: Option<u32>,
    /// The effects that are written; a default counts as the body of a `transacts` function.
    pub effects: Effects,
    /// The type of the function's result.
    pub result: Option<&'a TyExpr>,
}

/// All that a rule at a node asks of the nodes above it.
#[derive(Clone, Copy)]
pub struct Around<'a> {
    pub used: Used<'a>,
    pub owner: Owner<'a>,
    /// The number of the innermost `loop`.
    pub enclosing: Option<u32>,
    /// Whether a failure context stands round the node, with no `defer` between.
    pub is_caught: bool,
    /// Whether a failure context stands round the node.
    pub is_tried: bool,
    /// Whether a `defer` stands round the node.
    pub is_deferred: bool,
    /// Whether `return` would leave no failure context but the body of a `decides` function, no
    /// arm, branch or `defer`.
    pub may_return: bool,
    /// The same of `break`, which leaves the innermost `loop`.
    pub may_break: bool,
    /// Whether, of function body, arm, branch, body of `loop` and body of `for`, the innermost is
    /// one of the last two.
    pub repeats: bool,
}

const NO_EFFECTS: Effects = Effects {
    computes: false,
    transacts: false,
    decides: false,
    suspends: false,
};

/// Round an item and its names.
pub fn outside<'a>() -> Around<'a>
    ensures { around_of result ≡ w.outside }
{
    Around {
        used: Used::Free,
        owner: Owner {
            function: None,
            effects: NO_EFFECTS,
            result: None,
        },
        enclosing: None,
        is_caught: false,
        is_tried: false,
        is_deferred: false,
        may_return: false,
        may_break: false,
        repeats: false,
    }
}

/// Round the body of a function.
pub fn body_around<'a>(number: u32, effects: Effects, ty: &'a TyExpr) -> Around<'a>
    ensures { around_of result ≡ w.body_around number effects (written_of ty.now) }
{
    Around {
        used: Used::Value(ty),
        owner: Owner {
            function: Some(number),
            effects,
            result: Some(ty),
        },
        enclosing: None,
        is_caught: effects.decides,
        is_tried: effects.decides,
        is_deferred: false,
        may_return: true,
        may_break: false,
        repeats: false,
    }
}

/// Round the default of a field.
pub fn default_around<'a>(ty: &'a TyExpr) -> Around<'a>
    ensures { around_of result ≡ w.default_around (written_of ty.now) }
{
    Around {
        used: Used::Value(ty),
        owner: Owner {
            function: None,
            effects: Effects {
                computes: false,
                transacts: true,
                decides: false,
                suspends: false,
            },
            result: None,
        },
        enclosing: None,
        is_caught: false,
        is_tried: false,
        is_deferred: false,
        may_return: false,
        may_break: false,
        repeats: false,
    }
}

impl<'a> Around<'a> {
    /// Round a part that is used in this way.
    pub fn used_as(self, used: Used<'a>) -> Around<'a>
        ensures { around_of result ≡ w.used_as (used_of used.entry) (around_of self.entry) }
    {
        Around { used, ..self }
    }

    /// Round a part that is used freely.
    pub fn freely(self) -> Around<'a>
        ensures { around_of result ≡ w.freely (around_of self.entry) }
    {
        Around {
            used: Used::Free,
            ..self
        }
    }

    /// Round a part that is a failure context.
    pub fn caught(self) -> Around<'a>
        ensures { around_of result ≡ w.caught (around_of self.entry) }
    {
        Around {
            used: Used::Free,
            is_caught: true,
            is_tried: true,
            may_return: false,
            may_break: false,
            ..self
        }
    }

    /// Round the body of the `loop` with this number.
    pub fn looped(self, number: u32) -> Around<'a>
        ensures { around_of result ≡ w.looped number (around_of self.entry) }
    {
        Around {
            used: Used::Free,
            enclosing: Some(number),
            may_break: true,
            repeats: true,
            ..self
        }
    }

    /// Round the body of a `for`.
    pub fn repeated(self) -> Around<'a>
        ensures { around_of result ≡ w.repeated (around_of self.entry) }
    {
        Around {
            used: Used::Free,
            repeats: true,
            ..self
        }
    }

    /// Round an arm or the body of a `branch`.
    pub fn armed(self) -> Around<'a>
        ensures { around_of result ≡ w.armed (around_of self.entry) }
    {
        Around {
            used: Used::Free,
            may_return: false,
            may_break: false,
            repeats: false,
            ..self
        }
    }

    /// Round the block of a `defer`.
    pub fn deferred(self) -> Around<'a>
        ensures { around_of result ≡ w.deferred (around_of self.entry) }
    {
        Around {
            used: Used::Free,
            is_caught: false,
            is_deferred: true,
            may_return: false,
            may_break: false,
            ..self
        }
    }

    /// Round the left operand of a chain.
    pub fn left_of(self, operator: Operator) -> Around<'a>
        ensures { around_of result ≡ w.left_of operator (around_of self.entry) }
    {
        match operator {
            Operator::Or => self.caught(),
            Operator::And => self.freely(),
            Operator::Add => self.freely(),
            Operator::Sub => self.freely(),
            Operator::Mul => self.freely(),
            Operator::Div => self.freely(),
        }
    }

    /// Round what is indexed.
    pub fn indexed(self) -> Around<'a>
        ensures { around_of result ≡ w.indexed (around_of self.entry) }
    {
        match self.used {
            Used::Target => self.used_as(Used::Base),
            Used::Base => self.used_as(Used::Base),
            _ => self.used_as(Used::Callee),
        }
    }
}

/// Whether one of the specifiers has this name.
pub fn does_write(specs: &[Spec], name: &[u8]) -> bool
    ensures { result ≡ writes name.now (map spec_of specs.now) }
{
    'specs: for spec in specs {
        if spec.name.as_slice() == name {
            return true;
        }
    }
    false
}

/// The effects that are written.
pub fn effects_written(specs: &[Spec]) -> Effects
    ensures { result ≡ written_effects (map spec_of specs.now) }
{
    Effects {
        computes: does_write(specs, b"computes".as_slice()),
        transacts: does_write(specs, b"transacts".as_slice()),
        decides: does_write(specs, b"decides".as_slice()),
        suspends: does_write(specs, b"suspends".as_slice()),
    }
}
