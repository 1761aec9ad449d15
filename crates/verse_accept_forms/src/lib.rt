//! What the other forms of a program that breaks no rule need for its soundness, beside those of
//! `verse_accept_fine`. Read `Plain`, forms that ask only for their type and for what is allowed;
//! and `Callees`, calls, indices and `spawn`.
#![tactic(auto)]

ghost use Rattle.verse_accept_forms.specs.Plain.{PlainNeeds};
ghost use Rattle.verse_accept_forms.specs.Callees.{CalleesNeed};

/// Literals, events, blocks and waits are of their sorts, and what fails or waits may do so there.
pub fn plain_needs()
    ensures { PlainNeeds }
{}

/// What is called or indexed takes operands that fit it, where it may wait and fail as it may; what
/// a `spawn` starts is a call of a function that cannot fail.
pub fn callees_need()
    ensures { CalleesNeed }
{}
