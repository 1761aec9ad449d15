//! The rules of tokens.

use verse_base::refusals::Rule;

/// The file is not UTF-8.
pub const NOT_UTF8: Rule = Rule(1);
/// No token or comment begins here.
pub const UNEXPECTED: Rule = Rule(10);
/// A text or a hole has no end.
pub const TEXT_END: Rule = Rule(11);
/// A comment has no end.
pub const COMMENT_END: Rule = Rule(12);
/// A backslash begins no escape.
pub const ESCAPE: Rule = Rule(13);
/// An integer is above the greatest int.
pub const INTEGER: Rule = Rule(14);
/// A duration has more than three decimals, or is too long.
pub const DURATION: Rule = Rule(15);
/// A quote begins no character literal.
pub const CHARACTER: Rule = Rule(16);
