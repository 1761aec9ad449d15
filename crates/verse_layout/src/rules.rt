//! The rules of layout.

use verse_base::refusals::Rule;

/// A line, or what follows an opener, has a wrong indentation.
pub const INDENTATION: Rule = Rule(20);
/// A bracket is not matched.
pub const BRACKET: Rule = Rule(21);
/// Brackets, blocks and operators are nested too deeply.
pub const NESTING: Rule = Rule(22);
