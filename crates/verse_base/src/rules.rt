//! The rules that whole files, names, types, effects and whole programs break, each by its number.
//! The rules of tokens and of lines stand where these are read.

/// E002: a file has more bytes than a file may have.
pub const FILE_TOO_LARGE: u16 = 2;

/// E040: a name that is visible already is defined.
pub const NAME_DEFINED: u16 = 40;

/// E041: a name is not visible, or stands for something else than is wanted.
pub const NAME_UNKNOWN: u16 = 41;

/// E042: a class inherits from itself.
pub const CIRCULAR: u16 = 42;

/// E043: there is no Main.
pub const NO_MAIN: u16 = 43;

/// E044: Main cannot start a program.
pub const MISSHAPEN_MAIN: u16 = 44;

/// E045: an override does not fit, or a method overrides unmarked.
pub const OVERRIDE_MISFITS: u16 = 45;

/// E050: a type is not the one that is wanted.
pub const TYPES_DIFFER: u16 = 50;

/// E051: what is called cannot be called.
pub const UNCALLABLE: u16 = 51;

/// E052: a call has too many or too few arguments.
pub const MISCOUNTED: u16 = 52;

/// E053: what is compared, or is a key, cannot be compared.
pub const INCOMPARABLE: u16 = 53;

/// E054: what is set cannot be set.
pub const UNSETTABLE: u16 = 54;

/// E055: a field of an instance has no value.
pub const LACKING: u16 = 55;

/// E056: there is no such member, or it stands where it may not.
pub const MEMBERLESS: u16 = 56;

/// E057: a sync, race or rush has fewer than two arms.
pub const ALONE: u16 = 57;

/// E058: a case does not cover all values.
pub const UNCOVERED: u16 = 58;

/// E059: a quotient stands outside of Floor and Ceil.
pub const UNROUNDED: u16 = 59;

/// E060: what can fail stands outside of failure contexts.
pub const UNCAUGHT: u16 = 60;

/// E061: what cannot be undone stands where it may have to be.
pub const NOT_UNDONE: u16 = 61;

/// E062: what suspends stands outside of async contexts.
pub const NOT_ASYNC: u16 = 62;

/// E063: what suspends stands in a failure context.
pub const SUSPENDS_TRIED: u16 = 63;

/// E064: specifiers do not fit.
pub const SPECIFIERS_MISFIT: u16 = 64;

/// E065: a function that computes does more than that.
pub const COMPUTES_MORE: u16 = 65;

/// E066: a return or break leaves a failure context or an arm.
pub const LEAVES: u16 = 66;

/// E067: a call has the wrong kind of brackets.
pub const WRONG_BRACKETS: u16 = 67;

/// E068: a rush or branch stands in a loop.
pub const BEGINS_AGAIN: u16 = 68;

/// E070: a type is nested too deeply.
pub const TYPE_TOO_DEEP: u16 = 70;

/// E098: a program is too large.
pub const PROGRAM_TOO_LARGE: u16 = 98;
