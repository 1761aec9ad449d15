//! Tokens: their kinds, and where they stand.

use verse_base::places::Place;

/// A word of the language, which is no name.
#[derive(Clone, Copy, Debug, PartialEq, Eq)]
pub enum Word {
    /// `array`
    Array,
    /// `and`
    And,
    /// `block`
    Block,
    /// `branch`
    Branch,
    /// `break`
    Break,
    /// `case`
    Case,
    /// `char`
    Char,
    /// `class`
    Class,
    /// `defer`
    Defer,
    /// `else`
    Else,
    /// `enum`
    Enum,
    /// `event`
    Event,
    /// `false`
    False,
    /// `for`
    For,
    /// `if`
    If,
    /// `Inf`
    Inf,
    /// `int`
    Int,
    /// `logic`
    Logic,
    /// `loop`
    Loop,
    /// `map`
    Map,
    /// `not`
    Not,
    /// `option`
    Option,
    /// `or`
    Or,
    /// `race`
    Race,
    /// `return`
    Return,
    /// `rush`
    Rush,
    /// `Self`
    This,
    /// `set`
    Set,
    /// `Sleep`
    Sleep,
    /// `spawn`
    Spawn,
    /// `string`
    String,
    /// `sync`
    Sync,
    /// `task`
    Task,
    /// `then`
    Then,
    /// `true`
    True,
    /// `tuple`
    Tuple,
    /// `using`
    Using,
    /// `var`
    Var,
    /// `void`
    Void,
    /// `_`
    Wild,
}

/// A mark: a token of one or two characters that are neither letters, digits nor quotes.
#[derive(Clone, Copy, Debug, PartialEq, Eq)]
pub enum Mark {
    /// `:=`
    Define,
    /// `:`
    Colon,
    /// `=>`
    FatArrow,
    /// `=`
    Equals,
    /// `<>`
    Differs,
    /// `<=`
    AtMost,
    /// `>=`
    AtLeast,
    /// `<`
    Below,
    /// `>`
    Above,
    /// `+=`
    PlusEquals,
    /// `+`
    Plus,
    /// `-=`
    MinusEquals,
    /// `->`
    Arrow,
    /// `-`
    Minus,
    /// `*=`
    TimesEquals,
    /// `*`
    Times,
    /// `/`
    Slash,
    /// `..`
    DotDot,
    /// `.`
    Dot,
    /// `,`
    Comma,
    /// `;`
    Semicolon,
    /// `(`
    RoundOpen,
    /// `)`
    RoundClose,
    /// `[`
    SquareOpen,
    /// `]`
    SquareClose,
    /// `{`
    BraceOpen,
    /// `}`
    BraceClose,
    /// `?`
    Question,
}

/// What kind of token it is, and its value.
#[derive(Clone, Copy, Debug, PartialEq, Eq)]
pub enum TokenKind {
    /// A letter or `_`, then letters, digits or `_`, and no word.
    Name,
    /// A word of the language.
    Word(Word),
    /// A word of Verse that this profile leaves out.
    LeftOut,
    /// An integer in decimal or in hexadecimal digits: its value, 0 to 9223372036854775807.
    Int(i64),
    /// Digits, a point and digits: the number of milliseconds, 0 to 1000000000.
    Dec(u64),
    /// A character literal: its byte.
    Char(u8),
    /// A text without holes.
    Text,
    /// The beginning of a text, up to its first hole.
    TextOpen,
    /// The part of a text between two holes.
    TextMid,
    /// The part of a text behind its last hole.
    TextClose,
    /// A mark.
    Mark(Mark),
}

/// A token of a file.
#[derive(Clone, Copy, Debug, PartialEq, Eq)]
pub struct Token {
    pub kind: TokenKind,
    /// The offset of its first byte in the file, a byte-order mark included.
    pub start: u32,
    /// The offset behind its last byte.
    pub end: u32,
    /// The place of its first byte.
    pub place: Place,
    /// Where the token is the first of a line: the offsets at which the line's indentation begins
    /// and ends.
    pub indent: Option<(u32, u32)>,
}
