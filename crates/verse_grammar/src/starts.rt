//! What the first tok of a phrase says of it.

ghost use Rattle.std.specs.Prelude.{◌≡◌};
ghost use Rattle.verse_grammar.specs.Starts.{type_start, primary_start, primary_word};
ghost use Rattle.verse_grammar.specs.Starts.{postfix_start, stmt_start, pattern_start, item_start};
ghost use Rattle.verse_grammar.specs.Starts.{sum_operator, product_operator, comparison_at};
ghost use Rattle.verse_grammar.specs.Starts.{assign_at, duration_at, int_at, begins_expr, fixed_at};
ghost use Rattle.verse_grammar.specs.Starts.{fixed_mark};

use verse_layout::toks::TokKind;
use verse_lex::tokens::{Mark, TokenKind, Word};
use verse_tree::exprs::{Assign, Comparison, Operator};

/// What a type begins with.
#[derive(Clone, Copy, Debug, PartialEq, Eq)]
pub enum TypeStart {
    Int,
    Logic,
    Char,
    String,
    Void,
    Name,
    /// `?`
    Option,
    /// `[`
    Bracket,
    Tuple,
    Task,
    Event,
}

/// What a primary form begins with.
#[derive(Clone, Copy, Debug, PartialEq, Eq)]
pub enum PrimaryStart {
    Int(i64),
    Char(u8),
    Text,
    TextOpen,
    True,
    False,
    /// `Self`
    This,
    Name,
    /// `(`
    Round,
    Array,
    Map,
    Option,
    Logic,
    Event,
    For,
    Loop,
    Block,
    Branch,
    Sync,
    Race,
    Rush,
    Case,
    Spawn,
    Sleep,
}

/// What a postfix begins with.
#[derive(Clone, Copy, Debug, PartialEq, Eq)]
pub enum PostfixStart {
    /// `(`
    Round,
    /// `[`
    Square,
    Dot,
    Question,
}

/// What a statement begins with that is not surely an expression.
#[derive(Clone, Copy, Debug, PartialEq, Eq)]
pub enum StmtStart {
    Name,
    Var,
    Set,
    Return,
    Break,
}

/// What a pattern begins with.
#[derive(Clone, Copy, Debug, PartialEq, Eq)]
pub enum PatternStart {
    Int(i64),
    Minus,
    Char(u8),
    Text,
    True,
    False,
    Name,
    /// `_`
    Wild,
}

/// What an item begins with.
#[derive(Clone, Copy, Debug, PartialEq, Eq)]
pub enum ItemStart {
    Using,
    Name,
}

/// How long a `Sleep` takes.
#[derive(Clone, Copy, Debug, PartialEq, Eq)]
pub enum Duration {
    Milliseconds(u64),
    /// `Inf`
    Forever,
}

/// A tok that the grammar asks for by its kind alone.
#[derive(Clone, Copy, Debug, PartialEq, Eq)]
pub enum Fixed {
    Name,
    TextMid,
    TextClose,
    Open,
    Sep,
    Close,
    /// `class`
    Class,
    /// `defer`
    Defer,
    /// `else`
    Else,
    /// `enum`
    Enum,
    /// `if`
    If,
    /// `not`
    Not,
    /// `then`
    Then,
    /// `var`
    Var,
    /// `:=`
    Define,
    /// `:`
    Colon,
    /// `=>`
    FatArrow,
    /// `=`
    Equals,
    /// `<`
    Below,
    /// `>`
    Above,
    /// `->`
    Arrow,
    /// `-`
    Minus,
    /// `/`
    Slash,
    /// `..`
    DotDot,
    /// `.`
    Dot,
    /// `,`
    Comma,
    /// `(`
    RoundOpen,
    /// `)`
    RoundClose,
    /// `]`
    SquareClose,
}

/// What kind of type begins with this tok.
pub fn type_start(kind: TokKind) -> Option<TypeStart>
    ensures { result ≡ type_start kind }
{
    match kind {
        TokKind::Plain(TokenKind::Word(Word::Int)) => Some(TypeStart::Int),
        TokKind::Plain(TokenKind::Word(Word::Logic)) => Some(TypeStart::Logic),
        TokKind::Plain(TokenKind::Word(Word::Char)) => Some(TypeStart::Char),
        TokKind::Plain(TokenKind::Word(Word::String)) => Some(TypeStart::String),
        TokKind::Plain(TokenKind::Word(Word::Void)) => Some(TypeStart::Void),
        TokKind::Plain(TokenKind::Word(Word::Tuple)) => Some(TypeStart::Tuple),
        TokKind::Plain(TokenKind::Word(Word::Task)) => Some(TypeStart::Task),
        TokKind::Plain(TokenKind::Word(Word::Event)) => Some(TypeStart::Event),
        TokKind::Plain(TokenKind::Name) => Some(TypeStart::Name),
        TokKind::Plain(TokenKind::Mark(Mark::Question)) => Some(TypeStart::Option),
        TokKind::Plain(TokenKind::Mark(Mark::SquareOpen)) => Some(TypeStart::Bracket),
        _ => None,
    }
}

/// What kind of primary form begins with this tok.
pub fn primary_start(kind: TokKind) -> Option<PrimaryStart>
    ensures { result ≡ primary_start kind }
{
    match kind {
        TokKind::Plain(TokenKind::Int(n)) => Some(PrimaryStart::Int(n)),
        TokKind::Plain(TokenKind::Char(c)) => Some(PrimaryStart::Char(c)),
        TokKind::Plain(TokenKind::Text) => Some(PrimaryStart::Text),
        TokKind::Plain(TokenKind::TextOpen) => Some(PrimaryStart::TextOpen),
        TokKind::Plain(TokenKind::Name) => Some(PrimaryStart::Name),
        TokKind::Plain(TokenKind::Mark(Mark::RoundOpen)) => Some(PrimaryStart::Round),
        TokKind::Plain(TokenKind::Word(word)) => primary_word(word),
        _ => None,
    }
}

/// What kind of primary form begins with this word.
fn primary_word(word: Word) -> Option<PrimaryStart>
    ensures { result ≡ primary_word word }
{
    match word {
        Word::True => Some(PrimaryStart::True),
        Word::False => Some(PrimaryStart::False),
        Word::This => Some(PrimaryStart::This),
        Word::Array => Some(PrimaryStart::Array),
        Word::Map => Some(PrimaryStart::Map),
        Word::Option => Some(PrimaryStart::Option),
        Word::Logic => Some(PrimaryStart::Logic),
        Word::Event => Some(PrimaryStart::Event),
        Word::For => Some(PrimaryStart::For),
        Word::Loop => Some(PrimaryStart::Loop),
        Word::Block => Some(PrimaryStart::Block),
        Word::Branch => Some(PrimaryStart::Branch),
        Word::Sync => Some(PrimaryStart::Sync),
        Word::Race => Some(PrimaryStart::Race),
        Word::Rush => Some(PrimaryStart::Rush),
        Word::Case => Some(PrimaryStart::Case),
        Word::Spawn => Some(PrimaryStart::Spawn),
        Word::Sleep => Some(PrimaryStart::Sleep),
        _ => None,
    }
}

/// What kind of postfix begins with this tok.
pub fn postfix_start(kind: TokKind) -> Option<PostfixStart>
    ensures { result ≡ postfix_start kind }
{
    match kind {
        TokKind::Plain(TokenKind::Mark(Mark::RoundOpen)) => Some(PostfixStart::Round),
        TokKind::Plain(TokenKind::Mark(Mark::SquareOpen)) => Some(PostfixStart::Square),
        TokKind::Plain(TokenKind::Mark(Mark::Dot)) => Some(PostfixStart::Dot),
        TokKind::Plain(TokenKind::Mark(Mark::Question)) => Some(PostfixStart::Question),
        _ => None,
    }
}

/// What kind of statement begins with this tok, where it is not surely an expression.
pub fn stmt_start(kind: TokKind) -> Option<StmtStart>
    ensures { result ≡ stmt_start kind }
{
    match kind {
        TokKind::Plain(TokenKind::Name) => Some(StmtStart::Name),
        TokKind::Plain(TokenKind::Word(Word::Var)) => Some(StmtStart::Var),
        TokKind::Plain(TokenKind::Word(Word::Set)) => Some(StmtStart::Set),
        TokKind::Plain(TokenKind::Word(Word::Return)) => Some(StmtStart::Return),
        TokKind::Plain(TokenKind::Word(Word::Break)) => Some(StmtStart::Break),
        _ => None,
    }
}

/// What kind of pattern begins with this tok.
pub fn pattern_start(kind: TokKind) -> Option<PatternStart>
    ensures { result ≡ pattern_start kind }
{
    match kind {
        TokKind::Plain(TokenKind::Int(n)) => Some(PatternStart::Int(n)),
        TokKind::Plain(TokenKind::Char(c)) => Some(PatternStart::Char(c)),
        TokKind::Plain(TokenKind::Text) => Some(PatternStart::Text),
        TokKind::Plain(TokenKind::Name) => Some(PatternStart::Name),
        TokKind::Plain(TokenKind::Mark(Mark::Minus)) => Some(PatternStart::Minus),
        TokKind::Plain(TokenKind::Word(Word::True)) => Some(PatternStart::True),
        TokKind::Plain(TokenKind::Word(Word::False)) => Some(PatternStart::False),
        TokKind::Plain(TokenKind::Word(Word::Wild)) => Some(PatternStart::Wild),
        _ => None,
    }
}

/// What kind of item begins with this tok.
pub fn item_start(kind: TokKind) -> Option<ItemStart>
    ensures { result ≡ item_start kind }
{
    match kind {
        TokKind::Plain(TokenKind::Word(Word::Using)) => Some(ItemStart::Using),
        TokKind::Plain(TokenKind::Name) => Some(ItemStart::Name),
        _ => None,
    }
}

/// The operator of a sum.
pub fn sum_operator(kind: TokKind) -> Option<Operator>
    ensures { result ≡ sum_operator kind }
{
    match kind {
        TokKind::Plain(TokenKind::Mark(Mark::Plus)) => Some(Operator::Add),
        TokKind::Plain(TokenKind::Mark(Mark::Minus)) => Some(Operator::Sub),
        _ => None,
    }
}

/// The operator of a product.
pub fn product_operator(kind: TokKind) -> Option<Operator>
    ensures { result ≡ product_operator kind }
{
    match kind {
        TokKind::Plain(TokenKind::Mark(Mark::Times)) => Some(Operator::Mul),
        TokKind::Plain(TokenKind::Mark(Mark::Slash)) => Some(Operator::Div),
        _ => None,
    }
}

/// The operator of a comparison.
pub fn comparison_at(kind: TokKind) -> Option<Comparison>
    ensures { result ≡ comparison_at kind }
{
    match kind {
        TokKind::Plain(TokenKind::Mark(Mark::Equals)) => Some(Comparison::Equal),
        TokKind::Plain(TokenKind::Mark(Mark::Differs)) => Some(Comparison::Differs),
        TokKind::Plain(TokenKind::Mark(Mark::Below)) => Some(Comparison::Below),
        TokKind::Plain(TokenKind::Mark(Mark::AtMost)) => Some(Comparison::AtMost),
        TokKind::Plain(TokenKind::Mark(Mark::Above)) => Some(Comparison::Above),
        TokKind::Plain(TokenKind::Mark(Mark::AtLeast)) => Some(Comparison::AtLeast),
        _ => None,
    }
}

/// How a `set` with this tok writes.
pub fn assign_at(kind: TokKind) -> Option<Assign>
    ensures { result ≡ assign_at kind }
{
    match kind {
        TokKind::Plain(TokenKind::Mark(Mark::Equals)) => Some(Assign::Set),
        TokKind::Plain(TokenKind::Mark(Mark::PlusEquals)) => Some(Assign::Add),
        TokKind::Plain(TokenKind::Mark(Mark::MinusEquals)) => Some(Assign::Sub),
        TokKind::Plain(TokenKind::Mark(Mark::TimesEquals)) => Some(Assign::Mul),
        _ => None,
    }
}

/// The duration that this tok spells.
pub fn duration_at(kind: TokKind) -> Option<Duration>
    ensures { result ≡ duration_at kind }
{
    match kind {
        TokKind::Plain(TokenKind::Dec(milliseconds)) => Some(Duration::Milliseconds(milliseconds)),
        TokKind::Plain(TokenKind::Word(Word::Inf)) => Some(Duration::Forever),
        _ => None,
    }
}

/// The int that this tok spells.
pub fn int_at(kind: TokKind) -> Option<i64>
    ensures { result ≡ int_at kind }
{
    match kind {
        TokKind::Plain(TokenKind::Int(n)) => Some(n),
        _ => None,
    }
}

/// Whether an expression begins with this tok.
pub fn begins_expr(kind: TokKind) -> bool
    ensures { result ≡ begins_expr kind }
{
    match kind {
        TokKind::Plain(TokenKind::Word(Word::If)) => true,
        TokKind::Plain(TokenKind::Word(Word::Not)) => true,
        TokKind::Plain(TokenKind::Mark(Mark::Minus)) => true,
        _ => primary_start(kind).is_some(),
    }
}

/// The tok of this kind, where the grammar asks for it by its kind alone.
pub fn fixed_at(kind: TokKind) -> Option<Fixed>
    ensures { result ≡ fixed_at kind }
{
    match kind {
        TokKind::Open => Some(Fixed::Open),
        TokKind::Sep => Some(Fixed::Sep),
        TokKind::Close => Some(Fixed::Close),
        TokKind::Plain(TokenKind::Name) => Some(Fixed::Name),
        TokKind::Plain(TokenKind::TextMid) => Some(Fixed::TextMid),
        TokKind::Plain(TokenKind::TextClose) => Some(Fixed::TextClose),
        TokKind::Plain(TokenKind::Word(Word::Class)) => Some(Fixed::Class),
        TokKind::Plain(TokenKind::Word(Word::Defer)) => Some(Fixed::Defer),
        TokKind::Plain(TokenKind::Word(Word::Else)) => Some(Fixed::Else),
        TokKind::Plain(TokenKind::Word(Word::Enum)) => Some(Fixed::Enum),
        TokKind::Plain(TokenKind::Word(Word::If)) => Some(Fixed::If),
        TokKind::Plain(TokenKind::Word(Word::Not)) => Some(Fixed::Not),
        TokKind::Plain(TokenKind::Word(Word::Then)) => Some(Fixed::Then),
        TokKind::Plain(TokenKind::Word(Word::Var)) => Some(Fixed::Var),
        TokKind::Plain(TokenKind::Mark(mark)) => fixed_mark(mark),
        _ => None,
    }
}

/// The same of marks.
fn fixed_mark(mark: Mark) -> Option<Fixed>
    ensures { result ≡ fixed_mark mark }
{
    match mark {
        Mark::Define => Some(Fixed::Define),
        Mark::Colon => Some(Fixed::Colon),
        Mark::FatArrow => Some(Fixed::FatArrow),
        Mark::Equals => Some(Fixed::Equals),
        Mark::Below => Some(Fixed::Below),
        Mark::Above => Some(Fixed::Above),
        Mark::Arrow => Some(Fixed::Arrow),
        Mark::Minus => Some(Fixed::Minus),
        Mark::Slash => Some(Fixed::Slash),
        Mark::DotDot => Some(Fixed::DotDot),
        Mark::Dot => Some(Fixed::Dot),
        Mark::Comma => Some(Fixed::Comma),
        Mark::RoundOpen => Some(Fixed::RoundOpen),
        Mark::RoundClose => Some(Fixed::RoundClose),
        Mark::SquareClose => Some(Fixed::SquareClose),
        _ => None,
    }
}
