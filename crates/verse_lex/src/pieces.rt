//! What begins at a place.

ghost use Rattle.std.specs.Prelude.{◌≡◌, ◌+◌, ◌<◌, ◌≤◌, ◌∷◌, [], length, true, slice_get};
ghost use Rattle.verse_lex.specs.Bytes.{digit_at, letter_at, is_at};
ghost use Rattle.verse_lex.specs.Pieces.{mark, name, ended, is_hexadecimal, has_fraction};
ghost use Rattle.verse_lex.specs.Pieces.{hexadecimal_number, fractional_number, number};
ghost use Rattle.verse_lex.specs.Pieces.{literal_end, literal_escape, escape_of, in_literal};
ghost use Rattle.verse_lex.specs.Pieces.{literal, text, text_on, comment, begins_comment};
ghost use Rattle.verse_lex.specs.Pieces.{is_lone_at, line_comment, common, carriage_return};
ghost use Rattle.verse_lex.specs.Pieces.{next_plain, breaks_hole, next_hole, piece_at, Within};

use crate::bytes::{
    digit_at, digits_len, first, hex_digit_at, hex_digits_len, is_at, is_blank, is_digit,
    is_letter, letter_at, line_len, name_len,
};
use crate::comments::{Close, closing};
use crate::marks::{double_mark, single_mark};
use crate::numbers::{decimal_on, hexadecimal, thousandths};
use crate::rules::{CHARACTER, COMMENT_END, DURATION, ESCAPE, INTEGER, TEXT_END, UNEXPECTED};
use crate::texts::{Ending, escape, text_chars};
use crate::tokens::TokenKind;
use crate::words::name_kind;
use verse_base::refusals::Rule;

/// What begins at a place.
#[derive(Clone, Copy, Debug, PartialEq, Eq)]
pub enum Next {
    /// The file ends here.
    End,
    /// So many bytes that separate.
    Separator(usize),
    /// A line end of so many bytes.
    LineEnd(usize),
    /// So many bytes that are a token.
    Token(TokenKind, usize),
    /// No piece goes on: the rule, and how many bytes on it is broken.
    Bad(Rule, usize),
    /// The text round this hole does not end.
    HoleEnd,
}

/// A mark, or a character that begins no token.
pub fn mark(bytes: &[u8]) -> Next
    requires { 0 < length bytes.now }
    ensures piece { result ≡ mark bytes.now }
    ensures within { Within result (length bytes.now) }
{
    let Some((b, more)) = first(bytes) else {
        return Next::Bad(UNEXPECTED, 0);
    };
    if let Some((c, _)) = first(more) {
        if let Some(mark) = double_mark(b, c) {
            return Next::Token(TokenKind::Mark(mark), 2);
        }
    }
    match single_mark(b) {
        Some(mark) => Next::Token(TokenKind::Mark(mark), 1),
        None => Next::Bad(UNEXPECTED, 0),
    }
}

/// The name or word at a letter.
#[tactic(auto, using(crate::proofs::Bounds::name_stands, crate::proofs::Bounds::name_within))]
pub fn name(bytes: &[u8]) -> Next
    requires { letter_at bytes.now 0 ≡ true }
    ensures piece { result ≡ name bytes.now }
    ensures within { Within result (length bytes.now) }
{
    let count = name_len(bytes);
    Next::Token(name_kind(&bytes[..count]), count)
}

/// A number of so many bytes, unless a letter follows it.
pub fn ended(bytes: &[u8], kind: TokenKind, count: usize) -> Next
    requires stands { 0 < count }
    requires within { count ≤ length bytes.now }
    ensures piece { result ≡ ended bytes.now kind count }
    ensures within { Within result (length bytes.now) }
{
    if letter_at(bytes, count) {
        Next::Bad(UNEXPECTED, count)
    } else {
        Next::Token(kind, count)
    }
}

/// `0x` and a hexadecimal digit.
pub fn is_hexadecimal(bytes: &[u8]) -> bool
    ensures { result ≡ is_hexadecimal bytes.now }
{
    is_at(bytes, 0, b'0') && is_at(bytes, 1, b'x') && hex_digit_at(bytes, 2)
}

/// Behind so many digits a point and a digit.
pub fn has_fraction(bytes: &[u8], count: usize) -> bool
    requires { count ≤ length bytes.now }
    ensures { result ≡ has_fraction bytes.now count }
{
    is_at(bytes, count, b'.') && digit_at(bytes, count + 1)
}

/// A hexadecimal integer.
#[tactic(auto, using(crate::proofs::Bounds::hex_within))]
pub fn hexadecimal_number(bytes: &[u8]) -> Next
    requires { is_hexadecimal bytes.now ≡ true }
    ensures piece { result ≡ hexadecimal_number bytes.now }
    ensures within { Within result (length bytes.now) }
{
    let digits = &bytes[2..];
    let count = hex_digits_len(digits);
    match hexadecimal(&digits[..count]) {
        None => Next::Bad(INTEGER, 0),
        Some(value) => ended(bytes, TokenKind::Int(value as i64), count + 2),
    }
}

/// Digits, a point and digits, the first so many before the point.
#[tactic(auto, using(crate::proofs::RuleSets::of_fractional_number))]
pub fn fractional_number(bytes: &[u8], count: usize) -> Next
    requires { has_fraction bytes.now count ≡ true }
    ensures piece { result ≡ fractional_number bytes.now count }
    ensures within { Within result (length bytes.now) }
{
    let decimals = &bytes[count + 1..];
    let more = digits_len(decimals);
    if more > 3 {
        return Next::Bad(DURATION, 0);
    }
    match thousandths(&bytes[..count], &decimals[..more]) {
        None => Next::Bad(DURATION, 0),
        Some(value) => ended(bytes, TokenKind::Dec(value), count + 1 + more),
    }
}

/// A number at a digit.
#[tactic(auto, using(crate::proofs::Bounds::digits_stand, crate::proofs::Bounds::digits_within))]
pub fn number(bytes: &[u8]) -> Next
    requires { digit_at bytes.now 0 ≡ true }
    ensures piece { result ≡ number bytes.now }
    ensures within { Within result (length bytes.now) }
{
    if is_hexadecimal(bytes) {
        return hexadecimal_number(bytes);
    }
    let count = digits_len(bytes);
    if has_fraction(bytes, count) {
        return fractional_number(bytes, count);
    }
    match decimal_on(0, &bytes[..count]) {
        None => Next::Bad(INTEGER, 0),
        Some(value) => ended(bytes, TokenKind::Int(value as i64), count),
    }
}

/// The end of a character literal behind so many bytes.
pub fn literal_end(bytes: &[u8], byte: u8, count: usize) -> Next
    requires { count ≤ length bytes.now }
    ensures piece { result ≡ literal_end bytes.now byte count }
    ensures within { Within result (length bytes.now) }
{
    if is_at(bytes, count, b'\'') {
        Next::Token(TokenKind::Char(byte), count + 1)
    } else {
        Next::Bad(CHARACTER, 0)
    }
}

/// Whether a byte may stand in a character literal: 0x20 to 0x7E, but no quote.
pub fn in_literal(b: u8) -> bool
    ensures { result ≡ in_literal b }
{
    0x20 <= b && b <= 0x7E && b != b'\''
}

/// A character literal at its quote.
pub fn literal(bytes: &[u8]) -> Next
    ensures piece { result ≡ literal bytes.now }
    ensures within { Within result (length bytes.now) }
{
    let Some((_, behind)) = first(bytes) else {
        return Next::Bad(CHARACTER, 0);
    };
    let Some((c, rest)) = first(behind) else {
        return Next::Bad(CHARACTER, 0);
    };
    if c == b'\\' {
        return literal_escape(bytes, rest);
    }
    if in_literal(c) {
        literal_end(bytes, c, 2)
    } else {
        Next::Bad(CHARACTER, 0)
    }
}

/// A character literal with a backslash, and the bytes behind that.
pub fn literal_escape(bytes: &[u8], rest: &[u8]) -> Next
    requires { length bytes.now ≡ length rest.now + 2 }
    ensures piece { result ≡ literal_escape bytes.now (escape_of (slice_get rest.now 0)) }
    ensures within { Within result (length bytes.now) }
{
    let Some((b, _)) = first(rest) else {
        return Next::Bad(ESCAPE, 1);
    };
    match escape(b) {
        None => Next::Bad(ESCAPE, 1),
        Some(c) => literal_end(bytes, c, 3),
    }
}

/// The text at a quote, up to its end or its first hole.
pub fn text(bytes: &[u8]) -> Next
    requires { is_at bytes.now 0 34 ≡ true }
    ensures piece { result ≡ text bytes.now }
    ensures within { Within result (length bytes.now) }
{
    match text_chars(&bytes[1..]) {
        Ending::Quote(n) => Next::Token(TokenKind::Text, n + 1),
        Ending::Brace(n) => Next::Token(TokenKind::TextOpen, n + 1),
        Ending::Broken(rule, n) => Next::Bad(rule, n + 1),
        Ending::Line => Next::Bad(TEXT_END, 0),
    }
}

/// The text behind a hole, up to its end or its next hole.
pub fn text_on(bytes: &[u8]) -> Next
    requires { is_at bytes.now 0 125 ≡ true }
    ensures piece { result ≡ text_on bytes.now }
    ensures within { Within result (length bytes.now) }
{
    match text_chars(&bytes[1..]) {
        Ending::Quote(n) => Next::Token(TokenKind::TextClose, n + 1),
        Ending::Brace(n) => Next::Token(TokenKind::TextMid, n + 1),
        Ending::Broken(rule, n) => Next::Bad(rule, n + 1),
        Ending::Line => Next::HoleEnd,
    }
}

pub fn begins_comment(bytes: &[u8]) -> bool
    ensures { result ≡ begins_comment bytes.now }
{
    is_at(bytes, 0, b'<') && is_at(bytes, 1, b'#')
}

/// The comment at a `<#`.
pub fn comment(bytes: &[u8]) -> Next
    requires { begins_comment bytes.now ≡ true }
    ensures piece { result ≡ comment bytes.now }
    ensures within { Within result (length bytes.now) }
{
    if is_at(bytes, 2, b'>') {
        return Next::Bad(UNEXPECTED, 0);
    }
    match closing(&bytes[2..]) {
        Close::Closed(n) => Next::Separator(n + 2),
        Close::Lone(n) => Next::Bad(UNEXPECTED, n + 2),
        Close::Never => Next::Bad(COMMENT_END, 0),
    }
}

/// Whether a carriage return stands there with no line feed behind it.
pub fn is_lone_at(bytes: &[u8], at: usize) -> bool
    requires { at ≤ length bytes.now }
    ensures { result ≡ is_lone_at bytes.now at }
{
    is_at(bytes, at, b'\r') && !is_at(bytes, at + 1, b'\n')
}

/// The comment at a `#`, up to the line's end.
#[tactic(auto, using(crate::proofs::Bounds::line_stands, crate::proofs::Bounds::line_within))]
pub fn line_comment(bytes: &[u8]) -> Next
    requires { is_at bytes.now 0 35 ≡ true }
    ensures piece { result ≡ line_comment bytes.now }
    ensures within { Within result (length bytes.now) }
{
    let count = line_len(bytes);
    if is_lone_at(bytes, count) {
        Next::Bad(UNEXPECTED, count)
    } else {
        Next::Separator(count)
    }
}

/// A piece that may stand in a hole too.
pub fn common(bytes: &[u8]) -> Next
    ensures piece { result ≡ common bytes.now }
    ensures within { Within result (length bytes.now) }
{
    let Some((b, _)) = first(bytes) else {
        return Next::End;
    };
    if is_blank(b) {
        Next::Separator(1)
    } else if is_letter(b) {
        name(bytes)
    } else if is_digit(b) {
        number(bytes)
    } else if b == b'\'' {
        literal(bytes)
    } else {
        mark(bytes)
    }
}

/// What begins outside holes.
pub fn next_plain(bytes: &[u8]) -> Next
    ensures piece { result ≡ next_plain bytes.now }
    ensures within { Within result (length bytes.now) }
{
    let Some((b, more)) = first(bytes) else {
        return Next::End;
    };
    if b == b'\n' {
        Next::LineEnd(1)
    } else if b == b'\r' {
        carriage_return(more)
    } else if b == b'#' {
        line_comment(bytes)
    } else if begins_comment(bytes) {
        comment(bytes)
    } else if b == b'"' {
        text(bytes)
    } else {
        common(bytes)
    }
}

/// A carriage return before these bytes.
pub fn carriage_return(more: &[u8]) -> Next
    ensures piece { result ≡ carriage_return more.now }
    ensures within { Within result (length more.now + 1) }
{
    if is_at(more, 0, b'\n') {
        Next::LineEnd(2)
    } else {
        Next::Bad(UNEXPECTED, 0)
    }
}

/// Whether a text with a hole cannot go on here: at a line end, `#`, a quote, `{` or a comment.
pub fn breaks_hole(bytes: &[u8]) -> bool
    ensures { result ≡ breaks_hole bytes.now }
{
    is_at(bytes, 0, b'\n')
        || is_at(bytes, 0, b'\r')
        || is_at(bytes, 0, b'#')
        || is_at(bytes, 0, b'"')
        || is_at(bytes, 0, b'{')
        || begins_comment(bytes)
}

/// What begins in a hole.
pub fn next_hole(bytes: &[u8]) -> Next
    ensures piece { result ≡ next_hole bytes.now }
    ensures within { Within result (length bytes.now) }
{
    let Some((b, _)) = first(bytes) else {
        return Next::HoleEnd;
    };
    if b == b'}' {
        text_on(bytes)
    } else if is_lone_at(bytes, 0) {
        Next::Bad(UNEXPECTED, 0)
    } else if breaks_hole(bytes) {
        Next::HoleEnd
    } else {
        common(bytes)
    }
}

/// What begins at a place, in a hole or outside.
pub fn piece_at(hole: bool, bytes: &[u8]) -> Next
    ensures piece { result ≡ piece_at hole bytes.now }
    ensures within { Within result (length bytes.now) }
{
    if hole {
        next_hole(bytes)
    } else {
        next_plain(bytes)
    }
}
