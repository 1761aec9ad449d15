//! Words, left-out words and names.

ghost use Rattle.std.specs.Prelude.{◌≡◌, take, drop};
ghost use Rattle.verse_lex.specs.Words.{words, left_out, look_up, is_among, name_kind};

use crate::tokens::{TokenKind, Word};

macro_rules! spelled {
    ($name:expr; $($spelling:literal => $value:expr,)* else $other:expr) => {
        $(if $name == $spelling.as_slice() {
            return $value;
        })*
        $other
    };
}

/// The word that is spelled so.
pub fn word(name: &[u8]) -> Option<Word>
    ensures { result ≡ look_up words name.now }
{
    if let Some(word) = words_a_to_e(name) {
        return Some(word);
    }
    if let Some(word) = words_e_to_m(name) {
        return Some(word);
    }
    if let Some(word) = words_n_to_s(name) {
        return Some(word);
    }
    words_s_to_v(name)
}

/// The first ten words.
fn words_a_to_e(name: &[u8]) -> Option<Word>
    ensures { result ≡ look_up (take 10 words) name.now }
{
    spelled! { name;
        b"array" => Some(Word::Array),
        b"and" => Some(Word::And),
        b"block" => Some(Word::Block),
        b"branch" => Some(Word::Branch),
        b"break" => Some(Word::Break),
        b"case" => Some(Word::Case),
        b"char" => Some(Word::Char),
        b"class" => Some(Word::Class),
        b"defer" => Some(Word::Defer),
        b"else" => Some(Word::Else),
        else None
    }
}

/// The next ten words.
fn words_e_to_m(name: &[u8]) -> Option<Word>
    ensures { result ≡ look_up (take 10 (drop 10 words)) name.now }
{
    spelled! { name;
        b"enum" => Some(Word::Enum),
        b"event" => Some(Word::Event),
        b"false" => Some(Word::False),
        b"for" => Some(Word::For),
        b"if" => Some(Word::If),
        b"Inf" => Some(Word::Inf),
        b"int" => Some(Word::Int),
        b"logic" => Some(Word::Logic),
        b"loop" => Some(Word::Loop),
        b"map" => Some(Word::Map),
        else None
    }
}

/// The next ten words.
fn words_n_to_s(name: &[u8]) -> Option<Word>
    ensures { result ≡ look_up (take 10 (drop 20 words)) name.now }
{
    spelled! { name;
        b"not" => Some(Word::Not),
        b"option" => Some(Word::Option),
        b"or" => Some(Word::Or),
        b"race" => Some(Word::Race),
        b"return" => Some(Word::Return),
        b"rush" => Some(Word::Rush),
        b"Self" => Some(Word::This),
        b"set" => Some(Word::Set),
        b"Sleep" => Some(Word::Sleep),
        b"spawn" => Some(Word::Spawn),
        else None
    }
}

/// The last words.
fn words_s_to_v(name: &[u8]) -> Option<Word>
    ensures { result ≡ look_up (drop 30 words) name.now }
{
    spelled! { name;
        b"string" => Some(Word::String),
        b"sync" => Some(Word::Sync),
        b"task" => Some(Word::Task),
        b"then" => Some(Word::Then),
        b"true" => Some(Word::True),
        b"tuple" => Some(Word::Tuple),
        b"using" => Some(Word::Using),
        b"var" => Some(Word::Var),
        b"void" => Some(Word::Void),
        b"_" => Some(Word::Wild),
        else None
    }
}

/// Whether Verse has a word that is spelled so and is left out.
pub fn is_left_out(name: &[u8]) -> bool
    ensures { result ≡ is_among left_out name.now }
{
    spelled! { name;
        b"allocates" => true,
        b"await" => true,
        b"char32" => true,
        b"converges" => true,
        b"do" => true,
        b"float" => true,
        b"interface" => true,
        b"live" => true,
        b"module" => true,
        b"profile" => true,
        b"rational" => true,
        b"reads" => true,
        b"struct" => true,
        b"super" => true,
        b"type" => true,
        b"upon" => true,
        b"varies" => true,
        b"weak_map" => true,
        b"when" => true,
        b"where" => true,
        b"writes" => true,
        else false
    }
}

/// The kind of token that these letters and digits spell.
pub fn name_kind(name: &[u8]) -> TokenKind
    ensures { result ≡ name_kind name.now }
{
    match word(name) {
        Some(word) => TokenKind::Word(word),
        None => {
            if is_left_out(name) {
                TokenKind::LeftOut
            } else {
                TokenKind::Name
            }
        }
    }
}
