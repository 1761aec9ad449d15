//! Classes of bytes, and runs of them.

ghost use Rattle.std.specs.Prelude.{◌≡◌, ◌∷◌, [], ◌≤◌, length, drop, MatchOption};
ghost use Rattle.verse_lex.specs.Bytes.{is_letter, is_digit, is_hex_digit, in_name, is_blank};
ghost use Rattle.verse_lex.specs.Bytes.{in_line, letter_at, digit_at, hex_digit_at, is_at, run};

/// A letter or `_`.
pub fn is_letter(b: u8) -> bool
    ensures { result ≡ is_letter b }
{
    b.is_ascii_alphabetic() || b == b'_'
}

pub fn is_digit(b: u8) -> bool
    ensures { result ≡ is_digit b }
{
    b.is_ascii_digit()
}

pub fn is_hex_digit(b: u8) -> bool
    ensures { result ≡ is_hex_digit b }
{
    b.is_ascii_hexdigit()
}

pub fn in_name(b: u8) -> bool
    ensures { result ≡ in_name b }
{
    is_letter(b) || is_digit(b)
}

/// A space or a tab.
pub fn is_blank(b: u8) -> bool
    ensures { result ≡ is_blank b }
{
    b == b' ' || b == b'\t'
}

/// Neither a line feed nor a carriage return.
pub fn in_line(b: u8) -> bool
    ensures { result ≡ in_line b }
{
    b != b'\n' && b != b'\r'
}

/// The first byte, and those behind it.
pub fn first(bytes: &[u8]) -> Option<(u8, &[u8])>
    ensures { MatchOption result (bytes.now ≡ []) (λ r. bytes.now ≡ r.0 ∷ r.1.now) }
{
    match bytes.split_first() {
        Some((b, more)) => Some((*b, more)),
        None => None,
    }
}

/// The bytes behind the first so many.
pub fn behind(bytes: &[u8], count: usize) -> &[u8]
    requires { count ≤ length bytes.now }
    ensures { result.now ≡ drop count bytes.now }
{
    &bytes[count..]
}

pub fn letter_at(bytes: &[u8], at: usize) -> bool
    ensures { result ≡ letter_at bytes.now at }
{
    match bytes.get(at) {
        Some(b) => is_letter(*b),
        None => false,
    }
}

pub fn digit_at(bytes: &[u8], at: usize) -> bool
    ensures { result ≡ digit_at bytes.now at }
{
    match bytes.get(at) {
        Some(b) => is_digit(*b),
        None => false,
    }
}

pub fn hex_digit_at(bytes: &[u8], at: usize) -> bool
    ensures { result ≡ hex_digit_at bytes.now at }
{
    match bytes.get(at) {
        Some(b) => is_hex_digit(*b),
        None => false,
    }
}

/// Whether this byte stands at this index.
pub fn is_at(bytes: &[u8], at: usize, byte: u8) -> bool
    ensures { result ≡ is_at bytes.now at byte }
{
    match bytes.get(at) {
        Some(b) => *b == byte,
        None => false,
    }
}

/// How many bytes of a name stand at the front.
pub fn name_len(bytes: &[u8]) -> usize
    ensures { result ≡ run in_name bytes.now }
{
    bytes.iter().take_while(|b| in_name(**b)).count()
}

pub fn digits_len(bytes: &[u8]) -> usize
    ensures { result ≡ run is_digit bytes.now }
{
    bytes.iter().take_while(|b| is_digit(**b)).count()
}

pub fn hex_digits_len(bytes: &[u8]) -> usize
    ensures { result ≡ run is_hex_digit bytes.now }
{
    bytes.iter().take_while(|b| is_hex_digit(**b)).count()
}

/// How many spaces and tabs stand at the front.
pub fn blanks_len(bytes: &[u8]) -> usize
    ensures { result ≡ run is_blank bytes.now }
{
    bytes.iter().take_while(|b| is_blank(**b)).count()
}

/// How many bytes stand before a line feed or a carriage return.
pub fn line_len(bytes: &[u8]) -> usize
    ensures { result ≡ run in_line bytes.now }
{
    bytes.iter().take_while(|b| in_line(**b)).count()
}
