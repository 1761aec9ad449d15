//! The brackets and blocks that are open at a token.

ghost use Rattle.std.specs.Prelude.{◌≡◌, not, ◌||◌, ◌&&◌};
ghost use Rattle.verse_layout.specs.Roles.{is_brace_close, is_bracket_close};
ghost use Rattle.verse_layout.specs.Cells.{is_same, is_front, is_proper};
ghost use Rattle.verse_layout.specs.Frames.{region_at, is_block, block_in, innermost};
ghost use Rattle.verse_layout.specs.States.{stack};

use crate::roles::{Region, Role, in_braces, is_same_region};
use verse_base::places::Place;

/// A bracket or block that is open.
#[derive(Clone, Copy)]
pub struct Frame<'a> {
    pub region: Region,
    /// A block's indentation; of a bracket, the indentation of the last line that began round it.
    pub text: &'a [u8],
    /// Where it was opened.
    pub place: Place,
}

/// Where layout stands between two tokens.
#[derive(Drop)]
pub struct State<'a> {
    /// The token before opens an indented block.
    pub is_opened: bool,
    /// The indentation of the last line that began in the innermost bracket; round it, where none
    /// did.
    pub line: &'a [u8],
    /// The innermost frame is the last one.
    pub frames: Vec<Frame<'a>>,
}

/// An offset in the file, and its place.
#[derive(Clone, Copy, Debug, PartialEq, Eq)]
pub struct Spot {
    pub at: u32,
    pub place: Place,
}

/// Where the innermost frame is.
pub fn region_at(frames: &[Frame]) -> Region
    ensures { result ≡ region_at (stack frames.now) }
{
    match frames.last() {
        Some(frame) => frame.region,
        None => Region::File,
    }
}

/// Whether it is an indented block.
pub fn is_block(region: Region) -> bool
    ensures { result ≡ is_block region }
{
    matches!(region, Region::Block | Region::BraceBlock)
}

/// What an indented block is, by what stands round it.
pub fn block_in(region: Region) -> Region
    ensures { result ≡ block_in region }
{
    if in_braces(region) {
        Region::BraceBlock
    } else {
        Region::Block
    }
}

/// Whether it is the role of a `}`.
pub fn is_brace_close(role: Role) -> bool
    ensures { result ≡ is_brace_close role }
{
    match role {
        Role::Closes(region) => is_same_region(region, Region::Brace),
        _ => false,
    }
}

/// Whether it is the role of another closing bracket.
pub fn is_bracket_close(role: Role) -> bool
    ensures { result ≡ is_bracket_close role }
{
    match role {
        Role::Closes(region) => !is_same_region(region, Region::Brace),
        _ => false,
    }
}

/// Whether both are the same text.
pub fn is_same(a: &[u8], b: &[u8]) -> bool
    ensures { result ≡ is_same a.now b.now }
{
    a == b
}

/// Whether the text begins with the front.
pub fn is_front(front: &[u8], text: &[u8]) -> bool
    ensures { result ≡ is_front front.now text.now }
{
    text.starts_with(front)
}

/// Whether the text begins with the front and is longer.
pub fn is_proper(front: &[u8], text: &[u8]) -> bool
    ensures { result ≡ is_proper front.now text.now }
{
    front.len() < text.len() && text.starts_with(front)
}

/// Where the innermost bracket was opened.
pub fn innermost(frames: &[Frame]) -> Option<Place>
    ensures { result ≡ innermost (stack frames.now) }
{
    'frames: for i in (0..frames.len()).rev() {
        if is_same_region(frames[i].region, Region::File) {
            return None;
        }
        if !is_block(frames[i].region) {
            return Some(frames[i].place);
        }
    }
    None
}
