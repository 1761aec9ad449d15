//! Names and texts as they are spelled.

use sqlite_items::Items;

/// The bytes of a name as the file has them.
pub type Name = Items<u8>;

/// The bytes of a text, with its escapes replaced.
pub type Text = Items<u8>;
