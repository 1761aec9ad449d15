//! Laws of numbers.

ghost use Rattle.verse_listing_format.specs.Laws.{WrittenIsRead, ReadIsWritten};

/// A number of 64 bits is written as one word, which alone is read as this number.
pub fn numbers_are_exact()
    ensures written_is_read { WrittenIsRead }
    ensures read_is_written { ReadIsWritten }
{}
