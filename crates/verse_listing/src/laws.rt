//! Laws of listings.

ghost use Rattle.std.specs.Prelude.{◌≡◌, ℕ, List};
ghost use Rattle.verse_code.specs.declared.codes.Code.{Code};
ghost use Rattle.verse_listing_format.specs.Format.{Listing};
ghost use Rattle.verse_listing.specs.Rows.{Rows};
ghost use Rattle.verse_listing.specs.Laws.{ReadIsListed, ListedIsRead, FaultStays, FrontHasNoFault};

/// Bytes are the listing of one code at most.
pub fn one_code()
    ensures { (bytes : List ℕ) (c d : Code) → Listing c bytes → Listing d bytes → c ≡ d }
{}

/// A code has one listing at most.
pub fn one_listing()
    ensures { (code : Code) (a b : List ℕ) → Listing code a → Listing code b → a ≡ b }
{}

/// What is read is a code whose listing the bytes are, and each such code is read. So bytes have a
/// code or a fault, and never both.
pub fn listings_are_exact()
    ensures read_is_listed { ReadIsListed }
    ensures listed_is_read { ListedIsRead }
{}

/// A fault is that of the first failing line: where the line ends with a line feed, the fault
/// stands as it is whatever follows.
pub fn first_fault()
    ensures { FaultStays }
{}

/// The lines before a failing line have no fault but that they end: the line is missing. Before a
/// line that follows the last stands a whole listing.
pub fn front_has_no_fault()
    ensures { FrontHasNoFault }
{}

/// What is told of a small listing, and where a line of it is spoilt.
pub fn rows_hold()
    ensures { Rows }
{}
