//! Laws of images.

ghost use Rattle.std.specs.Prelude.{◌≡◌, ℕ, ◌+◌, ◌⊎◌, List, ◌∷◌, ◌++◌, length, Err};
ghost use Rattle.verse_code.specs.declared.codes.Code.{Code};
ghost use Rattle.verse_image.specs.declared.faults.Flaw.{Flaw};
ghost use Rattle.verse_image.specs.Format.{Image};
ghost use Rattle.verse_image.specs.Reading.{flaw, image_at};
ghost use Rattle.verse_image.specs.Faults.{FrontHasNoFault};
ghost use Rattle.verse_image.specs.Numbers.{ReadIsSpelled, SpelledIsRead, SignedIsSpelled};
ghost use Rattle.verse_image.specs.Numbers.{SignedIsRead};

/// Bytes are the image of one code at most.
pub fn one_code()
    ensures { (bytes : List ℕ) (v w : ℕ) (c d : Code) → Image v c bytes → Image w d bytes → c ≡ d }
{}

/// A code has one image at most in each version.
pub fn one_image()
    ensures { (version : ℕ) (code : Code) (a b : List ℕ) → Image version code a →
        Image version code b → a ≡ b }
{}

/// Each proper front of an image ends too early: I3, with no byte left.
pub fn cut_short()
    ensures { (version : ℕ) (code : Code) (bytes : List ℕ) (b : ℕ) (more : List ℕ) →
        Image version code (bytes ++ b ∷ more) → image_at bytes ≡ Err (flaw 3 0) }
{}

/// Bytes behind an image are refused from the first of them on: I7.
pub fn bytes_behind()
    ensures { (version : ℕ) (code : Code) (bytes : List ℕ) (b : ℕ) (more : List ℕ) →
        Image version code bytes → image_at (bytes ++ b ∷ more) ≡ Err (flaw 7 (length (b ∷ more))) }
{}

/// A fault is the first from the left: but for bytes that end too early, it stands as it is, at the
/// same place and by the same rule, whatever follows.
pub fn first_fault()
    ensures { (bytes : List ℕ) (b : ℕ) (more : List ℕ) (f : Flaw) → image_at bytes ≡ Err f →
        (f ≡ flaw 3 0) ⊎ (image_at (bytes ++ b ∷ more) ≡
        Err (flaw f.rule (f.left + length (b ∷ more)))) }
{}

/// The bytes before a failing place have no fault but that they end: I3, at their end. Before bytes
/// behind an image stands the image.
pub fn front_has_no_fault()
    ensures { FrontHasNoFault }
{}

/// For every bound: a number that is read stands in its one shortest spelling and is below the
/// bound, and one below it that its bytes can spell is read. So are numbers with a sign.
pub fn numbers_are_exact()
    ensures read_is_spelled { ReadIsSpelled }
    ensures spelled_is_read { SpelledIsRead }
    ensures signed_is_spelled { SignedIsSpelled }
    ensures signed_is_read { SignedIsRead }
{}
