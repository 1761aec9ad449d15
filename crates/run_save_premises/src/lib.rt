//! What the laws of saved runs have as premises, and holds of every code and run: texts are of
//! bytes, and inputs are a value of a run.
#![tactic(auto)]

ghost use Rattle.std.specs.Prelude.{◌≤◌, ℕ, All};
ghost use Rattle.run_save_moves.specs.Fine.{TextsAreBytes};
ghost use Rattle.run_save_premises.specs.Inputs.{FewInputsFit};

use verse_code::codes::Code;
use verse_code::tables::Table;

/// Each text of a code is of bytes. Takes no memory.
pub fn texts_are_bytes(code: &Code)
    ensures { TextsAreBytes code.now }
{
    all_are_bytes(code.texts.as_slice());
}

fn all_are_bytes(texts: &[Table<u8>])
    ensures { All (All (λ (b : ℕ). b ≤ 255)) texts.now }
{
    'texts: for text in texts {
        are_bytes(text.as_slice());
    }
}

fn are_bytes(text: &[u8])
    ensures { All (λ (b : ℕ). b ≤ 255) text.now }
{
    let _ = text.is_empty();
}

/// As many inputs as a run may have are a value of a run.
pub fn inputs_fit()
    ensures { FewInputsFit }
{}
