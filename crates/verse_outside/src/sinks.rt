//! Sinks that take bytes.

ghost use Rattle.std.specs.Prelude.{◌≡◌, ◌<◌, ◌≤◌, ◌++◌, ℕ, List, Option, IfOk, OnOk, OnErr};
ghost use Rattle.std.specs.Prelude.{length, take};
ghost use Rattle.verse_outside.specs.Causes.{Rose};
ghost use Rattle.verse_outside.specs.Held.{TookPrefix, with_more};

/// The sink failed.
#[derive(Clone, Copy, Debug, PartialEq, Eq)]
pub struct Failed;

/// Takes bytes. An object may tell which it has taken. It counts its faults: the count never
/// falls, and rises only where a write failed.
pub trait Sink {
    /// The bytes taken so far, where the object tells them.
    ghost taken: { Self → Option (List ℕ) };

    /// The count of faults.
    ghost faults: { Self → ℕ };

    /// Takes the first bytes of the piece, at least one, and answers how many. `Failed` comes only
    /// where the count rose, and then nothing was taken.
    fn write(&mut self, piece: &[u8]) -> Result<usize, Failed>
        requires { 0 < length piece.now }
        ensures some { IfOk result (λ n. 0 < n) }
        ensures within { IfOk result (λ n. n ≤ length piece.now) }
        ensures taken { IfOk result
            (λ n. taken self.new ≡ with_more (taken self.old) (take n piece.now)) }
        ensures refused { OnErr result (taken self.new ≡ taken self.old) }
        ensures later { faults self.old ≤ faults self.new }
        ensures calm { IfOk result (λ _. faults self.new ≡ faults self.old) }
        ensures failed { OnErr result (Rose (faults self.old) (faults self.new)) };
}

/// Writes the whole piece, by as many calls as it takes. After `Failed` a prefix of it was taken,
/// and the count rose.
pub fn write_all<S: Sink>(out: &mut S, piece: &[u8]) -> Result<(), Failed>
    ensures whole { OnOk result (S.taken out.new ≡ with_more (S.taken out.old) piece.now) }
    ensures part { OnErr result (TookPrefix (S.taken out.old) piece.now (S.taken out.new)) }
    ensures later { S.faults out.old ≤ S.faults out.new }
    ensures calm { OnOk result (S.faults out.new ≡ S.faults out.old) }
    ensures failed { OnErr result (Rose (S.faults out.old) (S.faults out.new)) }
{
    let mut at = 0usize;
    'pieces: while at < piece.len() {
        at += out.write(&piece[at..])?;
    }
    Ok(())
}
