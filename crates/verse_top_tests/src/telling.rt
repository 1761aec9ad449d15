//! A command over files and a sink in memory.

ghost use Rattle.std.specs.Prelude.{◌≡◌, ◌⊎◌, ℕ, List, map, string_bytes};
ghost use Rattle.verse_top_args.specs.Words.{Command, Says};

use std::alloc::Global;
use verse_outside::memory_files::MemFiles;
use verse_outside::memory_sinks::MemSink;
use verse_top::verse;

/// The status of a command, whose text the sink takes: 2 for words that are no command, unless the
/// sink fails.
pub fn told(alloc: Global, words: &[String], files: &mut MemFiles, out: &mut MemSink) -> u8
    ensures { ((c : Command) → Says (map string_bytes words.now) c → ⊥) →
        (result ≡ 2) ⊎ (result ≡ 7) }
{
    verse(alloc, words, files, out)
}
