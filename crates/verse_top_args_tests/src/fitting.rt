//! Whether words are a command.

ghost use Rattle.std.specs.Prelude.{◌↔◌, IsTrue, map, string_bytes};
ghost use Rattle.verse_top_args.specs.Words.{Command, Says};

use verse_top_args::commands::{find_request, words_fit};

/// Whether these words, those after the program's name, are a command, as both calls tell it.
pub fn are_a_command(words: &[String]) -> bool
    ensures { IsTrue result ↔ ((c : Command) × Says (map string_bytes words.now) c) }
{
    words_fit(words) && find_request(words).is_some()
}
