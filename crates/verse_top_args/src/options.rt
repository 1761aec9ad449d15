//! The options of a command line, in any order, each at most once.
ghost use Rattle.verse_base.specs.declared.limits.TheConstants.{MOST_NOW, MOST_STEPS};
ghost use Rattle.std.specs.Prelude.{◌≡◌, ℕ, List, false, true, map, string_bytes, ◌∷◌, ◌≤◌, length};
ghost use Rattle.std.specs.Prelude.{IfSome, MatchOption, option_copied};
ghost use Rattle.verse_top_args.specs.Words.{Gives, IsNumber, no_options};
ghost use Rattle.verse_top_args.specs.Settings.{Continues, Wrong, given_of};

use crate::numbers::{is, number};
use verse_base::limits::{MOST_NOW, MOST_STEPS};

/// The options given so far; the inputs by the word that lists them.
#[derive(Clone, Copy)]
pub(crate) struct Settings<'a> {
    pub(crate) steps: Option<u64>,
    pub(crate) until: Option<u64>,
    pub(crate) inputs: Option<&'a str>,
    pub(crate) heap: bool,
}

/// The options that all these words give.
pub(crate) fn all_options(words: &[String]) -> Option<Settings<'_>>
    ensures { MatchOption result (Wrong no_options (map string_bytes words.now))
        (λ s. Gives no_options (map string_bytes words.now) (given_of s)) }
{
    let mut given = Settings {
        steps: None,
        until: None,
        inputs: None,
        heap: false,
    };
    let mut rest = words;
    while let Some((word, behind)) = rest.split_first() {
        (given, rest) = option(given, word.as_str(), behind)?;
    }
    Some(given)
}

fn option<'a>(
    given: Settings<'a>,
    word: &str,
    behind: &'a [String],
) -> Option<(Settings<'a>, &'a [String])>
    ensures gives { MatchOption result
        (Wrong (given_of given.entry) (word.now ∷ map string_bytes behind.now))
        (λ r. Continues (given_of given.entry) (word.now ∷ map string_bytes behind.now)
        (given_of r.0) (map string_bytes r.1.now)) }
    ensures shorter { IfSome result (λ r. length r.1.now ≤ length behind.now) }
{
    if is(word, "--heap") {
        return Some((heap(given)?, behind));
    }
    let (value, rest) = behind.split_first()?;
    let value = value.as_str();
    if is(word, "--steps") {
        Some((steps(given, value)?, rest))
    } else if is(word, "--until") {
        Some((until(given, value)?, rest))
    } else if is(word, "--in") {
        Some((inputs(given, value)?, rest))
    } else {
        None
    }
}

fn heap<'a>(given: Settings<'a>) -> Option<Settings<'a>>
    ensures { MatchOption result (¬ (given.entry.heap ≡ false)) (λ g. (given.entry.heap ≡ false) ×
        (given_of g ≡ record (given_of given.entry) { heap = true })) }
{
    if given.heap {
        return None;
    }
    Some(Settings {
        heap: true,
        ..given
    })
}

fn steps<'a>(given: Settings<'a>, value: &str) -> Option<Settings<'a>>
    ensures { MatchOption result ((n : ℕ) → given.entry.steps ≡ None →
        ¬ (IsNumber MOST_STEPS value.now n))
        (λ g. (n : ℕ) × (given.entry.steps ≡ None) × IsNumber MOST_STEPS value.now n ×
        (given_of g ≡ record (given_of given.entry) { steps = Some n })) }
{
    if given.steps.is_some() {
        return None;
    }
    let steps = number(value, MOST_STEPS)?;
    Some(Settings {
        steps: Some(steps),
        ..given
    })
}

fn until<'a>(given: Settings<'a>, value: &str) -> Option<Settings<'a>>
    ensures { MatchOption result ((n : ℕ) → given.entry.until ≡ None →
        ¬ (IsNumber MOST_NOW value.now n))
        (λ g. (n : ℕ) × (given.entry.until ≡ None) × IsNumber MOST_NOW value.now n ×
        (given_of g ≡ record (given_of given.entry) { until = Some n })) }
{
    if given.until.is_some() {
        return None;
    }
    let until = number(value, MOST_NOW)?;
    Some(Settings {
        until: Some(until),
        ..given
    })
}

fn inputs<'a>(given: Settings<'a>, value: &'a str) -> Option<Settings<'a>>
    ensures { MatchOption result (¬ (option_copied given.entry.inputs ≡ None))
        (λ g. (option_copied given.entry.inputs ≡ None) ×
        (given_of g ≡ record (given_of given.entry) { inputs = Some value.now })) }
{
    if given.inputs.is_some() {
        return None;
    }
    Some(Settings {
        inputs: Some(value),
        ..given
    })
}
