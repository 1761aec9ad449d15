//! The numbers of a command line. Each is its own decimal text, so a word is a number exactly where
//! it is the text of the number that is read from it.
ghost use Rattle.std.specs.Prelude.{◌≡◌, ◌≤◌, ◌↔◌, ℕ, ℤ, List, length, IsTrue, IfOk, MatchOption};
ghost use Rattle.verse_top_args.specs.Words.{IsInt, IsIntList, IsNumber};

use itoa::Buffer;
use std::alloc::Global;
use verse_base::refusals::Memory;

/// How many ints one word may list.
const MOST_INPUTS: usize = 1000;

/// Whether two texts are the same.
pub(crate) fn is(word: &str, name: &str) -> bool
    ensures { IsTrue result ↔ (word.now ≡ name.now) }
{
    word == name
}

/// The number of a word, at most `most`.
pub(crate) fn number(word: &str, most: u64) -> Option<u64>
    ensures { MatchOption result ((n : ℕ) → ¬ (IsNumber most word.now n))
        (λ n. IsNumber most word.now n) }
{
    let Ok(number) = word.parse::<u64>() else {
        return None;
    };
    if number > most {
        return None;
    }
    let mut buffer = Buffer::new();
    if is(word, buffer.format(number)) {
        Some(number)
    } else {
        None
    }
}

/// The int of a word.
fn int(word: &str) -> Option<i64>
    ensures { MatchOption result ((n : ℤ) → ¬ (IsInt word.now n)) (λ n. IsInt word.now n) }
{
    let Ok(int) = word.parse::<i64>() else {
        return None;
    };
    let mut buffer = Buffer::new();
    if is(word, buffer.format(int)) {
        Some(int)
    } else {
        None
    }
}

/// Whether a word lists 1 to 1000 ints.
pub(crate) fn lists_inputs(word: &str) -> bool
    ensures { IsTrue result ↔ ((ns : List ℤ) × IsIntList word.now ns × (length ns ≤ 1000)) }
{
    let mut rest = word;
    for _done in 0..MOST_INPUTS {
        let Some((first, others)) = rest.split_once(',') else {
            return int(rest).is_some();
        };
        if int(first).is_none() {
            return false;
        }
        rest = others;
    }
    false
}

/// The ints that a word lists.
pub(crate) fn inputs(alloc: Global, word: &str) -> Result<Vec<i64>, Memory>
    requires { (ns : List ℤ) × IsIntList word.now ns }
    ensures { IfOk result (λ v. IsIntList word.now v.items) }
{
    let mut inputs = Vec::new(alloc);
    let mut rest = word;
    while let Some((first, others)) = rest.split_once(',') {
        inputs.push(listed(first))?;
        rest = others;
    }
    inputs.push(listed(rest))?;
    Ok(inputs)
}

fn listed(word: &str) -> i64
    requires { (n : ℤ) × IsInt word.now n }
    ensures { IsInt word.now result }
{
    match int(word) {
        Some(int) => int,
        None => unreachable!(),
    }
}
