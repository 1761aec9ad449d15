//! Tests of the readers.

ghost use Rattle.std.specs.Prelude.{◌≡◌, ◌≤◌, IfOk, length, map};
ghost use Rattle.verse_tree.specs.ItemView.{item_of};
ghost use Rattle.verse_tree.specs.Numbering.{items_nodes};

use crate::reading::{toks_of, tree_of_file, tree_of_two};
use crate::tables::{FILES, PHRASES, PROGRAMS, REFUSED};
use std::alloc::{AllocError, Global};
use std::test::Fail;
use verse_expr::faults::ParseFault;
use verse_expr::{block, expr, ty};
use verse_parse::parse;
use verse_tree_items::items::ItemTrees;

// the items of a file
fn items_of(alloc: Global, bytes: &[u8]) -> Result<ItemTrees, Fail>
    ensures { IfOk result (λ items. items_nodes (map item_of items) ≤ 1000000) }
{
    let toks = toks_of(alloc, bytes).map_err(|_| "tokens and layout")?;
    if toks.len() > 1000000 {
        return Err(Fail::from("a row has few toks"));
    }
    match parse(alloc, bytes, toks.as_slice()) {
        Ok(items) => Ok(items),
        Err(_) => Err(Fail::from("a program")),
    }
}

// how many nodes the file has
fn nodes_of(alloc: Global, bytes: &[u8]) -> Result<u32, Fail> {
    let tree = tree_of_file(alloc, items_of(alloc, bytes)?)?;
    Ok(tree.get().nodes)
}

fn number(word: &str) -> Result<u64, Fail> {
    let number = word.parse::<u64>()?;
    Ok(number)
}

// whether the file has so many nodes
fn has_nodes(alloc: Global, nodes: &str, bytes: &[u8]) -> Result<bool, Fail> {
    let nodes = number(nodes)?;
    Ok(u64::from(nodes_of(alloc, bytes)?) == nodes)
}

// how many toks the phrase has, or 0 where there is none
fn behind(alloc: Global, kind: &str, bytes: &[u8]) -> Result<usize, Fail> {
    let toks = toks_of(alloc, bytes).map_err(|_| "tokens and layout")?;
    let toks = toks.as_slice();
    Ok(match kind {
        "e" => expr(alloc, bytes, toks, 0).map_or(0, |read| read.1),
        "t" => ty(alloc, bytes, toks, 0).map_or(0, |read| read.1),
        _ => block(alloc, bytes, toks, 0).map_or(0, |read| read.1),
    })
}

// the first word, and what is behind it
fn cut(row: &str) -> Result<(&str, &str), Fail> {
    match row.split_once(' ') {
        Some(parts) => Ok(parts),
        None => Err(Fail::from("a row has words")),
    }
}

// whether the phrase has as many toks as the row says
fn is_phrase_right(alloc: Global, kind: &str, rest: &str) -> Result<bool, Fail> {
    let (count, row) = cut(rest)?;
    let count = number(count)?;
    Ok(behind(alloc, kind, row.as_bytes())? as u64 == count)
}

// the rule and the index of the refusal
fn refusal(alloc: Global, bytes: &[u8]) -> Result<(u16, usize), Fail> {
    let toks = toks_of(alloc, bytes).map_err(|_| "tokens and layout")?;
    match parse(alloc, bytes, toks.as_slice()) {
        Ok(_) => Err(Fail::from("no program")),
        Err(ParseFault::Memory) => Err(Fail::from("ample memory")),
        Err(ParseFault::At { index, rule }) => Ok((rule.0, index)),
    }
}

// whether the row is refused by the rule and at the index that it says
fn is_refusal_right(alloc: Global, rule: &str, rest: &str) -> Result<bool, Fail> {
    let (index, row) = cut(rest)?;
    let index = number(index)?;
    let rule = number(rule)?;
    let found = refusal(alloc, row.as_bytes())?;
    Ok(u64::from(found.0) == rule && found.1 as u64 == index)
}

/// What the rows of a table are about.
#[derive(Clone, Copy)]
enum About {
    Programs,
    Phrases,
    Refusals,
}

fn is_right(alloc: Global, about: About, row: &str) -> Result<bool, Fail> {
    let (first, rest) = cut(row)?;
    match about {
        About::Programs => has_nodes(alloc, first, rest.as_bytes()),
        About::Phrases => is_phrase_right(alloc, first, rest),
        About::Refusals => is_refusal_right(alloc, first, rest),
    }
}

// the first row that is not as it is written is a failure
fn check_rows(alloc: Global, about: About, rows: &str) -> Result<(), Fail> {
    for row in rows.lines() {
        if !is_right(alloc, about, row)? {
            return Err(Fail::from(row));
        }
    }
    Ok(())
}

#[test]
fn forms_are_read_and_joined(rt: HostRuntime) -> Result<(), Fail> {
    check_rows(rt.alloc(), About::Programs, PROGRAMS)
}

#[test]
fn phrases_are_read_as_far_as_they_go(rt: HostRuntime) -> Result<(), Fail> {
    check_rows(rt.alloc(), About::Phrases, PHRASES)
}

#[test]
fn refusals_stand_where_no_program_goes_on(rt: HostRuntime) -> Result<(), Fail> {
    check_rows(rt.alloc(), About::Refusals, REFUSED)
}

fn add_line(file: &mut Vec<u8>, line: &str) -> Result<(), AllocError> {
    file.extend_from_slice(line.as_bytes())?;
    file.push(b'\n')?;
    Ok(())
}

// how many files there are, each with as many nodes as the line behind it says
fn count_files(alloc: Global) -> Result<u64, Fail> {
    let mut file = Vec::new(alloc);
    let mut count = 0u64;
    for line in FILES.lines() {
        let Some(nodes) = line.strip_prefix("= ") else {
            add_line(&mut file, line)?;
            continue
        };
        if !has_nodes(alloc, nodes, file.as_slice())? {
            return Err(Fail::from(format!(in alloc; "file {count}")?));
        }
        count = count.saturating_add(1);
        file.clear();
    }
    Ok(count)
}

#[test]
fn files_are_read_and_joined(rt: HostRuntime) -> Result<(), Fail> {
    assert_eq!(rt; count_files(rt.alloc())?, 30);
    Ok(())
}

// whether two files make a tree of two files and 12 nodes
fn are_two_joined(alloc: Global) -> Result<bool, Fail> {
    let first = items_of(alloc, b"c := class { A:c = 3 }".as_slice())?;
    let second = items_of(alloc, b"F(X:c):int = { 3 + 2 }".as_slice())?;
    let tree = tree_of_two(alloc, first, second)?;
    let tree = tree.get();
    Ok(tree.files == 2 && tree.nodes == 12)
}

#[test]
fn two_files_are_read_and_joined(rt: HostRuntime) -> Result<(), Fail> {
    assert!(rt; are_two_joined(rt.alloc())?);
    Ok(())
}
