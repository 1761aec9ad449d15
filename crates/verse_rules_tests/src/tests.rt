//! Tests of the rules, and of what tables hold.

ghost use Rattle.std.specs.Prelude.{◌≤◌, IfOk, map};
ghost use Rattle.verse_tree.specs.ItemView.{item_of};
ghost use Rattle.verse_tree.specs.Numbering.{items_nodes};
ghost use Rattle.verse_rules_walk.specs.Order.{AreNumbered};
ghost use Rattle.verse_names_items.specs.Nodes.{IsNumbered};

use crate::reading::{program_of, toks_of};
use crate::tables::{EFFECTS, REFUSED, TABLES};
use crate::writing::write_tables;
use sqlite_items::Items;
use std::alloc::Global;
use std::test::Fail;
use verse_base::refusals::{Front, Memory};
use verse_effects::effects;
use verse_names_items::declarations::define;
use verse_names_items::tables::Tables;
use verse_parse::parse;
use verse_tree::tables::{Names, Ref};
use verse_tree_items::items::{ItemTrees, ProgramTree};

// the items of a file
fn items_of(alloc: Global, bytes: &[u8]) -> Result<ItemTrees, Fail>
    ensures { IfOk result (λ items. items_nodes (map item_of items) ≤ 100000) }
{
    let toks = toks_of(alloc, bytes).map_err(|_| "tokens and layout")?;
    if toks.len() > 100000 {
        return Err(Fail::from("a row has few toks"));
    }
    match parse(alloc, bytes, toks.as_slice()) {
        Ok(items) => Ok(items),
        Err(_) => Err(Fail::from("a program")),
    }
}

fn program(alloc: Global, row: &str) -> Result<ProgramTree, Fail>
    ensures counted { IfOk result (λ tree. IsNumbered (map item_of tree.items) tree.nodes) }
    ensures numbered { IfOk result (λ tree. AreNumbered (map item_of tree.items)) }
{
    let items = items_of(alloc, row.as_bytes())?;
    let tree = program_of(alloc, items)?;
    Ok(tree)
}

// whether a refusal is by this rule, at this line and column
fn is_told(why: Option<Front>, code: u32, line: u32, col: u32) -> bool {
    match why {
        Some(Front::Refused(refusal)) => {
            let place = refusal.place;
            u32::from(refusal.rule.0) == code && place.line == line && place.col == col
        }
        Some(Front::Memory) => false,
        None => code == 0 && line == 0 && col == 0,
    }
}

fn small(word: &str) -> Result<u32, Fail> {
    let number = word.parse::<u32>()?;
    Ok(number)
}

// whether a refusal is as a row has it; only zeros stand for none
fn is_expected(why: Option<Front>, code: &str, place: &str) -> Result<bool, Fail> {
    let (line, col) = place.split_once(':').ok_or("a place")?;
    let code = small(code)?;
    let line = small(line)?;
    let col = small(col)?;
    Ok(is_told(why, code, line, col))
}

// the first word, and what is behind it
fn cut(row: &str) -> Result<(&str, &str), Fail> {
    match row.split_once(' ') {
        Some(parts) => Ok(parts),
        None => Err(Fail::from("a row has words")),
    }
}

fn why_items(alloc: Global, row: &str) -> Result<Option<Front>, Fail> {
    let tree = program(alloc, row)?;
    Ok(define(alloc, tree.get()).err())
}

fn is_refused_so(alloc: Global, code: &str, rest: &str) -> Result<bool, Fail> {
    let (place, row) = cut(rest)?;
    let why = why_items(alloc, row)?;
    is_expected(why, code, place)
}

// what the items of a program define
fn defined(alloc: Global, tree: &ProgramTree) -> Result<Tables, Fail>
    requires counted { IsNumbered (map item_of tree.now.items) tree.now.nodes }
{
    match define(alloc, tree.get()) {
        Ok(tables) => Ok(tables),
        Err(_) => Err(Fail::from("the items are fine")),
    }
}

fn are_written_so(alloc: Global, text: &str, row: &str) -> Result<bool, Fail> {
    let tree = program(alloc, row)?;
    let tables = defined(alloc, &tree)?;
    let mut out = Vec::new(alloc);
    write_tables(&mut out, &tables)?;
    Ok(out.as_slice() == text.as_bytes())
}

fn builtin_of(number: u32) -> Option<Ref> {
    match u8::try_from(number) {
        Ok(number) => Some(Ref::Builtin(number)),
        Err(_) => None,
    }
}

fn ref_of(letter: &str, number: u32, part: u32) -> Option<Ref> {
    match letter {
        "l" => Some(Ref::Local(number)),
        "k" => Some(Ref::Key(number)),
        "d" => Some(Ref::Field(number, part)),
        "m" => Some(Ref::Method(number, part)),
        "f" => Some(Ref::Fun(number)),
        "c" => Some(Ref::Class(number)),
        "e" => Some(Ref::Enum(number)),
        "b" => builtin_of(number),
        _ => None,
    }
}

// a number, and the one behind a dot, or 0
fn numbers(word: &str) -> Result<(u32, u32), Fail> {
    let (first, second) = word.split_once('.').unwrap_or((word, "0"));
    let first = small(first)?;
    let second = small(second)?;
    Ok((first, second))
}

// a node, and what it refers to
fn node_and_ref(word: &str) -> Result<(u32, Option<Ref>), Fail> {
    let (node, rest) = word.split_once('.').ok_or("a node")?;
    let (letter, rest) = rest.split_once('.').ok_or("what it refers to")?;
    let node = small(node)?;
    let (number, part) = numbers(rest)?;
    Ok((node, ref_of(letter, number, part)))
}

// lets a node refer to something, behind those that refer to nothing
fn refer(refs: &mut Items<Option<Ref>>, node: u32, to: Option<Ref>) -> Result<(), Memory> {
    for _i in refs.len()..node as usize {
        refs.push(None)?;
    }
    refs.push(to)?;
    Ok(())
}

fn refs_of(alloc: Global, words: &str) -> Result<Items<Option<Ref>>, Fail> {
    let mut refs = Items::new(alloc);
    if words == "-" {
        return Ok(refs);
    }
    for word in words.split(',') {
        let (node, to) = node_and_ref(word)?;
        refer(&mut refs, node, to)?;
    }
    Ok(refs)
}

fn names_of(tables: Tables, refs: Items<Option<Ref>>) -> Names {
    let Tables {
        functions,
        classes,
        enums,
    } = tables;
    Names {
        funs: functions,
        classes,
        enums,
        refs,
    }
}

// why the effects of a program are refused
fn why_effects(alloc: Global, words: &str, row: &str) -> Result<Option<Front>, Fail> {
    let tree = program(alloc, row)?;
    let refs = refs_of(alloc, words)?;
    let names = names_of(defined(alloc, &tree)?, refs);
    Ok(effects(alloc, tree.get(), &names).err())
}

fn are_effects_refused_so(alloc: Global, code: &str, rest: &str) -> Result<bool, Fail> {
    let (place, rest) = cut(rest)?;
    let (words, row) = cut(rest)?;
    let why = why_effects(alloc, words, row)?;
    is_expected(why, code, place)
}

/// What the rows of a table are about.
#[derive(Clone, Copy)]
enum About {
    Items,
    Tables,
    Effects,
}

fn is_right(alloc: Global, about: About, row: &str) -> Result<bool, Fail> {
    let (first, rest) = cut(row)?;
    match about {
        About::Items => is_refused_so(alloc, first, rest),
        About::Tables => are_written_so(alloc, first, rest),
        About::Effects => are_effects_refused_so(alloc, first, rest),
    }
}

// how many rows are as they are written; the first other one is a failure
fn count_right(alloc: Global, about: About, rows: &str) -> Result<u64, Fail> {
    let mut count = 0u64;
    for row in rows.lines() {
        if !is_right(alloc, about, row)? {
            return Err(Fail::from(row));
        }
        count = count.saturating_add(1);
    }
    Ok(count)
}

#[test]
fn items_are_refused(rt: HostRuntime) -> Result<(), Fail> {
    assert!(rt; count_right(rt.alloc(), About::Items, REFUSED)? == 57);
    Ok(())
}

#[test]
fn items_define_tables(rt: HostRuntime) -> Result<(), Fail> {
    assert!(rt; count_right(rt.alloc(), About::Tables, TABLES)? == 15);
    Ok(())
}

#[test]
fn effects_are_refused(rt: HostRuntime) -> Result<(), Fail> {
    assert!(rt; count_right(rt.alloc(), About::Effects, EFFECTS)? == 93);
    Ok(())
}
