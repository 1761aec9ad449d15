//! Rows of types, each written behind its parts: `n` never, `f` that of `false`, `v` void, `i` int,
//! `l` logic, `c` char, `E` an enum, `0` to `3` classes; behind one type `?` an option, `a` an
//! array, `t` a task, `e` an event; behind two `m` a map and `p` a tuple; behind one `s` a tuple of
//! it.
//!
//! Class 0 is a root, 1 and 2 inherit from 0, and 3 from 1. Class 2 is unique.

use shared_list::SharedList;
use sqlite_items::{Boxed, Items};
use std::alloc::{AllocError, Global};
use std::test::Fail;
use verse_base::refusals::Memory;
use verse_rules_types::fitting::{does_fit, is_same};
use verse_rules_types::joining::join_of;
use verse_rules_types::kinds::{is_comparable, is_key, levels};
use verse_tree::fields::FieldList;
use verse_tree::tables::{ClassInfo, MapOf, Ty};

fn class(parent: Option<u32>, is_unique: bool) -> ClassInfo {
    ClassInfo {
        parent,
        is_unique,
        fields: FieldList::new(),
        methods: SharedList::new(),
    }
}

fn classes(alloc: Global) -> Result<Vec<ClassInfo>, Memory> {
    let mut all = Vec::new(alloc);
    all.push(class(None, false))?;
    all.push(class(Some(0), false))?;
    all.push(class(Some(0), true))?;
    all.push(class(Some(1), false))?;
    Ok(all)
}

fn simple(letter: u8) -> Option<Ty> {
    match letter {
        b'n' => Some(Ty::Never),
        b'f' => Some(Ty::Nil),
        b'v' => Some(Ty::Void),
        b'i' => Some(Ty::Int),
        b'l' => Some(Ty::Logic),
        b'c' => Some(Ty::Char),
        b'E' => Some(Ty::Enum(0)),
        b'0' => Some(Ty::Class(0)),
        b'1' => Some(Ty::Class(1)),
        b'2' => Some(Ty::Class(2)),
        b'3' => Some(Ty::Class(3)),
        _ => None,
    }
}

/// A type, let go by one call.
struct Slot {
    ty: Ty,
}

impl Drop for Slot {
    fn drop(self) {
        let Self { ty: _ } = self;
    }
}

impl Slot {
    fn new(ty: Ty) -> Slot {
        Slot { ty }
    }

    fn get(&self) -> &Ty {
        &self.ty
    }

    fn into_ty(self) -> Ty {
        let Self { ty } = self;
        ty
    }

    fn boxed(self, alloc: Global) -> Result<Boxed<Ty>, AllocError> {
        Boxed::new(alloc, self.into_ty())
    }
}

/// Types, the last one on top.
struct Stack {
    types: Vec<Ty>,
}

impl Drop for Stack {
    fn drop(self) {
        let Self { types: _ } = self;
    }
}

impl Stack {
    fn new(alloc: Global) -> Stack {
        Stack {
            types: Vec::new(alloc),
        }
    }

    fn push(&mut self, slot: Slot) -> Result<(), AllocError> {
        self.types.push(slot.into_ty())?;
        Ok(())
    }

    fn pop(&mut self) -> Result<Slot, Fail> {
        match self.types.pop() {
            Some(ty) => Ok(Slot::new(ty)),
            None => Err(Fail::from("a type is missing")),
        }
    }
}

fn with_part(letter: u8, part: Boxed<Ty>) -> Slot {
    match letter {
        b'?' => Slot::new(Ty::Option(part)),
        b'a' => Slot::new(Ty::Array(part)),
        b't' => Slot::new(Ty::Task(part)),
        _ => Slot::new(Ty::Event(part)),
    }
}

fn of_one(alloc: Global, letter: u8, part: Slot) -> Result<Slot, AllocError> {
    let part = part.boxed(alloc)?;
    Ok(with_part(letter, part))
}

/// The parts of a tuple.
struct Parts {
    items: Items<Ty>,
}

impl Drop for Parts {
    fn drop(self) {
        let Self { items: _ } = self;
    }
}

impl Parts {
    fn new(alloc: Global) -> Parts {
        Parts {
            items: Items::new(alloc),
        }
    }

    fn push(&mut self, part: Slot) -> Result<(), AllocError> {
        self.items.push(part.into_ty())?;
        Ok(())
    }

    fn into_tuple(self) -> Slot {
        let Self { items } = self;
        Slot::new(Ty::Tuple(items))
    }
}

fn pair(alloc: Global, first: Slot, second: Slot) -> Result<Slot, AllocError> {
    let mut parts = Parts::new(alloc);
    parts.push(first)?;
    parts.push(second)?;
    Ok(parts.into_tuple())
}

fn alone(alloc: Global, part: Slot) -> Result<Slot, AllocError> {
    let mut parts = Parts::new(alloc);
    parts.push(part)?;
    Ok(parts.into_tuple())
}

fn map(alloc: Global, key: Slot, value: Slot) -> Result<Slot, AllocError> {
    let key = key.boxed(alloc)?;
    let value = value.boxed(alloc)?;
    Ok(Slot::new(Ty::Map(MapOf { key, value })))
}

/// What a letter makes of the types before it.
fn made(alloc: Global, types: &mut Stack, letter: u8) -> Result<Slot, Fail> {
    let last = types.pop()?;
    match letter {
        b'm' => Ok(map(alloc, types.pop()?, last)?),
        b'p' => Ok(pair(alloc, types.pop()?, last)?),
        b's' => Ok(alone(alloc, last)?),
        _ => Ok(of_one(alloc, letter, last)?),
    }
}

/// Puts what a letter stands for behind the types before it.
fn step(alloc: Global, types: &mut Stack, letter: u8) -> Result<(), Fail> {
    let slot = match simple(letter) {
        Some(ty) => Slot::new(ty),
        None => made(alloc, types, letter)?,
    };
    Ok(types.push(slot)?)
}

fn written(alloc: Global, word: &str) -> Result<Slot, Fail> {
    let mut types = Stack::new(alloc);
    for letter in word.as_bytes() {
        step(alloc, &mut types, *letter)?;
    }
    types.pop()
}

fn cut(row: &str) -> Result<(&str, &str), Fail> {
    match row.split_once(' ') {
        Some(parts) => Ok(parts),
        None => Err(Fail::from("a row has words")),
    }
}

/// The first type, the second, and what they join to. The first fits the second exactly where they
/// join to the second.
const JOINS: &str = "\
i i i
i v v
v i v
n i i
i n i
n n n
n v v
f l l
f f f
l f l
f i? i?
i? f i?
f i v
i l v
c ca v
E E E
E i v
3 1 1
1 3 1
3 0 0
1 2 0
3 2 0
2 3 0
0 i v
3? 1? 1?
3? 2? 0?
n? i? i?
f? i?? i??
ia na ia
ia ca va
3t 2t 0t
3e 3e 3e
3e 1e v
ne ie v
3a 2a 0a
iim iim iim
i3m i2m i0m
nnm iim iim
iim cim vim
i3p i2p i0p
ilp lip vvp
iip is v
fip lvp lvp
";

// What the types of a row join to is the type that it has, exactly where the first fits the second
// that is the second.
fn join_so(classes: &[ClassInfo], first: &Slot, second: &Slot, joined: &Slot, to: &Slot) -> bool {
    let fits = does_fit(classes, first.get(), second.get());
    is_same(joined.get(), to.get()) && fits == is_same(to.get(), second.get())
}

fn joined(
    alloc: Global,
    classes: &[ClassInfo],
    first: &Slot,
    second: &Slot,
) -> Result<Slot, Memory> {
    Ok(Slot::new(join_of(alloc, classes, first.get(), second.get())?))
}

fn is_join_right(alloc: Global, classes: &[ClassInfo], row: &str) -> Result<bool, Fail> {
    let (first, rest) = cut(row)?;
    let (second, to) = cut(rest)?;
    let first = written(alloc, first)?;
    let second = written(alloc, second)?;
    let joined = joined(alloc, classes, &first, &second)?;
    let to = written(alloc, to)?;
    Ok(join_so(classes, &first, &second, &joined, &to))
}

#[test]
fn types_join(rt: HostRuntime) -> Result<(), Fail> {
    check_rows(rt.alloc(), About::Joins, JOINS)
}

/// A type, whether it is a key, whether it has equality, and how many levels it has.
const KINDS: &str = "\
n yes yes 1
f yes yes 1
v no no 1
i yes yes 1
l yes yes 1
c yes yes 1
E yes yes 1
ca yes yes 2
ia no yes 2
na no yes 2
0 no no 1
2 no yes 1
3 no no 1
2? no yes 2
0? no no 2
it no no 2
ie no no 2
iim no yes 2
i0m no no 2
cai2pm no yes 3
i0p no no 2
is no yes 2
iaaaa no yes 5
";

// Whether a type is a key and whether it has equality is told by `yes`.
fn are_kinds(classes: &[ClassInfo], ty: &Ty, key: &str, equality: &str) -> bool {
    is_key(ty) == (key == "yes") && is_comparable(classes, ty) == (equality == "yes")
}

fn is_kind_right(alloc: Global, classes: &[ClassInfo], row: &str) -> Result<bool, Fail> {
    let (word, rest) = cut(row)?;
    let (key, rest) = cut(rest)?;
    let (equality, count) = cut(rest)?;
    let slot = written(alloc, word)?;
    let count = count.parse::<u32>()?;
    Ok(are_kinds(classes, slot.get(), key, equality) && levels(slot.get()) == count)
}

#[test]
fn types_have_kinds(rt: HostRuntime) -> Result<(), Fail> {
    check_rows(rt.alloc(), About::Kinds, KINDS)
}

/// What the rows of a table are about.
#[derive(Clone, Copy)]
enum About {
    Joins,
    Kinds,
}

fn is_right(alloc: Global, about: About, classes: &[ClassInfo], row: &str) -> Result<bool, Fail> {
    match about {
        About::Joins => is_join_right(alloc, classes, row),
        About::Kinds => is_kind_right(alloc, classes, row),
    }
}

/// The first row that is not as it is written is a failure.
fn check_rows(alloc: Global, about: About, rows: &str) -> Result<(), Fail> {
    let classes = classes(alloc)?;
    for row in rows.lines() {
        if !is_right(alloc, about, classes.as_slice(), row)? {
            return Err(Fail::from(row));
        }
    }
    Ok(())
}
