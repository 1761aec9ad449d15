//! Tests of operations, their shapes and what suits them.

ghost use Rattle.std.specs.Prelude.{◌<◌};

use std::alloc::{AllocError, Global};
use std::test::Fail;
use verse_base::places::Place;
use verse_code::codes::{Class, Code, Func};
use verse_code::operands::{Operand, OperandKind};
use verse_code::operations::Op;
use verse_code::shapes::{Parts, make_op, shape_at};
use verse_code::tables::Table;
use verse_code::validity::{Sizes, all_suit, is_valid, suits_kind};

/// The operations by their codes, made with the operands -5 or 1, 2, 3 and 4, and what these are.
const OPERATIONS: &str = "\
0|Int(-5)|Integer(-5)
1|Unit|Bare
2|False|Bare
3|True|Bare
4|Char(1)|One(Operand(Char, 1))
5|Text(1)|One(Operand(Text, 1))
6|Enum(1, 2)|Two(Operand(Number, 1), Operand(Number, 2))
7|Get(1)|One(Operand(Number, 1))
8|Put(1)|One(Operand(Number, 1))
9|Drop|Bare
10|Add(1)|One(Operand(Place, 1))
11|Sub(1)|One(Operand(Place, 1))
12|Mul(1)|One(Operand(Place, 1))
13|Neg(1)|One(Operand(Place, 1))
14|Floor(1)|One(Operand(Place, 1))
15|Ceil(1)|One(Operand(Place, 1))
16|Mod|Bare
17|Concat(1)|One(Operand(Place, 1))
18|Join(1, 2)|Two(Operand(Number, 1), Operand(Place, 2))
19|Lt|Bare
20|Le|Bare
21|Gt|Bare
22|Ge|Bare
23|Eq|Bare
24|Ne|Bare
25|Array(1, 2)|Two(Operand(Number, 1), Operand(Place, 2))
26|Map(1, 2)|Two(Operand(Number, 1), Operand(Place, 2))
27|Tuple(1, 2)|Two(Operand(Number, 1), Operand(Place, 2))
28|Some(1)|One(Operand(Place, 1))
29|Query|Bare
30|Item(1)|One(Operand(Number, 1))
31|At|Bare
32|Length|Bare
33|New(1)|One(Operand(Place, 1))
34|Load(1)|One(Operand(Number, 1))
35|Store { slot: 1, indices: 2, mode: 3, place: 4 }|Four(Operand(Number, 1), Operand(Number, 2), Operand(Mode, 3), Operand(Place, 4))
36|Object(1, 2)|Two(Operand(Class, 1), Operand(Place, 2))
37|Event(1)|One(Operand(Place, 1))
38|Jump(1)|One(Operand(Ahead, 1))
39|Same(1)|One(Operand(Ahead, 1))
40|Again(1)|One(Operand(Behind, 1))
41|Try(1)|One(Operand(Ahead, 1))
42|Commit|Bare
43|Undo|Bare
44|Fail|Bare
45|Call(1)|One(Operand(Function, 1))
46|Method(1, 2)|Two(Operand(Number, 1), Operand(Number, 2))
47|Return|Bare
48|Each(1)|One(Operand(Number, 1))
49|Range(1)|One(Operand(Number, 1))
50|Take { domain: 1, value: 2, label: 3 }|Three(Operand(Number, 1), Operand(Number, 2), Operand(Behind, 3))
51|Append(1, 2)|Two(Operand(Number, 1), Operand(Place, 2))
52|Print(1)|One(Operand(Place, 1))
53|Sleep(1)|One(Operand(Pause, 1))
54|Forever|Bare
55|AwaitTask|Bare
56|AwaitEvent|Bare
57|Signal|Bare
58|Spawn(1)|One(Operand(Function, 1))
59|SpawnMethod(1, 2)|Two(Operand(Number, 1), Operand(Number, 2))
60|Group { kind: 1, arms: 2, place: 3 }|Three(Operand(Group, 1), Operand(Arms, 2), Operand(Place, 3))
61|Arm(1)|One(Operand(Ahead, 1))
62|Branch(1)|One(Operand(Ahead, 1))
63|ArmEnd|Bare
64|Defer(1)|One(Operand(Ahead, 1))
65|Leave(1)|One(Operand(Number, 1))
66|DeferEnd|Bare";

// whether the operation of this code is the one of a line, with its operands and its code
fn is_operation(alloc: Global, code: u8, line: &str) -> Result<bool, Fail>
    requires { code < 67 }
{
    let parts = Parts {
        integer: -5,
        a: 1,
        b: 2,
        c: 3,
        d: 4,
    };
    let op = make_op(code, parts);
    let operands = op.operands();
    let told = format!(in alloc; "{code}|{op:?}|{operands:?}")?;
    Ok(told.as_str() == line && op.code() == code && shape_at(code).is_some())
}

// how many lines there are; the first that has another operation is a failure
fn count_right(alloc: Global) -> Result<u8, Fail> {
    let mut code = 0u8;
    for line in OPERATIONS.lines() {
        if code >= 67 || !is_operation(alloc, code, line)? {
            return Err(Fail::from(line));
        }
        code = code.saturating_add(1);
    }
    Ok(code)
}

#[test]
fn operations(rt: HostRuntime) -> Result<(), Fail> {
    assert!(rt; count_right(rt.alloc())? == 67);
    assert!(rt; shape_at(67).is_none());
    Ok(())
}

fn texts(alloc: Global) -> Result<Table<Table<u8>>, AllocError> {
    let mut texts = Table::new(alloc);
    texts.push(Table::from_slice(alloc, b"Hi")?)?;
    Ok(texts)
}

fn places(alloc: Global) -> Result<Table<Place>, AllocError> {
    let place = Place {
        file: 0,
        line: 1,
        col: 1,
    };
    Table::from_slice(alloc, &[place])
}

fn functions(alloc: Global) -> Result<Table<Func>, AllocError> {
    let function = Func {
        params: 0,
        locals: 0,
        entry: 0,
        suspends: false,
    };
    Table::from_slice(alloc, &[function])
}

fn classes(alloc: Global) -> Result<Table<Class>, AllocError> {
    let mut methods = Vec::new(alloc);
    methods.push(0u32)?;
    let mut classes = Table::new(alloc);
    classes.push(Class {
        slots: 1,
        methods: Table::from_vec(methods),
    })?;
    Ok(classes)
}

/// Unit, Print 0 and Return, with one entry in each table.
fn small(alloc: Global, main: u32) -> Result<Code, AllocError> {
    let texts = texts(alloc)?;
    let places = places(alloc)?;
    let functions = functions(alloc)?;
    let classes = classes(alloc)?;
    let ops = Table::from_slice(alloc, &[Op::Text(0), Op::Print(0), Op::Return])?;
    Ok(Code {
        files: 1,
        texts,
        places,
        functions,
        classes,
        main,
        ops,
    })
}

fn are_three(ops: &Table<Op>) -> bool {
    ops.len() == 3 && ops.get(2).is_some() && ops.get(3).is_none()
}

fn are_ops(ops: Table<Op>) -> bool {
    ops.into_vec().as_slice() == [Op::Text(0), Op::Print(0), Op::Return].as_slice()
}

#[test]
fn validity(rt: HostRuntime) -> Result<(), Fail> {
    let code = small(rt.alloc(), 0)?;
    assert!(rt; is_valid(&code));
    assert!(rt; are_three(&code.ops));
    assert!(rt; are_ops(code.ops));
    assert!(rt; !is_valid(&small(rt.alloc(), 1)?));
    Ok(())
}

fn are_kinds_suited(sizes: &Sizes) -> bool {
    suits_kind(sizes, 1, OperandKind::Ahead, 2)
        && !suits_kind(sizes, 1, OperandKind::Ahead, 1)
        && !suits_kind(sizes, 1, OperandKind::Class, 0)
}

fn are_operands_suited(sizes: &Sizes) -> bool {
    all_suit(sizes, 1, Op::Jump(2).operands()) && !all_suit(sizes, 1, Op::Again(1).operands())
}

fn are_labels_told() -> bool {
    Op::Jump(2).label() == Some(2) && Op::Unit.label().is_none()
}

fn is_operand_itself() -> bool {
    Operand(OperandKind::Mode, 3) == Operand(OperandKind::Mode, 3)
}

#[test]
fn operands(rt: HostRuntime) -> Result<(), Fail> {
    let sizes = Sizes {
        ops: 3,
        texts: 1,
        places: 1,
        functions: 1,
        classes: 0,
    };
    assert!(rt; are_kinds_suited(&sizes));
    assert!(rt; are_operands_suited(&sizes));
    assert!(rt; are_labels_told());
    assert!(rt; is_operand_itself());
    Ok(())
}
