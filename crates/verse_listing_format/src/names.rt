//! The names of the operations.

ghost use Rattle.std.specs.Prelude.{◌≡◌, ◌<◌, Some, IfSome, slice_get};
ghost use Rattle.verse_listing_format.specs.Names.{names, code_named};

/// How many operations there are.
const OPERATIONS: u8 = 67;

/// The name of the operation of this code.
#[tactic(auto, unfolding(crate::specs::Names::names))]
pub fn name_at(code: u8) -> &'static str
    requires { code < 67 }
    ensures { Some result.now ≡ slice_get names code }
{
    match code {
        0 => "Int",
        1 => "Unit",
        2 => "False",
        3 => "True",
        4 => "Char",
        5 => "Text",
        6 => "Enum",
        7 => "Get",
        8 => "Put",
        9 => "Drop",
        10 => "Add",
        11 => "Sub",
        12 => "Mul",
        13 => "Neg",
        14 => "Floor",
        15 => "Ceil",
        16 => "Mod",
        17 => "Concat",
        18 => "Join",
        19 => "Lt",
        20 => "Le",
        21 => "Gt",
        22 => "Ge",
        23 => "Eq",
        24 => "Ne",
        25 => "Array",
        26 => "Map",
        27 => "Tuple",
        28 => "Some",
        29 => "Query",
        30 => "Item",
        31 => "At",
        32 => "Length",
        33 => "New",
        34 => "Load",
        35 => "Store",
        36 => "Object",
        37 => "Event",
        38 => "Jump",
        39 => "Same",
        40 => "Again",
        41 => "Try",
        42 => "Commit",
        43 => "Undo",
        44 => "Fail",
        45 => "Call",
        46 => "Method",
        47 => "Return",
        48 => "Each",
        49 => "Range",
        50 => "Take",
        51 => "Append",
        52 => "Print",
        53 => "Sleep",
        54 => "Forever",
        55 => "AwaitTask",
        56 => "AwaitEvent",
        57 => "Signal",
        58 => "Spawn",
        59 => "SpawnMethod",
        60 => "Group",
        61 => "Arm",
        62 => "Branch",
        63 => "ArmEnd",
        64 => "Defer",
        65 => "Leave",
        66 => "DeferEnd",
        _ => unreachable!(),
    }
}

/// The code of the operation of this name, or None where no operation has it.
pub fn code_named(name: &[u8]) -> Option<u8>
    ensures code { result ≡ code_named name.now }
    ensures within { IfSome result (λ code. code < 67) }
{
    'codes: for code in 0..OPERATIONS {
        if name_at(code).as_bytes() == name {
            return Some(code);
        }
    }
    None
}
