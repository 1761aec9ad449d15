//! The functions of the code.

ghost use Rattle.std.specs.Prelude.{◌≡◌, [], map, max, IfOk, OnOk};
ghost use Rattle.verse_tree.specs.ItemView.{param_of};
ghost use Rattle.lower_code.specs.Programs as l;
ghost use Rattle.lower_expr.specs.Building.{built, spot, empty};
ghost use Rattle.lower_expr.specs.Locals.{scope_of};
ghost use Rattle.lower_items.specs.Views.{body_view, this_scope};
ghost use Rattle.verse_lower.specs.Making.{function_of, functions_from, with_bodies, with_body};

use crate::trees::lower_tree;
use lower_code::arounds::Around;
use lower_expr::builder::Builder;
use lower_expr::scopes::{Scopes, Slot};
use lower_items::bodies::Body;
use lower_items::tables::Tables;
use std::alloc::Global;
use verse_base::limits::MOST_OPERATIONS;
use verse_base::refusals::Memory;
use verse_code::codes::Func;
use verse_code::operations::Op;
use verse_code::tables::Table;
use verse_tree::items::Param;

/// How deep trees may be nested: no tree of a program within the greatest size is nested deeper.
const MOST_DEPTH: u32 = MOST_OPERATIONS as u32;

/// The greater number.
fn most(a: u32, b: u32) -> u32
    ensures { result ≡ max a b }
{
    if a < b { b } else { a }
}

/// The object of a method is its first local.
fn add_this(scopes: &mut Scopes<'_>, is_method: bool) -> Result<(), Memory>
    requires { scope_of scopes.old ≡ [] }
    ensures { OnOk result (scope_of scopes.new ≡ this_scope is_method) }
{
    if is_method {
        scopes.add(Slot::Constant(b"Self"))?;
    }
    Ok(())
}

/// The parameters are the next ones.
fn add_params<'a>(scopes: &mut Scopes<'a>, params: &'a [Param]) -> Result<(), Memory>
    ensures { OnOk result (scope_of scopes.new ≡
        l.params_scope (map param_of params.now) (scope_of scopes.old)) }
{
    'params: for param in params {
        scopes.add(Slot::Constant(param.name.as_slice()))?;
    }
    Ok(())
}

/// The locals with which a function begins.
fn scopes_of<'a>(alloc: Global, body: Body<'a>) -> Result<Scopes<'a>, Memory>
    ensures { IfOk result (λ scopes. scope_of scopes ≡ (body_view body.entry).scope) }
{
    let mut scopes = Scopes::new(alloc);
    add_this(&mut scopes, body.is_method)?;
    add_params(&mut scopes, body.params)?;
    Ok(scopes)
}

/// The operations of a function.
fn add_body<'a>(
    tables: &'a Tables<'a>,
    builder: &mut Builder,
    scopes: &mut Scopes<'a>,
    body: Body<'a>,
) -> Result<(), Memory>
    requires { scope_of scopes.old ≡ (body_view body).scope }
    ensures { OnOk result (built builder.new ≡
        with_body tables.now.program.now (body_view body.entry) (built builder.old)) }
{
    builder.count_locals(0);
    lower_tree(
        tables,
        MOST_DEPTH,
        builder,
        scopes,
        Around::fresh(),
        body.body,
    )?;
    builder.one(Op::Return)?;
    Ok(())
}

/// A function of the code.
fn add_function<'a>(
    alloc: Global,
    tables: &'a Tables<'a>,
    builder: &mut Builder,
    body: Body<'a>,
) -> Result<Func, Memory>
    ensures code { OnOk result (built builder.new ≡
        with_body tables.now.program.now (body_view body.entry) (built builder.old)) }
    ensures function { IfOk result (λ f. f ≡
        function_of tables.now.program.now (spot (built builder.old)) (body_view body.entry)) }
{
    let mut scopes = scopes_of(alloc, body)?;
    let params = scopes.count()?;
    let entry = builder.label()?;
    add_body(tables, builder, &mut scopes, body)?;
    Ok(Func {
        params,
        locals: most(params, builder.locals()),
        entry,
        suspends: body.suspends,
    })
}

/// All functions of the code.
pub(crate) fn add_functions<'a>(
    alloc: Global,
    tables: &'a Tables<'a>,
    builder: &mut Builder,
    bodies: &[Body<'a>],
) -> Result<Table<Func>, Memory>
    requires { built builder.old ≡ empty }
    ensures code { OnOk result (with_bodies tables.now.program.now [] (built builder.new) ≡
        with_bodies tables.now.program.now (map body_view bodies.now) empty) }
    ensures functions { IfOk result (λ fs. fs ≡
        functions_from tables.now.program.now (map body_view bodies.now) (spot empty)) }
{
    let mut functions = Table::new(alloc);
    'bodies: for body in bodies {
        functions.push(add_function(alloc, tables, builder, *body)?)?;
    }
    Ok(functions)
}
