//! Methods.
ghost use Rattle.std.specs.Prelude.{◌≡◌, [], Ok, Err, if◌then◌else◌, option_map, IfOk, OnOk, IsErrOf};
ghost use Rattle.ix_meaning.specs.Inheritance.{if_instance};
ghost use Rattle.ix_meaning.specs.Members.{nearest};
ghost use Rattle.ix_meaning.specs.declared.note.Which.{Which};
ghost use Rattle.ix_plain.specs.declared.made.Stop.TheVariants as stop;
ghost use Rattle.ix_plain.specs.Members.{is_static};
ghost use Rattle.ix_plain.specs.Program as spec;
ghost use Rattle.ix_lower_expressions.specs.Shown.{shown_site};
ghost use Rattle.ix_class_members.specs.World.{callee, shown as shown_world};
ghost use Rattle.ix_lower.specs.Homes.{shown_tables, shown_home};

use crate::constructor::begin_constructor;
use crate::home::{Home, Tables};
use crate::member::{
    claims_declared, is_effect_free, param_types, params, slot_behind, type_declared,
};
use crate::number::is_static;
use crate::post::{posts, some_conditional};
use ix_class_members::{Called, World};
use ix_core::{Block, Method, Type_};
use ix_lower_expressions::{Site, empty};
use ix_lower_statements::{MOST_LOOPS, copied_text, count_operations, each, loops};
use ix_meaning::Which;
use ix_plain::{Body, Made, Stop};
use ix_text::{List, Span};
use ix_tree::{Expr, MethodDecl};
use std::alloc::{AllocError, Global};

/// How many operations a method may have.
pub const MOST_OPERATIONS: u32 = 8192;

// ---- bodies

fn start(alloc: Global, free: u32) -> Body
    ensures { result ≡ spec.start free }
{
    Body {
        made: empty(alloc, free),
        locals: List::new(alloc),
        most: free,
        loops: 0,
    }
}

fn args_or_none(args: &Option<List<Expr>>) -> &[Expr]
    ensures { result.now ≡ spec.args_or_none args.now }
{
    match args {
        None => &[],
        Some(args) => args.as_slice(),
    }
}

fn begin(
    alloc: Global,
    site: &Site<'_>,
    home: &Home<'_>,
    decl: &MethodDecl,
    body: &mut Body,
) -> Result<(), Stop>
    ensures { record {
      limit : (which : Which) → IsErrOf result (stop.Limit which) → spec.written_start (shown_site site.now) (shown_home home.now) decl.now body.old ≡ Err which;
      body : OnOk result (spec.written_start (shown_site site.now) (shown_home home.now) decl.now body.old ≡ Ok body.new);
    } }
{
    if !decl.constructor {
        return Ok(());
    }
    let args = args_or_none(&decl.parent_args);
    begin_constructor(alloc, site, home, args, decl.name.span, body)
}

fn written_body(
    alloc: Global,
    site: &Site<'_>,
    home: &Home<'_>,
    decl: &MethodDecl,
    free: u32,
) -> Result<Body, Stop>
    ensures { record {
      body : IfOk result (λ body. spec.written_body (shown_site site.now) (shown_home home.now) decl.now free ≡ Ok body);
      limit : (which : Which) → IsErrOf result (stop.Limit which) → spec.written_body (shown_site site.now) (shown_home home.now) decl.now free ≡ Err which;
    } }
{
    let mut body = start(alloc, free);
    begin(alloc, site, home, decl, &mut body)?;
    each(alloc, site, decl.body.as_slice(), decl.span.to, &mut body)?;
    Ok(body)
}

fn default_body(alloc: Global, site: &Site<'_>, home: &Home<'_>, span: Span) -> Result<Body, Stop>
    ensures { record {
      body : IfOk result (λ body. spec.constructor_start (shown_site site.now) (shown_home home.now) [] span (spec.start 1) ≡ Ok body);
      limit : (which : Which) → IsErrOf result (stop.Limit which) → spec.constructor_start (shown_site site.now) (shown_home home.now) [] span (spec.start 1) ≡ Err which;
    } }
{
    let mut body = start(alloc, 1);
    begin_constructor(alloc, site, home, &[], span, &mut body)?;
    Ok(body)
}

/// The method with its body, if it has no more operations than it may.
fn with_body(head: Method, body: Body) -> Result<Method, Stop>
    ensures { record {
      method : IfOk result (λ method. spec.with_body head body ≡ Ok method);
      limit : (which : Which) → IsErrOf result (stop.Limit which) → spec.with_body head body ≡ Err which;
    } }
{
    let Body {
        made,
        locals,
        most,
        loops: _,
    } = body;
    let Made { items, free: _ } = made;
    let block = Block { items };
    if count_operations(&block, 0) > MOST_OPERATIONS {
        return Err(Stop::Limit(Which::Ops));
    }
    let mut method = head;
    method.locals = locals;
    method.slots = most;
    method.body = block;
    Ok(method)
}

// ---- heads

fn first_param(is_static: bool) -> u32
    ensures { result ≡ spec.first_param is_static }
{
    if is_static { 0 } else { 1 }
}

fn instance_number(called: Option<Called<'_>>) -> Option<u32>
    ensures { result ≡ spec.number_of (if_instance (option_map callee called.entry)) }
{
    match called {
        Some(called) => {
            if called.signature.is_static {
                None
            } else {
                Some(called.number)
            }
        }
        None => None,
    }
}

/// The number of the instance method of that name in the nearest of these classes that has one.
fn nearest_instance(world: &World, classes: &[u32], name: &str) -> Option<u32>
    ensures { result ≡ spec.number_of (nearest (λ class. if_instance ((shown_world world.now).method class name.now)) classes.now) }
{
    for class in classes {
        let number = instance_number(world.own_method(*class, name));
        if number.is_some() {
            return number;
        }
    }
    None
}

/// The number of the method that a method overrides (JLS 8.4.8).
fn overrides(world: &World, class: u32, decl: &MethodDecl) -> Option<u32>
    ensures { result ≡ spec.overrides (shown_world world.now) class decl.now }
{
    if decl.constructor || decl.mods.is_static {
        return None;
    }
    nearest_instance(world, world.supers(class), decl.name.text.as_str())
}

fn no_block(alloc: Global) -> Block
    ensures { result ≡ record { items = [] } }
{
    Block {
        items: List::new(alloc),
    }
}

/// A written method without its body.
fn written_head(
    alloc: Global,
    tables: &Tables<'_>,
    home: &Home<'_>,
    decl: &MethodDecl,
) -> Result<Method, AllocError>
    ensures { IfOk result (λ head. head ≡ spec.written_head (shown_tables tables.now) (shown_home home.now) decl.now) }
{
    let span = decl.name.span;
    let first = first_param(is_static(decl));
    let name = copied_text(alloc, &decl.name.text)?;
    let params = params(alloc, tables.table, first, decl.params.as_slice())?;
    let param_types = param_types(alloc, tables.table, decl.params.as_slice())?;
    let result = type_declared(alloc, tables.table, span)?;
    let result_claims = claims_declared(alloc, tables.table, span)?;
    Ok(Method {
        name,
        class: home.class,
        is_static: is_static(decl),
        constructor: decl.constructor,
        effect_free: is_effect_free(tables.table, span),
        params,
        param_types,
        result,
        result_claims,
        posts: posts(alloc, tables, home.class, decl)?,
        locals: List::new(alloc),
        slots: 0,
        body: no_block(alloc),
        overrides: overrides(tables.world, home.class, decl),
        written: true,
        span,
    })
}

fn default_head(alloc: Global, home: &Home<'_>, span: Span) -> Result<Method, AllocError>
    ensures { IfOk result (λ head. head ≡ spec.default_head (shown_home home.now) span) }
{
    let name = copied_text(alloc, home.name)?;
    Ok(Method {
        name,
        class: home.class,
        is_static: false,
        constructor: true,
        effect_free: false,
        params: List::new(alloc),
        param_types: List::new(alloc),
        result: Type_::Void,
        result_claims: List::new(alloc),
        posts: List::new(alloc),
        locals: List::new(alloc),
        slots: 0,
        body: no_block(alloc),
        overrides: None,
        written: false,
        span,
    })
}

// ---- whole methods

/// A written method.
pub fn written<'t>(
    alloc: Global,
    tables: &Tables<'t>,
    home: &Home<'t>,
    decl: &MethodDecl,
) -> Result<Method, Stop>
    ensures { record {
      method : IfOk result (λ method. spec.written_method (shown_tables tables.now) (shown_home home.now) decl.now ≡ Ok method);
      limit : (which : Which) → IsErrOf result (stop.Limit which) → spec.written_method (shown_tables tables.now) (shown_home home.now) decl.now ≡ Err which;
    } }
{
    if loops(decl.body.as_slice(), 0) > MOST_LOOPS {
        return Err(Stop::Limit(Which::Loops));
    }
    let head = written_head(alloc, tables, home, decl)?;
    let free = slot_behind(first_param(is_static(decl)), decl.params.as_slice());
    let site = Site {
        table: tables.table,
        heads: tables.heads,
        constructors: tables.constructors,
        class: home.class,
        params: head.params.as_slice(),
        answers: some_conditional(head.posts.as_slice()),
    };
    let body = written_body(alloc, &site, home, decl, free)?;
    let method = with_body(head, body)?;
    Ok(method)
}

/// The constructor of a class that has none written (JLS 8.8.9).
pub fn default_constructor<'t>(
    alloc: Global,
    tables: &Tables<'t>,
    home: &Home<'t>,
    span: Span,
) -> Result<Method, Stop>
    ensures { record {
      method : IfOk result (λ method. spec.default (shown_tables tables.now) (shown_home home.now) span ≡ Ok method);
      limit : (which : Which) → IsErrOf result (stop.Limit which) → spec.default (shown_tables tables.now) (shown_home home.now) span ≡ Err which;
    } }
{
    let head = default_head(alloc, home, span)?;
    let site = Site {
        table: tables.table,
        heads: tables.heads,
        constructors: tables.constructors,
        class: home.class,
        params: head.params.as_slice(),
        answers: some_conditional(head.posts.as_slice()),
    };
    let body = default_body(alloc, &site, home, span)?;
    with_body(head, body)
}
