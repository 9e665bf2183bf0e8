//! Whole sources.
ghost use Rattle.std.specs.Prelude.{◌≡◌, ◌++◌, ◌∷◌, ◌+◌, ◌<◌, ◌^◌, [], ℕ, Ok, Err, length, IfOk, OnOk, IsErrOf, MatchResult};
ghost use Rattle.ix_core.specs.Formed.{Formed};
ghost use Rattle.ix_meaning.specs.declared.note.Which.{Which};
ghost use Rattle.ix_meaning.specs.Resolved.{Accepts, names};
ghost use Rattle.ix_meaning.specs.Source.{members_in};
ghost use Rattle.ix_symbols.specs.Numbered.{shown};
ghost use Rattle.ix_plain.specs.declared.made.Stop.TheVariants as stop;
ghost use Rattle.ix_plain.specs.declared.numbers.Next.{Next};
ghost use Rattle.ix_plain.specs.Counts as counts;
ghost use Rattle.ix_plain.specs.Program as spec;
ghost use Rattle.ix_formed.specs.Parsed.{IsParsed};
ghost use Rattle.ix_lower.specs.declared.source.LowerError.TheVariants as error;
ghost use Rattle.ix_lower.specs.Homes.{program_in, shown_tables, shown_home};

use crate::home::{Home, Tables};
use crate::member::{classes, fields};
use crate::method::{default_constructor, written};
use crate::number::{constructors, first_numbers, has_constructor, heads, next_behind};
use ix_class_members::world_of;
use ix_core::{Method, Program};
use ix_lower_statements::accesses;
use ix_meaning::Which;
use ix_plain::{Next, Stop};
use ix_symbols::Table;
use ix_text::{List, Span};
use ix_tree::{ClassDecl, Member, MethodDecl, Unit};
use std::alloc::{AllocError, Global};

/// Why a source has no plain form.
#[derive(Drop)]
pub enum LowerError {
    /// The first method in order that passes a limit: the first such limit, of loops, slots and operations, and where the method's name starts.
    Limit(Which, u32),
    Memory,
}

impl From<AllocError> for LowerError {
    ghost use Rattle.std.specs.Prelude.{◌≡◌};
    ghost use Rattle.ix_lower.specs.declared.source.LowerError.TheVariants.{Memory};

    ghost from_gives = { λ error stop. stop ≡ Memory };

    fn from(_error: AllocError) -> LowerError {
        LowerError::Memory
    }
}

/// A written method; a limit has the place of its name.
fn placed_method<'t>(
    alloc: Global,
    tables: &Tables<'t>,
    home: &Home<'t>,
    decl: &MethodDecl,
) -> Result<Method, LowerError>
    ensures { record {
      method : IfOk result (λ method. spec.placed decl.now.name.span (spec.written_method (shown_tables tables.now) (shown_home home.now) decl.now) ≡ Ok method);
      limit : (which : Which) (place : ℕ) → IsErrOf result (error.Limit which place) → spec.placed decl.now.name.span (spec.written_method (shown_tables tables.now) (shown_home home.now) decl.now) ≡ Err (record { which = which; place = place });
    } }
{
    match written(alloc, tables, home, decl) {
        Ok(method) => Ok(method),
        Err(Stop::Limit(which)) => Err(LowerError::Limit(which, decl.name.span.from)),
        Err(Stop::Memory) => Err(LowerError::Memory),
    }
}

/// The constructor of a class that has none written; a limit has the place of the class's name.
fn placed_default<'t>(
    alloc: Global,
    tables: &Tables<'t>,
    home: &Home<'t>,
    span: Span,
) -> Result<Method, LowerError>
    ensures { record {
      method : IfOk result (λ method. spec.placed span (spec.default (shown_tables tables.now) (shown_home home.now) span) ≡ Ok method);
      limit : (which : Which) (place : ℕ) → IsErrOf result (error.Limit which place) → spec.placed span (spec.default (shown_tables tables.now) (shown_home home.now) span) ≡ Err (record { which = which; place = place });
    } }
{
    match default_constructor(alloc, tables, home, span) {
        Ok(method) => Ok(method),
        Err(Stop::Limit(which)) => Err(LowerError::Limit(which, span.from)),
        Err(Stop::Memory) => Err(LowerError::Memory),
    }
}

fn push_method(methods: &mut List<Method>, method: Method) -> Result<(), LowerError>
    ensures { MatchResult result (λ _. methods.new ≡ methods.old ++ method ∷ []) (λ cause. cause ≡ error.Memory) }
{
    methods
        .push(method)
        .map_err(AllocError::from)
        .map_err(LowerError::from)
}

/// Adds the written methods of a class.
fn add_methods<'t>(
    alloc: Global,
    tables: &Tables<'t>,
    home: &Home<'t>,
    methods: &mut List<Method>,
) -> Result<(), LowerError>
    ensures { record {
      limit : (which : Which) (place : ℕ) → IsErrOf result (error.Limit which place) → spec.methods_in (shown_tables tables.now) (shown_home home.now) home.now.members.now methods.old ≡ Err (record { which = which; place = place });
      methods : OnOk result (spec.methods_in (shown_tables tables.now) (shown_home home.now) home.now.members.now methods.old ≡ Ok methods.new);
    } }
{
    for member in home.members {
        if let Member::Method(decl) = member {
            let method = placed_method(alloc, tables, home, decl)?;
            push_method(methods, method)?;
        }
    }
    Ok(())
}

/// Adds the constructor of a class that has none written.
fn add_default<'t>(
    alloc: Global,
    tables: &Tables<'t>,
    home: &Home<'t>,
    span: Span,
    methods: &mut List<Method>,
) -> Result<(), LowerError>
    ensures { record {
      limit : (which : Which) (place : ℕ) → IsErrOf result (error.Limit which place) → spec.default_of (shown_tables tables.now) (shown_home home.now) span methods.old ≡ Err (record { which = which; place = place });
      methods : OnOk result (spec.default_of (shown_tables tables.now) (shown_home home.now) span methods.old ≡ Ok methods.new);
    } }
{
    if has_constructor(home.members) {
        return Ok(());
    }
    let method = placed_default(alloc, tables, home, span)?;
    push_method(methods, method)
}

/// The class that a method stands in.
fn home<'t>(tables: &Tables<'t>, next: Next, decl: &'t ClassDecl) -> Home<'t>
    ensures { shown_home result ≡ spec.home (shown_tables tables.now) next decl.now }
{
    Home {
        class: next.class,
        name: &decl.name.text,
        parent: tables.world.parent(next.class),
        members: decl.members.as_slice(),
        field: next.field,
    }
}

/// Adds the written methods of all classes.
fn add_all_methods<'t>(
    alloc: Global,
    tables: &Tables<'t>,
    first: Next,
    decls: &'t [ClassDecl],
    methods: &mut List<Method>,
) -> Result<(), LowerError>
    ensures { record {
      limit : (which : Which) (place : ℕ) → IsErrOf result (error.Limit which place) → spec.methods_from (shown_tables tables.now) first decls.now methods.old ≡ Err (record { which = which; place = place });
      methods : OnOk result (spec.methods_from (shown_tables tables.now) first decls.now methods.old ≡ Ok methods.new);
    } }
{
    let mut next = first;
    for decl in decls {
        let home = home(tables, next, decl);
        add_methods(alloc, tables, &home, methods)?;
        next = next_behind(next, decl);
    }
    Ok(())
}

/// Adds the constructors of classes that have none written.
fn add_all_defaults<'t>(
    alloc: Global,
    tables: &Tables<'t>,
    first: Next,
    decls: &'t [ClassDecl],
    methods: &mut List<Method>,
) -> Result<(), LowerError>
    ensures { record {
      limit : (which : Which) (place : ℕ) → IsErrOf result (error.Limit which place) → spec.defaults_from (shown_tables tables.now) first decls.now methods.old ≡ Err (record { which = which; place = place });
      methods : OnOk result (spec.defaults_from (shown_tables tables.now) first decls.now methods.old ≡ Ok methods.new);
    } }
{
    let mut next = first;
    for decl in decls {
        let home = home(tables, next, decl);
        add_default(alloc, tables, &home, decl.name.span, methods)?;
        next = next_behind(next, decl);
    }
    Ok(())
}

fn methods<'t>(
    alloc: Global,
    tables: &Tables<'t>,
    first: Next,
    decls: &'t [ClassDecl],
) -> Result<List<Method>, LowerError>
    ensures { record {
      methods : IfOk result (λ methods. spec.all_methods (shown_tables tables.now) first decls.now ≡ Ok methods);
      limit : (which : Which) (place : ℕ) → IsErrOf result (error.Limit which place) → spec.all_methods (shown_tables tables.now) first decls.now ≡ Err (record { which = which; place = place });
    } }
{
    let mut methods = List::new(alloc);
    add_all_methods(alloc, tables, first, decls, &mut methods)?;
    add_all_defaults(alloc, tables, first, decls, &mut methods)?;
    Ok(methods)
}

/// The program of these classes.
fn program_in<'t>(
    alloc: Global,
    tables: &Tables<'t>,
    decls: &'t [ClassDecl],
) -> Result<Program, LowerError>
    ensures { record {
      program : IfOk result (λ program. program_in (shown_tables tables.now) decls.now ≡ Ok program);
      limit : (which : Which) (place : ℕ) → IsErrOf result (error.Limit which place) → program_in (shown_tables tables.now) decls.now ≡ Err (record { which = which; place = place });
    } }
{
    let first = first_numbers(decls);
    let methods = methods(alloc, tables, first, decls)?;
    let classes = classes(alloc, tables.world, first, decls)?;
    let fields = fields(alloc, tables.table, decls)?;
    Ok(Program {
        classes,
        methods,
        fields,
        accesses: accesses(decls),
    })
}

/// The plain form of a source whose names mean what the table says. Of a tree that `parse` answers, with the table of its names and without errors on them, it is
/// formed: its numbers are in range, its types and its calls fit.
pub fn lower(alloc: Global, unit: &Unit, table: &Table) -> Result<Program, LowerError>
    requires { record {
      few_classes : length unit.now.classes < 2 ^ 32;
      few_members : members_in unit.now.classes + 1 < 2 ^ 32;
    } }
    ensures program { IfOk result (λ program. spec.program (shown table.now) unit.now.classes ≡ Ok program) }
    ensures limit { (which : Which) (place : ℕ) → IsErrOf result (error.Limit which place) → spec.program (shown table.now) unit.now.classes ≡ Err (record { which = which; place = place }) }
    ensures formed { IsParsed unit.now → Accepts unit.now → shown table.now ≡ names unit.now → IfOk result (λ program. Formed program) }
{
    let decls = unit.classes.as_slice();
    let (world, _) = world_of(alloc, decls)?;
    let heads = heads(alloc, decls)?;
    let constructors = constructors(alloc, decls)?;
    let tables = Tables {
        table,
        heads: heads.as_slice(),
        constructors: constructors.as_slice(),
        world: &world,
    };
    program_in(alloc, &tables, decls)
}
