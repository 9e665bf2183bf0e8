//! What a whole source says: of each class, and in it of each member.

ghost use Rattle.std.specs.Prelude.{◌≡◌, ◌++◌, ◌+◌, ◌<◌, ◌≤◌, ◌^◌, ℕ, List as Elements, IfOk, OnOk, length, option_map};
ghost use Rattle.std.specs.List.{All};
ghost use Rattle.std.specs.HashMap.{get_by_text};
ghost use Rattle.ix_meaning.specs.Few.{DeclaresFew, DeclaresFewInClass};
ghost use Rattle.ix_meaning.specs.Source as spec;
ghost use Rattle.ix_meaning.specs.Declarators as declared;
ghost use Rattle.ix_class_members.specs.World.{shown};
ghost use Rattle.ix_class_members.specs.Begun.{AllBegin, first_shown};
ghost use Rattle.ix_names.specs.Places.{at};

use crate::fields::field;
use crate::methods::method;
use crate::parents::implicit_super;
use indexmap::IndexMap;
use ix_class_members::{Begun, World, declaration_of, field_annotations};
use ix_expression_types::{wrong, wrong_if};
use ix_meaning::{Meaning, Note, Rule};
use ix_symbols::{is_cyclic, note_first};
use ix_text::List;
use ix_tree::{ClassDecl, Ident, Member};
use std::alloc::{AllocError, Global};

fn member_name(member: &Member) -> &Ident
    ensures { result.now ≡ spec.member_name member.now }
{
    match member {
        Member::Field(decl) => &decl.name,
        Member::Method(method) => &method.name,
    }
}

fn noted_members(alloc: Global, members: &[Member]) -> Result<IndexMap<String, u32>, AllocError>
    requires { length members.now < 2 ^ 32 }
    ensures { IfOk result (λ table. (n : Elements ℕ) → get_by_text table n ≡ spec.member_named members.now n) }
{
    let mut table = IndexMap::new(alloc);
    for (i, member) in members.iter().enumerate() {
        note_first(
            alloc,
            &mut table,
            member_name(member).text.as_str(),
            i as u32,
        )?;
    }
    Ok(table)
}

/// The place of the first member of each name.
fn member_table(alloc: Global, members: &[Member]) -> Result<IndexMap<String, u32>, AllocError>
    requires { length members.now < 2 ^ 32 }
    ensures { IfOk result (λ table. get_by_text table ≡ spec.member_named members.now) }
{
    noted_members(alloc, members)
}

fn is_taken(first: Option<u32>, number: u32) -> bool
    ensures { result ≡ spec.is_taken first number }
{
    match first {
        None => false,
        Some(first) => first < number,
    }
}

fn parent_use(
    world: &World,
    notes: &mut List<Note>,
    parent: &Option<Ident>,
) -> Result<(), AllocError>
    ensures { OnOk result (notes.new ≡ notes.old ++ spec.parent_use (shown world.now) parent.now) }
{
    match parent {
        None => Ok(()),
        Some(name) => match world.class(name.text.as_str()) {
            None => wrong(notes, Rule::UnknownName, name.span),
            Some(class) => notes
                .push(Note::Use(name.span, Meaning::ClassNamed(class)))
                .map_err(AllocError::from),
        },
    }
}

fn head(
    world: &World,
    notes: &mut List<Note>,
    cyclic: bool,
    number: u32,
    class: &ClassDecl,
) -> Result<(), AllocError>
    ensures { OnOk result (notes.new ≡ notes.old ++ spec.head_notes (shown world.now) cyclic number class.now) }
{
    let span = class.name.span;
    let taken = is_taken(world.class(class.name.text.as_str()), number);
    wrong_if(notes, taken, Rule::DuplicateName, span)
        .and(parent_use(world, notes, &class.parent))
        .and(wrong_if(notes, cyclic, Rule::CyclicClass, span))
}

/// A field, a method or a constructor; `next` is the number of the next instance field.
fn one_member<'a>(
    alloc: Global,
    world: &World,
    notes: &mut List<Note>,
    number: u32,
    class: &ClassDecl,
    next: u32,
    begun: &Option<Begun<'a>>,
    member: &'a Member,
) -> Result<(), AllocError>
    requires { record {
      few : DeclaresFew member.now;
      begins : AllBegin begun.now;
    } }
    ensures { OnOk result (notes.new ≡ notes.old ++ spec.one_member (at world.now number class.now) next (declared.member_in (option_map first_shown begun.now) member.now)) }
{
    match member {
        Member::Field(decl) => {
            let own = field_annotations(alloc, begun, decl)?;
            field(alloc, world, notes, number, class, next, &own, decl)
        }
        Member::Method(decl) => method(alloc, world, notes, number, class, decl),
    }
}

/// A member, and whether its name is taken.
fn named_member<'a>(
    alloc: Global,
    world: &World,
    notes: &mut List<Note>,
    number: u32,
    class: &ClassDecl,
    table: &IndexMap<String, u32>,
    i: u32,
    next: u32,
    begun: &Option<Begun<'a>>,
    member: &'a Member,
) -> Result<(), AllocError>
    requires { record {
      few : DeclaresFew member.now;
      begins : AllBegin begun.now;
    } }
    ensures { OnOk result (notes.new ≡ notes.old ++ spec.named_member (at world.now number class.now) (get_by_text table.now) i next (declared.member_in (option_map first_shown begun.now) member.now)) }
{
    let name = member_name(member);
    let taken = is_taken(table.get(name.text.as_str()).copied(), i);
    wrong_if(notes, taken, Rule::DuplicateName, name.span).and(one_member(
        alloc, world, notes, number, class, next, begun, member,
    ))
}

fn next_member(next: u32, member: &Member) -> u32
    requires { next + 1 < 2 ^ 32 }
    ensures { record {
      value : result ≡ spec.next_member next member.now;
      few : result ≤ next + 1;
    } }
{
    match member {
        Member::Field(decl) => {
            if decl.mods.get().is_static {
                next
            } else {
                next + 1
            }
        }
        Member::Method(_) => next,
    }
}

/// The declaration of which the next member may be a further field.
fn declaration_behind<'a>(
    alloc: Global,
    begun: Option<Begun<'a>>,
    member: &'a Member,
) -> Result<Option<Begun<'a>>, AllocError>
    requires { AllBegin begun }
    ensures { record {
      begins : IfOk result AllBegin;
      first : IfOk result (λ next. option_map first_shown next ≡ declared.first_behind (option_map first_shown begun.entry) member.now);
    } }
{
    match member {
        Member::Field(decl) => declaration_of(alloc, begun, decl),
        Member::Method(_) => Ok(None),
    }
}

fn members(
    alloc: Global,
    world: &World,
    notes: &mut List<Note>,
    number: u32,
    class: &ClassDecl,
    table: &IndexMap<String, u32>,
    first: u32,
    members: &[Member],
) -> Result<u32, AllocError>
    requires { record {
      numbers : first + length members.now + 1 < 2 ^ 32;
      each : All DeclaresFew members.now;
    } }
    ensures { record {
      next : IfOk result (λ next. next ≡ spec.next_fields first members.now);
      few : IfOk result (λ next. next ≤ first + length members.now);
      notes : OnOk result (notes.new ≡ notes.old ++ spec.member_notes (at world.now number class.now) (get_by_text table.now) 0 first (declared.members members.now));
    } }
{
    let mut next = first;
    let mut begun = None;
    for (i, member) in members.iter().enumerate() {
        named_member(
            alloc, world, notes, number, class, table, i as u32, next, &begun, member,
        )?;
        next = next_member(next, member);
        begun = declaration_behind(alloc, begun, member)?;
    }
    Ok(next)
}

fn is_constructor(member: &Member) -> bool
    ensures { result ≡ spec.is_constructor member.now }
{
    match member {
        Member::Field(_) => false,
        Member::Method(method) => method.constructor,
    }
}

fn has_constructor(members: &[Member]) -> bool
    ensures { result ≡ spec.has_constructor members.now }
{
    for member in members {
        if is_constructor(member) {
            return true;
        }
    }
    false
}

/// A class without a constructor has one that calls the parent's without arguments.
fn default_super(
    world: &World,
    notes: &mut List<Note>,
    number: u32,
    class: &ClassDecl,
) -> Result<(), AllocError>
    ensures { OnOk result (notes.new ≡ notes.old ++ spec.default_notes_of (shown world.now) number class.now) }
{
    if has_constructor(class.members.as_slice()) {
        return Ok(());
    }
    implicit_super(world, notes, number, class.name.span)
}

fn class(
    alloc: Global,
    world: &World,
    notes: &mut List<Note>,
    parents: &[Option<u32>],
    number: u32,
    class: &ClassDecl,
    first: u32,
) -> Result<u32, AllocError>
    requires { record {
      numbers : first + length class.now.members + 1 < 2 ^ 32;
      each : DeclaresFewInClass class.now;
    } }
    ensures { record {
      next : IfOk result (λ next. next ≡ spec.next_fields first class.now.members);
      few : IfOk result (λ next. next ≤ first + length class.now.members);
      notes : OnOk result (notes.new ≡ notes.old ++ spec.class_notes (shown world.now) parents.now world.now.methods number first class.now);
    } }
{
    head(world, notes, is_cyclic(parents, number), number, class)?;
    let table = member_table(alloc, class.members.as_slice())?;
    let next = members(
        alloc,
        world,
        notes,
        number,
        class,
        &table,
        first,
        class.members.as_slice(),
    )?;
    default_super(world, notes, number, class)?;
    Ok(next)
}

fn classes(
    alloc: Global,
    world: &World,
    notes: &mut List<Note>,
    parents: &[Option<u32>],
    classes: &[ClassDecl],
) -> Result<(), AllocError>
    requires { record {
      few : length classes.now < 2 ^ 32;
      members : spec.members_in classes.now + 1 < 2 ^ 32;
      each : All DeclaresFewInClass classes.now;
    } }
    ensures { OnOk result (notes.new ≡ notes.old ++ spec.notes_from (shown world.now) parents.now world.now.methods 0 0 classes.now) }
{
    let mut next = 0;
    for (i, decl) in classes.iter().enumerate() {
        next = class(alloc, world, notes, parents, i as u32, decl, next)?;
    }
    Ok(())
}

/// The notes of a whole source.
pub fn notes_in(
    alloc: Global,
    world: &World,
    parents: &[Option<u32>],
    decls: &[ClassDecl],
) -> Result<List<Note>, AllocError>
    requires { record {
      few : length decls.now < 2 ^ 32;
      members : spec.members_in decls.now + 1 < 2 ^ 32;
      each : All DeclaresFewInClass decls.now;
    } }
    ensures { IfOk result (λ notes. notes ≡ spec.notes_from (shown world.now) parents.now world.now.methods 0 0 decls.now) }
{
    let mut notes = List::new(alloc);
    classes(alloc, world, &mut notes, parents, decls).and(Ok(notes))
}
