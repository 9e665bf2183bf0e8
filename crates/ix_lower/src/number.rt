//! The numbers of members.
ghost use Rattle.std.specs.Prelude.{◌≡◌, [], IfOk, OnOk};
ghost use Rattle.ix_meaning.specs.Source as meaning;
ghost use Rattle.ix_plain.specs.Members as spec;

use ix_lower_statements::one_more;
use ix_plain::{Head, Next};
use ix_text::List;
use ix_tree::{ClassDecl, LocalDecl, Member, MethodDecl};
use std::alloc::{AllocError, Global};

pub fn is_static(decl: &MethodDecl) -> bool
    ensures { result ≡ spec.is_static decl.now }
{
    decl.mods.is_static && !decl.constructor
}

fn is_constructor(member: &Member) -> bool
    ensures { result ≡ meaning.is_constructor member.now }
{
    match member {
        Member::Field(_) => false,
        Member::Method(decl) => decl.constructor,
    }
}

/// Whether one of the members is a constructor.
pub fn has_constructor(members: &[Member]) -> bool
    ensures { result ≡ meaning.has_constructor members.now }
{
    for member in members {
        if is_constructor(member) {
            return true;
        }
    }
    false
}

fn add_heads(heads: &mut List<Head>, class: u32, members: &[Member]) -> Result<(), AllocError>
    ensures { OnOk result (heads.new ≡ spec.heads_in heads.old class members.now) }
{
    for member in members {
        if let Member::Method(decl) = member {
            heads.push(Head {
                class,
                is_static: is_static(decl),
            })?;
        }
    }
    Ok(())
}

/// The written methods, by their numbers.
pub fn heads(alloc: Global, decls: &[ClassDecl]) -> Result<List<Head>, AllocError>
    ensures { IfOk result (λ heads. heads ≡ spec.heads decls.now) }
{
    let mut heads = List::new(alloc);
    let mut class = 0;
    for decl in decls {
        add_heads(&mut heads, class, decl.members.as_slice())?;
        class = one_more(class);
    }
    Ok(heads)
}

fn next_method(next: u32, member: &Member) -> u32
    ensures { result ≡ spec.next_method next member.now }
{
    match member {
        Member::Field(_) => next,
        Member::Method(_) => one_more(next),
    }
}

fn next_methods(next: u32, members: &[Member]) -> u32
    ensures { result ≡ spec.next_methods next members.now }
{
    let mut next = next;
    for member in members {
        next = next_method(next, member);
    }
    next
}

/// The number of the first instance field behind that one.
pub fn next_field(next: u32, decl: &LocalDecl) -> u32
    ensures { result ≡ spec.next_field next decl.now }
{
    if decl.mods.get().is_static {
        next
    } else {
        one_more(next)
    }
}

fn next_fields(next: u32, members: &[Member]) -> u32
    ensures { result ≡ spec.next_fields next members.now }
{
    let mut next = next;
    for member in members {
        if let Member::Field(decl) = member {
            next = next_field(next, decl);
        }
    }
    next
}

fn next_default(default: u32, members: &[Member]) -> u32
    ensures { result ≡ spec.next_default default members.now }
{
    if has_constructor(members) {
        default
    } else {
        one_more(default)
    }
}

/// The numbers behind a class.
pub fn next_behind(next: Next, decl: &ClassDecl) -> Next
    ensures { result ≡ spec.next_behind next decl.now }
{
    let members = decl.members.as_slice();
    Next {
        class: one_more(next.class),
        field: next_fields(next.field, members),
        method: next_methods(next.method, members),
        default: next_default(next.default, members),
    }
}

fn written_methods(decls: &[ClassDecl]) -> u32
    ensures { result ≡ spec.written_methods 0 decls.now }
{
    let mut count = 0;
    for decl in decls {
        count = next_methods(count, decl.members.as_slice());
    }
    count
}

/// The numbers of the first class.
pub fn first_numbers(decls: &[ClassDecl]) -> Next
    ensures { result ≡ spec.first_numbers decls.now }
{
    Next {
        class: 0,
        field: 0,
        method: 0,
        default: written_methods(decls),
    }
}

fn constructor_in(default: u32, next: u32, members: &[Member]) -> u32
    ensures { result ≡ spec.constructor_in default next members.now }
{
    let mut next = next;
    for member in members {
        if is_constructor(member) {
            return next;
        }
        next = next_method(next, member);
    }
    default
}

/// Of each class the number of its constructor.
pub fn constructors(alloc: Global, decls: &[ClassDecl]) -> Result<List<u32>, AllocError>
    ensures { IfOk result (λ constructors. constructors ≡ spec.constructors decls.now) }
{
    let mut constructors = List::new(alloc);
    let mut next = first_numbers(decls);
    for decl in decls {
        constructors.push(constructor_in(next.default, next.method, decl.members.as_slice()))?;
        next = next_behind(next, decl);
    }
    Ok(constructors)
}
