//! The declarations of a whole source, by class and name.

ghost use Rattle.std.specs.Prelude.{◌≡◌, ◌+◌, ◌<◌, ◌^◌, IfOk, option_copied, option_map, length, slice_get};
ghost use Rattle.std.specs.HashMap.{get_by_text};
ghost use Rattle.ix_meaning.specs.Members as members;
ghost use Rattle.ix_meaning.specs.Classes as classes;
ghost use Rattle.ix_meaning.specs.Source.{members_in};
ghost use Rattle.ix_class_members.specs.World as spec;

use crate::lists::{fields, methods};
use crate::named::{own_constructor, own_fields, own_methods};
use indexmap::IndexMap;
use ix_core::Type_;
use ix_meaning::{Field, Signature};
use ix_symbols::{class_table, parent, parents, supers};
use ix_text::List;
use ix_tree::ClassDecl;
use std::alloc::{AllocError, Global};

/// What one class declares and extends: the numbers of its members by their names.
#[derive(Drop)]
pub struct ClassWorld {
    pub parent: Option<u32>,
    /// The superclasses, the direct one first.
    pub supers: List<u32>,
    pub fields: IndexMap<String, u32>,
    pub methods: IndexMap<String, u32>,
    pub constructor: Option<u32>,
}

/// The declarations of a whole source.
#[derive(Drop)]
pub struct World {
    /// The classes by their names.
    pub table: IndexMap<String, u32>,
    pub classes: List<ClassWorld>,
    pub fields: List<Field>,
    pub methods: List<Signature>,
}

/// A method or constructor and its number.
#[derive(Clone, Copy)]
pub struct Called<'a> {
    pub number: u32,
    pub signature: &'a Signature,
}

impl World {
    /// The class that a name means.
    pub fn class(&self, name: &str) -> Option<u32>
        ensures { result ≡ (spec.shown self.now).class name.now }
    {
        self.table.get(name).copied()
    }

    /// The superclasses of a class, the direct one first, without the class itself.
    pub fn supers(&self, class: u32) -> &[u32]
        ensures { result.now ≡ (spec.shown self.now).supers class }
    {
        match self.classes.as_slice().get(class as usize) {
            None => &[],
            Some(class) => class.supers.as_slice(),
        }
    }

    /// The class that a class extends.
    pub fn parent(&self, class: u32) -> Option<u32>
        ensures { result ≡ (spec.shown self.now).parent class }
    {
        match self.classes.as_slice().get(class as usize) {
            None => None,
            Some(class) => class.parent,
        }
    }

    /// The field that the class itself declares.
    pub fn own_field(&self, class: u32, name: &str) -> Option<&Field>
        ensures { option_copied result ≡ (spec.shown self.now).field class name.now }
    {
        match self.classes.as_slice().get(class as usize) {
            None => None,
            Some(class) => match class.fields.get(name) {
                None => None,
                Some(number) => self.fields.as_slice().get(*number as usize),
            },
        }
    }

    /// The method that the class itself declares.
    pub fn own_method(&self, class: u32, name: &str) -> Option<Called<'_>>
        ensures { option_map spec.callee result ≡ (spec.shown self.now).method class name.now }
    {
        match self.classes.as_slice().get(class as usize) {
            None => None,
            Some(class) => match class.methods.get(name) {
                None => None,
                Some(number) => match self.methods.as_slice().get(*number as usize) {
                    None => None,
                    Some(signature) => Some(Called {
                        number: *number,
                        signature,
                    }),
                },
            },
        }
    }

    fn nearest_field(&self, classes: &[u32], name: &str) -> Option<&Field>
        ensures { option_copied result ≡ members.nearest (λ a. (spec.shown self.now).field a name.now) classes.now }
    {
        for class in classes {
            if let Some(field) = self.own_field(*class, name) {
                return Some(field);
            }
        }
        None
    }

    /// JLS 8.2: the field that a class declares, or the one that it inherits.
    pub fn field(&self, class: u32, name: &str) -> Option<&Field>
        ensures { option_copied result ≡ members.field_named (spec.shown self.now) class name.now }
    {
        if let Some(field) = self.own_field(class, name) {
            return Some(field);
        }
        self.nearest_field(self.supers(class), name)
    }

    fn nearest_method(&self, classes: &[u32], name: &str) -> Option<Called<'_>>
        ensures { option_map spec.callee result ≡ members.nearest (λ a. (spec.shown self.now).method a name.now) classes.now }
    {
        for class in classes {
            if let Some(method) = self.own_method(*class, name) {
                return Some(method);
            }
        }
        None
    }

    /// JLS 8.2: the method that a class declares, or the one that it inherits.
    pub fn method(&self, class: u32, name: &str) -> Option<Called<'_>>
        ensures { option_map spec.callee result ≡ members.method_named (spec.shown self.now) class name.now }
    {
        if let Some(method) = self.own_method(class, name) {
            return Some(method);
        }
        self.nearest_method(self.supers(class), name)
    }

    fn own_constructor(&self, class: u32) -> Option<&Signature>
        ensures { option_copied result ≡ spec.signature_in ((spec.shown self.now).constructor class) }
    {
        match self.classes.as_slice().get(class as usize) {
            None => None,
            Some(class) => match class.constructor {
                None => None,
                Some(number) => self.methods.as_slice().get(number as usize),
            },
        }
    }

    /// The types of the parameters of a class's constructor. A class without one has a constructor without parameters.
    pub fn constructor_params(&self, class: u32) -> &[Option<Type_>]
        ensures { result.now ≡ members.constructor_params (spec.shown self.now) class }
    {
        match self.own_constructor(class) {
            None => &[],
            Some(signature) => signature.params.as_slice(),
        }
    }
}

fn class_name(decls: &[ClassDecl], class: u32) -> &str
    ensures { result.now ≡ members.class_name (slice_get decls.now class) }
{
    match decls.get(class as usize) {
        None => "",
        Some(class) => class.name.text.as_str(),
    }
}

fn class_world(
    alloc: Global,
    parents: &[Option<u32>],
    fields: &[Field],
    methods: &[Signature],
    decls: &[ClassDecl],
    class: u32,
) -> Result<ClassWorld, AllocError>
    requires { record {
      few_fields : length fields.now < 2 ^ 32;
      few_methods : length methods.now < 2 ^ 32;
    } }
    ensures { IfOk result (spec.IsClass parents.now fields.now methods.now decls.now class) }
{
    let supers = supers(alloc, parents, class)?;
    let fields = own_fields(alloc, fields, class)?;
    let constructor = own_constructor(methods, class, class_name(decls, class));
    let methods = own_methods(alloc, methods, class)?;
    Ok(ClassWorld {
        parent: parent(parents, class),
        supers,
        fields,
        methods,
        constructor,
    })
}

#[tactic(auto, using(crate::proofs::Worlds::pushed))]
fn class_worlds(
    alloc: Global,
    parents: &[Option<u32>],
    fields: &[Field],
    methods: &[Signature],
    decls: &[ClassDecl],
) -> Result<List<ClassWorld>, AllocError>
    requires { record {
      few_fields : length fields.now < 2 ^ 32;
      few_methods : length methods.now < 2 ^ 32;
      few : length decls.now < 2 ^ 32;
    } }
    ensures { record {
      each : IfOk result (spec.AreClasses parents.now fields.now methods.now decls.now 0);
      all : IfOk result (λ worlds. length worlds ≡ length decls.now);
    } }
{
    let mut worlds = List::new(alloc);
    for c in 0..decls.len() {
        let world = class_world(alloc, parents, fields, methods, decls, c as u32)?;
        worlds.push(world)?;
    }
    Ok(worlds)
}

/// The tables of a source, and of each class its parent.
#[tactic(auto, using(crate::proofs::Worlds::is_world, crate::proofs::FewMembers::few_fields, crate::proofs::FewMembers::few_methods))]
pub fn world_of(
    alloc: Global,
    decls: &[ClassDecl],
) -> Result<(World, List<Option<u32>>), AllocError>
    requires { record {
      few : length decls.now < 2 ^ 32;
      members : members_in decls.now + 1 < 2 ^ 32;
    } }
    ensures { IfOk result (λ found. spec.IsWorld decls.now found.0 found.1) }
{
    let table = class_table(alloc, decls)?;
    let parents = parents(alloc, &table, decls)?;
    let fields = fields(alloc, &table, decls)?;
    let methods = methods(alloc, &table, decls)?;
    let classes = class_worlds(
        alloc,
        parents.as_slice(),
        fields.as_slice(),
        methods.as_slice(),
        decls,
    )?;
    let world = World {
        table,
        classes,
        fields,
        methods,
    };
    Ok((world, parents))
}
