//! The parameters and locals in scope (JLS 6.3, 6.4).

ghost use Rattle.std.specs.Prelude.{◌≡◌, ◌++◌, ◌-◌, ◌∷◌, [], ℕ, None, Some, option_copied, option_map, map, take, length, slice_get, OnOk};
ghost use Rattle.ix_meaning.specs.Scope as scope;
ghost use Rattle.ix_expression_types.specs.Here as spec;

use indexmap::IndexMap;
use ix_core::Type_;
use ix_meaning::Meaning;
use ix_symbols::Need;
use ix_text::List;
use smallvec::SmallVec;
use std::alloc::{AllocError, Global};

/// A parameter.
#[derive(Drop)]
pub struct Param<'a> {
    pub name: &'a str,
    /// From 0.
    pub number: u32,
    /// None where its class is unknown.
    pub ty: Option<Type_>,
    pub is_final: bool,
}

/// A local in scope, which is kept by its name.
#[derive(Drop)]
pub struct Local {
    pub number: u32,
    /// None where its class is unknown.
    pub ty: Option<Type_>,
    /// Whether it is final and has an initialiser.
    pub is_fixed: bool,
}

/// A parameter or a local that a name means.
#[derive(Clone, Copy)]
pub struct Known<'s> {
    pub meaning: Meaning,
    pub ty: &'s Option<Type_>,
    /// Whether nothing may be assigned to it.
    pub is_fixed: bool,
}

/// What names mean at a place, but for the members of classes.
#[derive(Drop)]
pub struct Scopes<'a> {
    /// The class that the place stands in.
    pub class: u32,
    /// Whether `this` can be used.
    pub has_object: bool,
    pub in_constructor: bool,
    pub in_loop: bool,
    /// Whether an annotation may name fields of `this`.
    pub names_fields: bool,
    /// What a `return` needs; none where there is no result.
    pub result: Option<Need<'a>>,
    /// The local in whose initialiser the place stands.
    pub pending: Option<&'a str>,
    pub params: List<Param<'a>>,
    pub locals: IndexMap<String, Local>,
    /// Of each open scope, the outermost first, how many locals were known where it was opened.
    pub marks: SmallVec<usize, 8>,
    /// The number of the next local.
    pub next: u32,
}

fn first_named<'s, 'a>(params: &'s [Param<'a>], name: &str) -> Option<&'s Param<'a>>
    ensures { option_map spec.param_known (option_copied result) ≡ scope.meant name.now (map spec.param_known params.now) }
{
    for param in params {
        if param.name == name {
            return Some(param);
        }
    }
    None
}

fn param_named<'s>(params: &'s [Param<'_>], name: &str) -> Option<Known<'s>>
    ensures { option_map (spec.known_as name.now) result ≡ scope.meant name.now (map spec.param_known params.now) }
{
    match first_named(params, name) {
        None => None,
        Some(param) => Some(Known {
            meaning: Meaning::Param(param.number),
            ty: &param.ty,
            is_fixed: param.is_final,
        }),
    }
}

fn local_named<'s>(locals: &'s IndexMap<String, Local>, name: &str) -> Option<Known<'s>>
    ensures { option_map (spec.known_as name.now) result ≡ scope.meant name.now (map spec.local_known locals.now.entries) }
{
    match locals.get(name) {
        None => None,
        Some(local) => Some(Known {
            meaning: Meaning::Local(local.number),
            ty: &local.ty,
            is_fixed: local.is_fixed,
        }),
    }
}

impl<'a> Scopes<'a> {
    /// The parameter or the local that a name means here. Of two with one name the first stays the one that is meant.
    #[tactic(auto, using(crate::proofs::MeantNames::meant_append))]
    pub fn meant(&self, name: &str) -> Option<Known<'_>>
        ensures { option_map (spec.known_as name.now) result ≡ scope.meant name.now (spec.names self.now) }
    {
        if let Some(param) = param_named(self.params.as_slice(), name) {
            return Some(param);
        }
        local_named(&self.locals, name)
    }

    /// Whether it is the name of the local in whose initialiser the place stands.
    pub fn is_pending(&self, name: &str) -> bool
        ensures { result ≡ scope.is_pending (spec.text_in self.now.pending) name.now }
    {
        match self.pending {
            None => false,
            Some(local) => local == name,
        }
    }

    /// Opens a scope. The one error is want of memory.
    pub fn enter(&mut self) -> Result<(), AllocError>
        ensures { record {
          marks : OnOk result (self.new.marks.items ≡ self.old.marks.items ++ length self.old.locals.entries ∷ []);
          locals : self.new.locals ≡ self.old.locals;
          params : self.new.params ≡ self.old.params;
          next : self.new.next ≡ self.old.next;
          class : self.new.class ≡ self.old.class;
          has_object : self.new.has_object ≡ self.old.has_object;
          in_constructor : self.new.in_constructor ≡ self.old.in_constructor;
          in_loop : self.new.in_loop ≡ self.old.in_loop;
          names_fields : self.new.names_fields ≡ self.old.names_fields;
          result : self.new.result ≡ self.old.result;
          pending : self.new.pending ≡ self.old.pending;
        } }
    {
        let known = self.locals.len();
        self.marks.push(known)?;
        Ok(())
    }

    /// Leaves the scope that was opened last: the locals that it brought are known no more.
    #[tactic(auto, using(crate::proofs::LastMark::last_mark, crate::proofs::LastMark::other_marks))]
    pub fn leave(&mut self)
        ensures { record {
          locals : (outer : List ℕ) (mark : ℕ) → self.old.marks.items ≡ outer ++ mark ∷ [] → self.new.locals.entries ≡ take mark self.old.locals.entries;
          marks : (outer : List ℕ) (mark : ℕ) → self.old.marks.items ≡ outer ++ mark ∷ [] → self.new.marks.items ≡ outer;
          params : self.new.params ≡ self.old.params;
          next : self.new.next ≡ self.old.next;
          class : self.new.class ≡ self.old.class;
          has_object : self.new.has_object ≡ self.old.has_object;
          in_constructor : self.new.in_constructor ≡ self.old.in_constructor;
          in_loop : self.new.in_loop ≡ self.old.in_loop;
          names_fields : self.new.names_fields ≡ self.old.names_fields;
          result : self.new.result ≡ self.old.result;
          pending : self.new.pending ≡ self.old.pending;
        } }
    {
        if let Some(mark) = self.marks.pop() {
            self.locals.truncate(mark);
        }
    }
}
