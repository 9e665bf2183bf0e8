//! An annotation as its claims.

ghost use Rattle.std.specs.Prelude.{◌≡◌, ◌≢◌, ◌<◌, ◌^◌, ◌++◌, length, IfOk, IfErr, OnOk, Ok as Good, Err as Bad};
ghost use Rattle.std.specs.List.{list_any};
ghost use Rattle.ix_annot.specs.Expansion as spec;
ghost use Rattle.ix_annot.specs.Arguments.{preceded_by};
ghost use Rattle.ix_annot.specs.declared.scope.AnnotError.TheVariants as error;

use crate::arguments::{Plan, Promise, Written, planned};
use crate::naming::{InScope, Names, named};
use crate::scope::{AnnotError, Claims, Holds, Scope};
use crate::table::{EachArray, counted, fits, row_named};
use crate::texts::{Naming, Offset};
use ix_core::{Claim, Name, Off, Post};
use ix_text::List;
use ix_tree::Annot;
use std::alloc::{AllocError, Global};

/// How many claims a declaration may have.
pub const MOST_CLAIMS: usize = 16;

fn array_claim(each: EachArray, array: Name) -> Claim
    ensures { result ≡ spec.array_claim each array }
{
    match each {
        EachArray::Below(c) => Claim::Upper(array, Off::Nothing, c),
        EachArray::SameLength => Claim::Same(array),
        EachArray::SearchResult => Claim::Search(array),
        EachArray::NotFound => Claim::Negative(array),
    }
}

fn offset_named<N: Names>(names: &N, offset: &Offset) -> Option<(Off, i32)>
    ensures { result ≡ spec.offset_named (N.names names.now) offset.now }
{
    match offset {
        Offset::Constant(c) => Some((Off::Nothing, *c)),
        Offset::Plus(naming, c) => Some((Off::Plus(named(names, Holds::Int, naming)?), *c)),
        Offset::Minus(naming, c) => Some((Off::Minus(named(names, Holds::Int, naming)?), *c)),
    }
}

/// The claim with what its names mean; none where a name is bad.
fn claim_of<N: Names>(names: &N, written: &Written) -> Option<Claim>
    ensures { result ≡ spec.claim_of (N.names names.now) written.now }
{
    match written {
        Written::OfArray(each, array) => {
            let array = named(names, Holds::Array, array)?;
            Some(array_claim(*each, array))
        }
        Written::Upper(array, offset) => {
            let array = named(names, Holds::Array, array)?;
            let (offset, c) = offset_named(names, offset)?;
            Some(Claim::Upper(array, offset, c))
        }
        Written::Less(naming, c) => {
            let name = named(names, Holds::Int, naming)?;
            Some(Claim::Less(name, *c))
        }
    }
}

fn may_change<N: Names>(names: &N, naming: &Naming) -> bool
    ensures { result ≡ spec.may_change ((N.names names.now).found naming.now) }
{
    match names.found(naming) {
        None => false,
        Some(variable) => variable.may_change,
    }
}

fn offset_may_change<N: Names>(names: &N, offset: &Offset) -> bool
    ensures { result ≡ spec.offset_may_change (N.names names.now) offset.now }
{
    match offset {
        Offset::Constant(_) => false,
        Offset::Plus(naming, _) | Offset::Minus(naming, _) => may_change(names, naming),
    }
}

fn names_inherited<N: Names>(names: &N, written: &Written) -> bool
    ensures { result ≡ spec.names_inherited (N.names names.now) written.now }
{
    match written {
        Written::OfArray(_, naming) | Written::Less(naming, _) => may_change(names, naming),
        Written::Upper(array, offset) => {
            may_change(names, array) || offset_may_change(names, offset)
        }
    }
}

fn some_inherited<N: Names>(names: &N, mut written: &[Written]) -> bool
    ensures { result ≡ list_any (spec.names_inherited (N.names names.now)) written.entry.now }
{
    while let [one, others @ ..] = written {
        if names_inherited(names, one) {
            return true;
        }
        written = others;
    }
    false
}

/// The claims behind those of the list; none where a name is bad.
#[tactic(auto, using(crate::proofs::WithOthers::one_more))]
fn claims_behind<N: Names>(
    mut claims: List<Claim>,
    names: &N,
    mut written: &[Written],
) -> Result<Option<List<Claim>>, AllocError>
    ensures { IfOk result (λ all. all ≡ preceded_by claims (spec.claims_of (N.names names.now) written.entry.now)) }
{
    while let [one, others @ ..] = written {
        let Some(claim) = claim_of(names, one) else {
            return Ok(None);
        };
        claims.push(claim)?;
        written = others;
    }
    Ok(Some(claims))
}

fn is_field(own: Option<Name>) -> bool
    ensures { result ≡ spec.is_field own }
{
    matches!(own, Some(Name::FieldNamed(_)))
}

/// Puts behind the others what is promised of one.
fn push_posts(
    posts: &mut List<Post>,
    when: Option<bool>,
    on: Name,
    claims: &[Claim],
) -> Result<(), AllocError>
    ensures { OnOk result (posts.new ≡ posts.old ++ spec.posts_on when claims.now on) }
{
    for claim in claims {
        posts.push(Post {
            when,
            on,
            claim: *claim,
        })?;
    }
    Ok(())
}

/// What is promised; none where a name is bad.
#[tactic(auto, using(crate::proofs::WithOthers::some_more))]
fn posts_of<N: Names>(
    alloc: Global,
    names: &N,
    when: Option<bool>,
    claims: &[Claim],
    mut on: &[Naming],
) -> Result<Option<List<Post>>, AllocError>
    ensures { IfOk result (λ posts. posts ≡ spec.posts_of (N.names names.now) when claims.now on.entry.now) }
{
    let mut posts = List::new(alloc);
    while let [one, others @ ..] = on {
        let Some(name) = named(names, Holds::Int, one) else {
            return Ok(None);
        };
        push_posts(&mut posts, when, name, claims)?;
        on = others;
    }
    Ok(Some(posts))
}

/// What an annotation gives with these claims; none where a name is bad.
fn given<N: Names>(
    alloc: Global,
    names: &N,
    effect_free: bool,
    promise: Option<Promise>,
    claims: List<Claim>,
) -> Result<Option<Claims>, AllocError>
    ensures { IfOk result (λ given. given ≡ spec.given (N.names names.now) effect_free promise claims) }
{
    let Some(promise) = promise else {
        return Ok(Some(Claims {
            list: claims,
            effect_free,
            posts: List::new(alloc),
        }));
    };
    match posts_of(
        alloc,
        names,
        promise.when,
        claims.as_slice(),
        promise.on.as_slice(),
    )? {
        None => Ok(None),
        Some(posts) => Ok(Some(Claims {
            list: List::new(alloc),
            effect_free,
            posts,
        })),
    }
}

fn with_plan<N: Names>(alloc: Global, names: &N, plan: Plan) -> Result<Claims, AnnotError>
    ensures { record {
      claims : IfOk result (λ claims. spec.with_claims (N.names names.now) plan (spec.claims_of (N.names names.now) plan.written) ≡ Good claims);
      error : IfErr result (λ e. e ≢ error.Memory → spec.with_claims (N.names names.now) plan (spec.claims_of (N.names names.now) plan.written) ≡ Bad e);
    } }
{
    let Plan {
        first,
        written,
        effect_free,
        promise,
    } = plan;
    let Some(list) = claims_behind(first, names, written.as_slice())? else {
        return Err(AnnotError::BadName);
    };
    if is_field(names.own()) && some_inherited(names, written.as_slice()) {
        return Err(AnnotError::InheritedName);
    }
    match given(alloc, names, effect_free, promise, list)? {
        None => Err(AnnotError::BadName),
        Some(claims) => Ok(claims),
    }
}

/// The claims of an annotation, or its one error, with no regard to how many claims it counts.
#[tactic(auto, unfolding(crate::specs::Expansion::expanded))]
pub fn expand<N: Names>(alloc: Global, annot: &Annot, names: &N) -> Result<Claims, AnnotError>
    ensures { record {
      claims : IfOk result (λ claims. spec.expanded annot.now (N.names names.now) ≡ Good claims);
      error : IfErr result (λ e. e ≢ error.Memory → spec.expanded annot.now (N.names names.now) ≡ Bad e);
    } }
{
    let Some((targets, says)) = row_named(&annot.name.text) else {
        return Err(AnnotError::Unknown);
    };
    let Some(plan) = planned(alloc, says, annot.args.as_slice())? else {
        return Err(AnnotError::BadArgument);
    };
    if fits(targets, names.target()) {
        with_plan(alloc, names, plan)
    } else {
        Err(AnnotError::WrongTarget)
    }
}

/// The claims of an annotation, or its one error.
#[tactic(auto, unfolding(crate::specs::Expansion::expansion))]
pub fn claims(alloc: Global, annot: &Annot, scope: &Scope) -> Result<Claims, AnnotError>
    requires few_params { length scope.now.params < 2 ^ 32 }
    ensures { record {
      claims : IfOk result (λ claims. spec.expansion annot.now scope.now ≡ Good claims);
      error : IfErr result (λ e. e ≢ error.Memory → spec.expansion annot.now scope.now ≡ Bad e);
    } }
{
    if counted(annot) > MOST_CLAIMS as u128 {
        Err(AnnotError::TooMany)
    } else {
        expand(alloc, annot, &InScope { scope })
    }
}
