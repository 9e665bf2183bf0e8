//! What annotations give together.

ghost use Rattle.std.specs.Prelude.{◌≡◌, ◌∷◌, ◌++◌, ◌||◌, map, IfOk, OnOk, List as Elements};
ghost use Rattle.ix_core.specs.declared.claim.Claim.{Claim};
ghost use Rattle.ix_core.specs.declared.claim.Post.{Post};
ghost use Rattle.ix_core.specs.Posts.{same_post, same_when};
ghost use Rattle.ix_core.specs.SameClaims.{distinct};
ghost use Rattle.ix_annot.specs.Expansion.{expanded};
ghost use Rattle.ix_meaning.specs.Annotated as spec;
ghost use Rattle.ix_class_members.specs.Seen.{seen, unseen, seen_post, unseen_posts};

use ix_annot::{AnnotError, Claims, Found, Names, Naming, Target, expand, same_claim, same_name};
use ix_core::{Claim, Name, Post};
use ix_meaning::{NameError, Note, Rule};
use ix_text::List;
use ix_tree::Annot;
use std::alloc::{AllocError, Global};

/// A place at which an annotation can name nothing.
#[derive(Clone, Copy)]
pub struct Nowhere {
    pub target: Target,
}

impl Names for Nowhere {
    ghost use Rattle.ix_meaning.specs.Annotated as spec;

    ghost names = { λ place. spec.names_nothing place.target };

    fn found(&self, _naming: &Naming) -> Option<Found> {
        None
    }

    fn target(&self) -> Target {
        self.target
    }

    fn own(&self) -> Option<Name> {
        None
    }
}

fn rule_of(error: AnnotError) -> Rule
    ensures { result ≡ spec.rule_of error }
{
    match error {
        AnnotError::Unknown => Rule::UnknownAnnotation,
        AnnotError::BadName => Rule::BadName,
        AnnotError::WrongTarget => Rule::WrongTarget,
        AnnotError::InheritedName => Rule::InheritedName,
        _ => Rule::BadArgument,
    }
}

/// Adds copies of those values at the end.
fn push_all<T: Copy>(list: &mut List<T>, more: &[T]) -> Result<(), AllocError>
    ensures { OnOk result (list.new ≡ list.old ++ more.now) }
{
    for each in more {
        list.push(*each)?;
    }
    Ok(())
}

fn one_given<N: Names>(
    alloc: Global,
    notes: &mut List<Note>,
    claims: &mut List<Claim>,
    posts: &mut List<Post>,
    names: &N,
    annot: &Annot,
) -> Result<bool, AllocError>
    ensures { record {
      claims : OnOk result (claims.new ≡ claims.old ++ spec.claims_from (expanded annot.now (N.names names.now)));
      effect_free : IfOk result (λ free. free ≡ spec.frees (expanded annot.now (N.names names.now)));
      posts : OnOk result (posts.new ≡ posts.old ++ spec.posts_from (expanded annot.now (N.names names.now)));
      notes : OnOk result (notes.new ≡ notes.old ++ spec.errors_from (expanded annot.now (N.names names.now)) annot.now.span);
    } }
{
    match expand(alloc, annot, names) {
        Ok(found) => {
            push_all(claims, found.list.as_slice())
                .and(push_all(posts, found.posts.as_slice()))
                .and(Ok(found.effect_free))
        }
        Err(AnnotError::Memory) => Err(AllocError),
        Err(error) => {
            let rule = rule_of(error);
            let span = annot.span;
            notes
                .push(Note::WrongAnnot(NameError { rule, span }))
                .map_err(AllocError::from)
                .and(Ok(false))
        }
    }
}

/// What annotations say of their method besides claims.
#[derive(Drop)]
pub struct Marks {
    /// Whether one of them marks it as side-effect-free.
    pub effect_free: bool,
    /// What it promises where it returns.
    pub posts: List<Post>,
}

/// Adds the claims of those annotations and notes their errors; answers what they say besides of a method.
pub fn given<N: Names>(
    alloc: Global,
    notes: &mut List<Note>,
    claims: &mut List<Claim>,
    names: &N,
    annots: &[&Annot],
) -> Result<Marks, AllocError>
    ensures { record {
      claims : OnOk result (claims.new ≡ claims.old ++ (spec.given (N.names names.now) (map (λ annot. annot.now) annots.now)).claims);
      effect_free : IfOk result (λ marks. marks.effect_free ≡ (spec.given (N.names names.now) (map (λ annot. annot.now) annots.now)).effect_free);
      posts : IfOk result (λ marks. marks.posts ≡ (spec.given (N.names names.now) (map (λ annot. annot.now) annots.now)).posts);
      notes : OnOk result (notes.new ≡ notes.old ++ (spec.given (N.names names.now) (map (λ annot. annot.now) annots.now)).notes);
    } }
{
    let mut effect_free = false;
    let mut posts = List::new(alloc);
    for annot in annots {
        let free = one_given(alloc, notes, claims, &mut posts, names, annot)?;
        effect_free = effect_free || free;
    }
    Ok(Marks { effect_free, posts })
}

fn is_among(claim: &Claim, claims: &[Claim]) -> bool
    ensures { result ≡ seen claims.now claim.now }
{
    for other in claims {
        if same_claim(other, claim) {
            return true;
        }
    }
    false
}

/// Adds a claim that is not there yet.
fn add_once(each: &mut List<Claim>, claim: &Claim) -> Result<(), AllocError>
    ensures { OnOk result ((claims : Elements Claim) → each.new ++ unseen each.new (distinct claims) ≡ each.old ++ unseen each.old (distinct (claim.now ∷ claims))) }
{
    if is_among(claim, each.as_slice()) {
        return Ok(());
    }
    each.push(*claim)?;
    Ok(())
}

/// Each claim once, at its first place.
#[tactic(auto, using(crate::proofs::EachOnce::all_unmet))]
pub fn distinct(alloc: Global, claims: &[Claim]) -> Result<List<Claim>, AllocError>
    ensures { IfOk result (λ each. each ≡ distinct claims.now) }
{
    let mut each = List::new(alloc);
    for claim in claims {
        add_once(&mut each, claim)?;
    }
    Ok(each)
}

// ---- posts

fn same_when(when: Option<bool>, other: Option<bool>) -> bool
    ensures { result ≡ same_when when other }
{
    match (when, other) {
        (None, None) => true,
        (Some(answer), Some(other)) => answer == other,
        _ => false,
    }
}

fn same_post(post: &Post, other: &Post) -> bool
    ensures { result ≡ same_post post.now other.now }
{
    same_when(post.when, other.when)
        && same_name(post.on, other.on)
        && same_claim(&post.claim, &other.claim)
}

fn is_among_posts(post: &Post, posts: &[Post]) -> bool
    ensures { result ≡ seen_post posts.now post.now }
{
    for other in posts {
        if same_post(other, post) {
            return true;
        }
    }
    false
}

/// Adds a post that is not there yet.
fn add_post_once(each: &mut List<Post>, post: &Post) -> Result<(), AllocError>
    ensures { OnOk result ((posts : Elements Post) → each.new ++ unseen_posts each.new (spec.distinct_posts posts) ≡ each.old ++ unseen_posts each.old (spec.distinct_posts (post.now ∷ posts))) }
{
    if is_among_posts(post, each.as_slice()) {
        return Ok(());
    }
    each.push(*post)?;
    Ok(())
}

/// Each post once, at its first place.
#[tactic(auto, using(crate::proofs::EachOnce::all_unmet))]
pub fn distinct_posts(alloc: Global, posts: &[Post]) -> Result<List<Post>, AllocError>
    ensures { IfOk result (λ each. each ≡ spec.distinct_posts posts.now) }
{
    let mut each = List::new(alloc);
    for post in posts {
        add_post_once(&mut each, post)?;
    }
    Ok(each)
}

// ---- what a name is declared with

/// A variable's.
pub fn of_variable(alloc: Global, list: List<Claim>) -> Claims
    ensures { result ≡ spec.of_variable list }
{
    Claims {
        list,
        effect_free: false,
        posts: List::new(alloc),
    }
}
