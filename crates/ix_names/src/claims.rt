//! The claims of each declaration, counted before any rule is asked.

ghost use Rattle.std.specs.Prelude.{List as Elements, ◌≡◌, ◌≤◌, ◌++◌, None, Some, option_map, IfOk, IfErr};
ghost use Rattle.ix_tree.specs.declared.annot.Annot.{Annot};
ghost use Rattle.ix_annot.specs.Table.{most_claims};
ghost use Rattle.ix_meaning.specs.Declarators as joint;
ghost use Rattle.ix_meaning.specs.Limits as spec;
ghost use Rattle.ix_names.specs.Counted as counts;
ghost use Rattle.ix_names.specs.Shown.{IsFine, shown};

use crate::passed::Passed;
use ix_annot::{MOST_CLAIMS, counted};
use ix_meaning::{Which, same_span};
use ix_text::Boxed;
use ix_tree::{Annot, ClassDecl, LocalDecl, Member, MethodDecl, Stmt, StmtKind, TypeTree};

/// How much annotations count behind so many claims; an error at the one that passes the limit.
fn count_on(before: usize, annots: &[Annot]) -> Result<usize, Passed>
    requires { before ≤ most_claims }
    ensures { record {
      few : IfOk result (λ count. count ≤ most_claims);
      counted : IfOk result (λ count. count ≡ counts.counted_on before annots.now);
      none : IfOk result (λ _. spec.past_claims_in before annots.now ≡ None);
      passed : IfErr result (λ passed. spec.past_claims_in before annots.now ≡ Some (shown passed));
    } }
{
    let mut count = before;
    for annot in annots {
        let more = counted(annot);
        if more > (MOST_CLAIMS - count) as u128 {
            return Err(Passed {
                which: Which::Claims,
                place: annot.span.from,
            });
        }
        count += more as usize;
    }
    Ok(count)
}

/// The annotations of one declaration, in two pieces.
#[tactic(auto, using(crate::proofs::FirstPassed::past_on))]
fn declaration(first: &[Annot], second: &[Annot]) -> Option<Passed>
    ensures { option_map shown result ≡ spec.past_claims_in 0 (first.now ++ second.now) }
{
    match count_on(0, first) {
        Err(passed) => Some(passed),
        Ok(count) => match count_on(count, second) {
            Err(passed) => Some(passed),
            Ok(_) => None,
        },
    }
}

fn declared(decl: &LocalDecl) -> Option<Passed>
    ensures { option_map shown result ≡ spec.past_claims_in 0 (spec.declared_annots decl.now) }
{
    declaration(
        decl.mods.get().annots.as_slice(),
        decl.ty.get().annots.as_slice(),
    )
}

fn each_declared(decls: &[LocalDecl]) -> Option<Passed>
    ensures { option_map shown result ≡ spec.past_claims (spec.each_annots decls.now) }
{
    for decl in decls {
        if let Some(passed) = declared(decl) {
            return Some(passed);
        }
    }
    None
}

/// The declarators of one declaration have its annotations jointly: the first tells for all.
#[tactic(auto, using(crate::proofs::JointClaims::first_tells))]
fn first_declared(decls: &[LocalDecl]) -> Option<Passed>
    ensures { option_map shown result ≡ spec.past_claims (spec.each_annots (joint.declarators decls.now)) }
{
    match decls {
        [] => None,
        [decl, ..] => declared(decl),
    }
}

/// The first of two: of the declarations before, and of those behind them.
#[tactic(auto, using(crate::proofs::FirstPassed::past_append))]
fn first(before: Option<Passed>, behind: Option<Passed>) -> Option<Passed>
    ensures { (xs ys : Elements (Elements Annot)) → option_map shown before ≡ spec.past_claims xs → option_map shown behind ≡ spec.past_claims ys
        → option_map shown result ≡ spec.past_claims (xs ++ ys) }
{
    match before {
        None => behind,
        Some(passed) => Some(passed),
    }
}

#[cycle(statements)]
fn statement(stmt: &Stmt) -> Option<Passed>
    ensures { option_map shown result ≡ spec.past_claims (spec.stmt_annots stmt.now) }
{
    match &stmt.kind {
        StmtKind::Block(body) => statements(body.as_slice()),
        StmtKind::Local(decls) => first_declared(decls.as_slice()),
        StmtKind::If(_, then, otherwise) => {
            first(statement(then.get()), statement_or_none(otherwise))
        }
        StmtKind::While(_, body) => statement(body.get()),
        StmtKind::Do(body, _) => statement(body.get()),
        StmtKind::For(start, _, _, body) => {
            first(statements(start.as_slice()), statement(body.get()))
        }
        _ => None,
    }
}

#[cycle(statements)]
fn statement_or_none(stmt: &Option<Boxed<Stmt>>) -> Option<Passed>
    ensures { option_map shown result ≡ spec.past_claims (spec.maybe (option_map spec.stmt_annots stmt.now)) }
{
    match stmt {
        None => None,
        Some(stmt) => statement(stmt.get()),
    }
}

#[cycle(statements)]
fn statements(body: &[Stmt]) -> Option<Passed>
    ensures { option_map shown result ≡ spec.past_claims (counts.all_statements body.now) }
{
    for stmt in body {
        if let Some(passed) = statement(stmt) {
            return Some(passed);
        }
    }
    None
}

fn result_annots(ty: &Option<TypeTree>) -> &[Annot]
    ensures { result.now ≡ spec.result_annots ty.now }
{
    match ty {
        None => &[],
        Some(ty) => ty.annots.as_slice(),
    }
}

fn method(method: &MethodDecl) -> Option<Passed>
    ensures { option_map shown result ≡ spec.past_claims (counts.method_annots method.now) }
{
    let head = declaration(method.mods.annots.as_slice(), result_annots(&method.result));
    let params = each_declared(method.params.as_slice());
    first(head, first(params, statements(method.body.as_slice())))
}

/// Whether the field is a further one of the declaration that began with that one: their types stand at one place.
fn is_further(first: Option<&LocalDecl>, decl: &LocalDecl) -> bool
    ensures { result ≡ joint.is_further (option_map (λ first. first.now) first.entry) decl.now }
{
    match first {
        None => false,
        Some(first) => same_span(first.ty.get().span, decl.ty.get().span),
    }
}

/// A further field has no claims but those that were counted with the first.
#[tactic(auto, using(crate::proofs::JointClaims::field_tells, crate::proofs::JointClaims::field_alone))]
fn field(first: Option<&LocalDecl>, decl: &LocalDecl) -> Option<Passed>
    requires { IsFine (option_map (λ first. first.now) first) }
    ensures { option_map shown result ≡ spec.past_claims_in 0 (spec.declared_annots (joint.field_in (option_map (λ first. first.now) first.entry) decl.now)) }
{
    if is_further(first, decl) {
        return None;
    }
    declared(decl)
}

/// A member behind a field whose declaration began with that one, or behind none.
fn member(first: Option<&LocalDecl>, member: &Member) -> Option<Passed>
    requires { IsFine (option_map (λ first. first.now) first) }
    ensures { option_map shown result ≡ spec.past_claims (counts.annots_of (joint.member_in (option_map (λ first. first.now) first.entry) member.now)) }
{
    match member {
        Member::Field(decl) => field(first, decl),
        Member::Method(decl) => method(decl),
    }
}

/// The field that began the declaration of which the next member may be a further field.
fn first_behind<'a>(first: Option<&'a LocalDecl>, member: &'a Member) -> Option<&'a LocalDecl>
    ensures { option_map (λ first. first.now) result ≡ joint.first_behind (option_map (λ first. first.now) first.entry) member.now }
{
    match member {
        Member::Method(_) => None,
        Member::Field(decl) => match first {
            None => Some(decl),
            Some(begun) => {
                if is_further(first, decl) {
                    return Some(begun);
                }
                Some(decl)
            }
        },
    }
}

fn members(members: &[Member]) -> Option<Passed>
    ensures { option_map shown result ≡ spec.past_claims (spec.member_annots (joint.members members.now)) }
{
    let mut first = None;
    for each in members {
        if let Some(passed) = member(first, each) {
            return Some(passed);
        }
        first = first_behind(first, each);
    }
    None
}

/// The first annotation with which a declaration has too many claims.
pub fn claims_passed(classes: &[ClassDecl]) -> Option<Passed>
    ensures { option_map shown result ≡ spec.past_claims (spec.all_annots classes.now) }
{
    for class in classes {
        if let Some(passed) = members(class.members.as_slice()) {
            return Some(passed);
        }
    }
    None
}
