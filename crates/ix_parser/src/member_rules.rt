//! Members of a class (JLS 8.3, 8.4, 8.8), each read onto those before it.
ghost use Rattle.std.specs.Prelude.{◌≡◌, ◌≤◌, ◌<◌, ◌+◌, length, OnOk, IfOk, MatchResult, [], ◌∷◌};
ghost use Rattle.ix_tree.specs.declared.decl.Member.TheVariants.{Method};
ghost use Rattle.ix_grammar_rules.specs.declared.stop.Stop.TheVariants.{Memory};
ghost use Rattle.ix_grammar.specs.ClassGrammar as nodes;
ghost use Rattle.ix_grammar_rules.specs.ClassRules as spec;
ghost use Rattle.ix_grammar.specs.DeclGrammar.{begins as the_begin, shared as the_shared};
ghost use Rattle.ix_grammar_rules.specs.DeclRules.{decl, decl_behind as the_decl};
ghost use Rattle.ix_grammar_rules.specs.ExprRules.{init as the_init};
ghost use Rattle.ix_grammar_rules.specs.ListRules.{more_of};
ghost use Rattle.ix_grammar_rules.specs.Onto as onto;
ghost use Rattle.ix_grammar_rules.specs.Reading.{GoesOn};
ghost use Rattle.ix_grammar_rules.specs.Rule.{run, bind};
ghost use Rattle.ix_grammar_rules.specs.SourceRules.{parts};
ghost use Rattle.ix_grammar_rules.specs.Taking.{Follows};

use crate::bodies::body;
use crate::parameters::{params, throws};
use ix_grammar::classes::{Behind, Head, Members};
use ix_grammar::declarations::{FoundDecl, FoundMods, Shared};
use ix_grammar::found::FoundType;
use ix_grammar::spans::across;
use ix_grammar_rules::aims::Words;
use ix_grammar_rules::stop::Stop;
use ix_lexer::fixed::{COMMA, OPEN_BRACE, OPEN_PAREN, SEMICOLON, VOID};
use ix_parse_base::cursor::Cursor;
use ix_parse_base::modifiers::mods;
use ix_parse_base::type_trees::{named_base, type_rest, type_tree};
use ix_parse_statements::declarators::{decl_behind, shared};
use ix_text::Span;
use ix_tree::{Ident, Member, MethodDecl, TypeTree};
use std::alloc::Global;

/// Where something begins that modifiers may stand before, of which the first stands there.
pub fn begins(first: Option<Span>, span: Span) -> Span
    ensures { result ≡ the_begin first span }
{
    match first {
        Some(first) => first,
        None => span,
    }
}

/// The height of the type of a result, 0 where there is none.
fn result_height(ty: &Option<FoundType>) -> u32
    ensures { result ≡ nodes.result_height ty.now }
{
    match ty {
        Some(ty) => ty.height,
        None => 0,
    }
}

/// The type of a result.
fn result_tree(ty: Option<FoundType>) -> Option<TypeTree>
    ensures { result ≡ nodes.result_tree ty }
{
    match ty {
        Some(ty) => Some(ty.ty),
        None => None,
    }
}

/// The height of a method.
fn method_height(head: &Head, rest: &Behind, left: u32) -> u32
    requires { record {
      room : 2 ≤ left;
      mods : head.now.mods.height + 1 ≤ left;
      typed : nodes.result_height head.now.result + 1 ≤ left;
      params : rest.now.params.height + 1 ≤ left;
      body : rest.now.body.height + 1 ≤ left;
    } }
    ensures { result ≡ (nodes.method_of head.now.start head.now.mods head.now.result head.now.constructor head.now.name rest.now).height }
{
    let before = head.mods.height.max(result_height(&head.result)).max(1);
    1 + before.max(rest.params.height.max(rest.body.height))
}

/// A method or a constructor.
fn method_decl(head: Head, rest: Behind) -> MethodDecl
    ensures { Method result ∷ [] ≡ (nodes.method_of head.start head.mods head.result head.constructor head.name rest).members }
{
    let params = rest.params;
    let body = rest.body;
    let mods = head.mods;
    let span = across(head.start, body.end);
    MethodDecl {
        mods: mods.mods,
        result: result_tree(head.result),
        constructor: head.constructor,
        name: head.name,
        params: params.params,
        parent_args: body.parent_args,
        body: body.stmts,
        span,
    }
}

/// Members with a method or a constructor behind them.
fn with_method(mut before: Members, left: u32, head: Head, rest: Behind) -> Result<Members, Stop>
    requires { record {
      room : 2 ≤ left;
      mods : head.mods.height + 1 ≤ left;
      typed : nodes.result_height head.result + 1 ≤ left;
      params : rest.params.height + 1 ≤ left;
      body : rest.body.height + 1 ≤ left;
    } }
    ensures { MatchResult result (λ found. found ≡ nodes.with_members before (nodes.method_of head.start head.mods head.result head.constructor head.name rest)) (λ stop. stop ≡ Memory) }
{
    let height = before.height.max(method_height(&head, &rest, left));
    before
        .members
        .push(Member::Method(method_decl(head, rest)))?;
    Ok(Members {
        members: before.members,
        height,
    })
}

/// `Params Throws Body`, behind the opening parenthesis
#[tactic(auto, unfolding(ix_grammar_rules::specs::Rule::run, ix_grammar_rules::specs::ClassRules::behind))]
fn behind(
    alloc: Global,
    cursor: &mut Cursor<'_>,
    left: u32,
    constructor: bool,
) -> Result<Behind, Stop>
    requires few { length cursor.old ≤ 200000 }
    requires room { 2 ≤ left }
    ensures { record {
      reads : Follows (run (spec.behind parts left constructor) cursor.old) result cursor.new;
      no_longer : OnOk result (length cursor.new ≤ length cursor.old);
      params : IfOk result (λ rest. rest.params.height + 1 ≤ left);
      body : IfOk result (λ rest. rest.body.height + 1 ≤ left);
    } }
{
    let params = params(alloc, cursor, left - 1)?;
    throws(alloc, cursor)?;
    cursor.take_sign(OPEN_BRACE)?;
    let body = body(alloc, cursor, left - 1, constructor)?;
    Ok(Behind { params, body })
}

/// `Params Throws Body`, behind what stands before it
#[tactic(auto, unfolding(ix_grammar_rules::specs::Rule::run, ix_grammar_rules::specs::ClassRules::method, ix_grammar_rules::specs::Onto::onto))]
fn method(
    alloc: Global,
    cursor: &mut Cursor<'_>,
    left: u32,
    head: Head,
    before: Members,
) -> Result<Members, Stop>
    requires { record {
      few : length cursor.old ≤ 200000;
      room : 2 ≤ left;
      mods : head.mods.height + 1 ≤ left;
      typed : nodes.result_height head.result + 1 ≤ left;
      fits : before.height ≤ left;
    } }
    ensures { record {
      reads : GoesOn (run (onto.onto before (spec.method parts left head.start head.mods head.result head.constructor head.name)) cursor.old) result cursor.new;
      no_longer : OnOk result (length cursor.new ≤ length cursor.old);
      fits : IfOk result (λ found. found.height ≤ left);
    } }
{
    let rest = behind(alloc, cursor, left, head.constructor)?;
    with_method(before, left, head, rest)
}

/// Members with a field behind them.
fn with_field(mut before: Members, found: FoundDecl) -> Result<Members, Stop>
    ensures { MatchResult result (λ members. members ≡ onto.with_field before found) (λ stop. stop ≡ Memory) }
{
    before.members.push(Member::Field(found.decl))?;
    Ok(Members {
        members: before.members,
        height: before.height.max(found.height),
    })
}

/// `{"," Decl}`, behind the first field
#[tactic(auto, unfolding(ix_grammar_rules::specs::Rule::run, ix_grammar_rules::specs::DeclRules::decl, ix_grammar_rules::specs::ListRules::next_of, ix_grammar_rules::specs::ListRules::more_of))]
fn more_fields(
    alloc: Global,
    cursor: &mut Cursor<'_>,
    left: u32,
    all: &Shared,
    before: Members,
) -> Result<Members, Stop>
    requires { record {
      few : length cursor.old ≤ 200000;
      low : all.now.height ≤ 4;
      room : all.now.height + 1 ≤ left;
      fits : before.height ≤ left;
    } }
    ensures { record {
      reads : Follows (run (more_of (decl the_init left all.now) onto.with_field before) cursor.old) result cursor.new;
      no_longer : OnOk result (length cursor.new ≤ length cursor.old);
      fits : IfOk result (λ found. found.height ≤ left);
    } }
{
    let mut found = before;
    'reading: while let Some(_comma) = cursor.sign(COMMA) {
        cursor.advance();
        let name = cursor.take_name(alloc)?;
        let next = decl_behind(alloc, cursor, left, all, name)?;
        found = with_field(found, next)?;
    }
    Ok(found)
}

/// `Decl {"," Decl}`, behind the first name, each field put onto the members before it
#[tactic(auto, unfolding(ix_grammar_rules::specs::Rule::run))]
fn some_fields(
    alloc: Global,
    cursor: &mut Cursor<'_>,
    left: u32,
    all: &Shared,
    name: Ident,
    before: Members,
) -> Result<Members, Stop>
    requires { record {
      few : length cursor.old ≤ 200000;
      low : all.now.height ≤ 4;
      room : all.now.height + 1 ≤ left;
      fits : before.height ≤ left;
    } }
    ensures { record {
      reads : Follows (run (bind (the_decl the_init left all.now name) (λ first. more_of (decl the_init left all.now) onto.with_field (onto.with_field before first))) cursor.old) result cursor.new;
      no_longer : OnOk result (length cursor.new ≤ length cursor.old);
      fits : IfOk result (λ found. found.height ≤ left);
    } }
{
    let first = decl_behind(alloc, cursor, left, all, name)?;
    let found = with_field(before, first)?;
    more_fields(alloc, cursor, left, all, found)
}

/// `Decls ";"`, behind the first name, each field put onto the members before it
#[tactic(auto, unfolding(ix_grammar_rules::specs::Rule::run, ix_grammar_rules::specs::Onto::each_field))]
fn each_field(
    alloc: Global,
    cursor: &mut Cursor<'_>,
    left: u32,
    all: &Shared,
    name: Ident,
    before: Members,
) -> Result<Members, Stop>
    requires { record {
      few : length cursor.old ≤ 200000;
      low : all.now.height ≤ 4;
      room : all.now.height + 1 ≤ left;
      fits : before.height ≤ left;
    } }
    ensures { record {
      reads : GoesOn (run (onto.each_field left all.now name before) cursor.old) result cursor.new;
      no_longer : OnOk result (length cursor.new ≤ length cursor.old);
      fits : IfOk result (λ found. found.height ≤ left);
    } }
{
    let found = some_fields(alloc, cursor, left, all, name, before)?;
    cursor.take_sign(SEMICOLON)?;
    Ok(found)
}

/// `Decls ";"`, behind the first name
pub fn fields(
    alloc: Global,
    cursor: &mut Cursor<'_>,
    left: u32,
    all: &Shared,
    name: Ident,
    before: Members,
) -> Result<Members, Stop>
    requires { record {
      few : length cursor.old ≤ 200000;
      low : all.now.height ≤ 4;
      room : all.now.height + 1 ≤ left;
      fits : before.height ≤ left;
    } }
    ensures reads { GoesOn (run (onto.onto before (onto.fields left all.now name)) cursor.old) result cursor.new }
    ensures no_longer { OnOk result (length cursor.new ≤ length cursor.old) }
    ensures fits { IfOk result (λ found. found.height ≤ left) }
{
    each_field(alloc, cursor, left, all, name, before)
}

/// A declaration of fields, behind its first name
#[tactic(auto, unfolding(ix_grammar_rules::specs::Rule::run))]
fn field_member(
    alloc: Global,
    cursor: &mut Cursor<'_>,
    left: u32,
    found: &FoundMods,
    ty: &FoundType,
    name: Ident,
    before: Members,
) -> Result<Members, Stop>
    requires { record {
      few : length cursor.old ≤ 200000;
      low : found.now.height ≤ 3;
      typed : ty.now.height ≤ 4;
      room : 2 ≤ left;
      mods : found.now.height + 1 ≤ left;
      tree : ty.now.height + 1 ≤ left;
      fits : before.height ≤ left;
    } }
    ensures { record {
      reads : GoesOn (run (onto.onto before (onto.fields left (the_shared found.now ty.now) name)) cursor.old) result cursor.new;
      no_longer : OnOk result (length cursor.new ≤ length cursor.old);
      fits : IfOk result (λ found. found.height ≤ left);
    } }
{
    let all = shared(alloc, found, ty)?;
    fields(alloc, cursor, left, &all, name, before)
}

/// `Decls ";" | Ident Params Throws Block`, behind a type
#[tactic(auto, unfolding(ix_grammar_rules::specs::Rule::run, ix_grammar_rules::specs::ClassRules::typed_member, ix_grammar_rules::specs::Onto::onto, ix_grammar_rules::specs::Onto::fields))]
fn typed_member(
    alloc: Global,
    cursor: &mut Cursor<'_>,
    left: u32,
    found: FoundMods,
    ty: FoundType,
    before: Members,
) -> Result<Members, Stop>
    requires { record {
      few : length cursor.old ≤ 200000;
      low : found.height ≤ 3;
      typed : ty.height ≤ 4;
      room : 2 ≤ left;
      mods : found.height + 1 ≤ left;
      tree : ty.height + 1 ≤ left;
      fits : before.height ≤ left;
    } }
    ensures { record {
      reads : GoesOn (run (onto.onto before (spec.typed_member parts left found ty)) cursor.old) result cursor.new;
      shorter : OnOk result (length cursor.new < length cursor.old);
      fits : IfOk result (λ found. found.height ≤ left);
    } }
{
    let name = cursor.take_name(alloc)?;
    let Some(_opening) = cursor.sign(OPEN_PAREN) else {
        return field_member(alloc, cursor, left, &found, &ty, name, before);
    };
    cursor.advance();
    let head = Head {
        start: begins(found.first, ty.ty.span),
        mods: found,
        result: Some(ty),
        constructor: false,
        name,
    };
    method(alloc, cursor, left, head, before)
}

/// Behind modifiers and a name: the rest of a constructor, or of a member whose type begins with that name
#[tactic(auto, unfolding(ix_grammar_rules::specs::Rule::run, ix_grammar_rules::specs::ClassRules::named_member, ix_grammar_rules::specs::Onto::onto))]
fn named_member(
    alloc: Global,
    cursor: &mut Cursor<'_>,
    left: u32,
    found: FoundMods,
    first: Ident,
    before: Members,
) -> Result<Members, Stop>
    requires { record {
      few : length cursor.old ≤ 200000;
      low : found.height ≤ 3;
      room : 3 ≤ left;
      mods : found.height + 1 ≤ left;
      fits : before.height ≤ left;
    } }
    ensures { record {
      reads : GoesOn (run (onto.onto before (spec.named_member parts left found first)) cursor.old) result cursor.new;
      no_longer : OnOk result (length cursor.new ≤ length cursor.old);
      fits : IfOk result (λ found. found.height ≤ left);
    } }
{
    if let Some(_opening) = cursor.sign(OPEN_PAREN) {
        cursor.advance();
        let head = Head {
            start: begins(found.first, first.span),
            mods: found,
            result: None,
            constructor: true,
            name: first,
        };
        return method(alloc, cursor, left, head, before);
    }
    let ty = type_rest(alloc, cursor, left - 1, named_base(first))?;
    typed_member(alloc, cursor, left, found, ty, before)
}

/// `Ident Params Throws Block`, behind `void`
#[tactic(auto, unfolding(ix_grammar_rules::specs::Rule::run, ix_grammar_rules::specs::Onto::void_member, ix_grammar_rules::specs::Onto::onto))]
fn void_member(
    alloc: Global,
    cursor: &mut Cursor<'_>,
    left: u32,
    found: FoundMods,
    void: Span,
    before: Members,
) -> Result<Members, Stop>
    requires { record {
      few : length cursor.old ≤ 200000;
      low : found.height ≤ 3;
      room : 3 ≤ left;
      mods : found.height + 1 ≤ left;
      fits : before.height ≤ left;
    } }
    ensures { record {
      reads : GoesOn (run (onto.onto before (onto.void_member left found void)) cursor.old) result cursor.new;
      no_longer : OnOk result (length cursor.new ≤ length cursor.old);
      fits : IfOk result (λ found. found.height ≤ left);
    } }
{
    let name = cursor.take_name(alloc)?;
    cursor.take_sign(OPEN_PAREN)?;
    let head = Head {
        start: begins(found.first, void),
        mods: found,
        result: None,
        constructor: false,
        name,
    };
    method(alloc, cursor, left, head, before)
}

/// A member, behind its modifiers
#[tactic(auto, unfolding(ix_grammar_rules::specs::Rule::run, ix_grammar_rules::specs::ClassRules::member_behind, ix_grammar_rules::specs::Onto::void_member, ix_grammar_rules::specs::Onto::onto))]
fn member_behind(
    alloc: Global,
    cursor: &mut Cursor<'_>,
    left: u32,
    found: FoundMods,
    before: Members,
) -> Result<Members, Stop>
    requires { record {
      few : length cursor.old ≤ 200000;
      low : found.height ≤ 3;
      room : 3 ≤ left;
      mods : found.height + 1 ≤ left;
      fits : before.height ≤ left;
    } }
    ensures { record {
      reads : GoesOn (run (onto.onto before (spec.member_behind parts left found)) cursor.old) result cursor.new;
      shorter : OnOk result (length cursor.new < length cursor.old);
      fits : IfOk result (λ found. found.height ≤ left);
    } }
{
    if let Some(void) = cursor.sign(VOID) {
        cursor.advance();
        return void_member(alloc, cursor, left, found, void, before);
    }
    if let Some(name) = cursor.name(alloc)? {
        cursor.advance();
        return named_member(alloc, cursor, left, found, name, before);
    }
    let ty = type_tree(alloc, cursor, left - 1)?;
    typed_member(alloc, cursor, left, found, ty, before)
}

/// A member of a height of at most `left`, put onto those before it:
/// `Mods Type Decls ";" | Mods (Type | "void") Ident Params Throws Block | Mods Ident Params Throws "{" ["super" Args ";"] {BStmt} "}"`
#[tactic(auto, unfolding(ix_grammar_rules::specs::Rule::run, ix_grammar_rules::specs::ClassRules::member, ix_grammar_rules::specs::Onto::onto))]
pub fn member(
    alloc: Global,
    cursor: &mut Cursor<'_>,
    left: u32,
    before: Members,
) -> Result<Members, Stop>
    requires { record {
      few : length cursor.old ≤ 200000;
      room : 3 ≤ left;
      fits : before.height ≤ left;
    } }
    ensures { record {
      reads : GoesOn (run (onto.onto before (spec.member parts left)) cursor.old) result cursor.new;
      shorter : OnOk result (length cursor.new < length cursor.old);
      fits : IfOk result (λ found. found.height ≤ left);
    } }
{
    let found = mods(alloc, cursor, Words::Member, left - 1)?;
    member_behind(alloc, cursor, left, found, before)
}
