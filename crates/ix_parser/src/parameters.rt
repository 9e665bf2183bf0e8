//! Parameters and what a method throws (JLS 8.4.1, 8.4.6).
ghost use Rattle.std.specs.Prelude.{◌≡◌, ◌≤◌, length, OnOk, IfOk, MatchResult};
ghost use Rattle.ix_grammar_rules.specs.declared.stop.Stop.TheVariants.{Memory};
ghost use Rattle.ix_grammar.specs.DeclGrammar as nodes;
ghost use Rattle.ix_grammar_rules.specs.DeclRules as spec;
ghost use Rattle.ix_grammar_rules.specs.ListRules.{more_of};
ghost use Rattle.ix_grammar_rules.specs.Rule.{run};
ghost use Rattle.ix_grammar_rules.specs.Taking.{Follows};

use ix_grammar::declarations::{FoundDecl, FoundMods, Params};
use ix_grammar::found::FoundType;
use ix_grammar_rules::aims::Words;
use ix_grammar_rules::stop::Stop;
use ix_lexer::fixed::{CLOSE_PAREN, COMMA, THROWS};
use ix_parse_base::cursor::Cursor;
use ix_parse_base::modifiers::mods;
use ix_parse_base::type_trees::type_tree;
use ix_parse_statements::declarators::{plain_decl, shared};
use ix_text::List;
use ix_tree::Ident;
use std::alloc::Global;

/// A parameter.
fn one_decl(
    alloc: Global,
    found: &FoundMods,
    ty: &FoundType,
    name: Ident,
) -> Result<FoundDecl, Stop>
    requires { record {
      low : found.now.height ≤ 3;
      typed : ty.now.height ≤ 4;
    } }
    ensures { MatchResult result (λ decl. decl ≡ nodes.plain_decl (nodes.shared found.now ty.now) name) (λ stop. stop ≡ Memory) }
{
    let all = shared(alloc, found, ty)?;
    plain_decl(&all, name)
}

/// `Param = {"final" | Annot} Type Ident`
#[tactic(auto, unfolding(ix_grammar_rules::specs::Rule::run, ix_grammar_rules::specs::DeclRules::param))]
fn param(alloc: Global, cursor: &mut Cursor<'_>, left: u32) -> Result<FoundDecl, Stop>
    requires { record {
      few : length cursor.old ≤ 200000;
      room : 1 ≤ left;
    } }
    ensures { record {
      reads : Follows (run (spec.param left) cursor.old) result cursor.new;
      no_longer : OnOk result (length cursor.new ≤ length cursor.old);
      low : IfOk result (λ found. found.height ≤ 5);
      fits : IfOk result (λ found. found.height ≤ left);
    } }
{
    let found = mods(alloc, cursor, Words::Local, left - 1)?;
    let ty = type_tree(alloc, cursor, left - 1)?;
    let name = cursor.take_name(alloc)?;
    one_decl(alloc, &found, &ty, name)
}

/// No parameter.
fn no_params(alloc: Global) -> Params
    ensures { result ≡ nodes.no_params }
{
    Params {
        params: List::new(alloc),
        height: 0,
    }
}

/// The first of several parameters.
fn one_param(alloc: Global, found: FoundDecl) -> Result<Params, Stop>
    ensures { MatchResult result (λ params. params ≡ nodes.one_param found) (λ stop. stop ≡ Memory) }
{
    let mut params = List::new(alloc);
    params.push(found.decl)?;
    Ok(Params {
        params,
        height: found.height,
    })
}

/// Parameters with one more.
fn with_param(mut before: Params, found: FoundDecl) -> Result<Params, Stop>
    ensures { MatchResult result (λ params. params ≡ nodes.with_param before found) (λ stop. stop ≡ Memory) }
{
    before.params.push(found.decl)?;
    Ok(Params {
        params: before.params,
        height: before.height.max(found.height),
    })
}

/// `{"," Param}`, behind the first one
#[tactic(auto, unfolding(ix_grammar_rules::specs::Rule::run, ix_grammar_rules::specs::ListRules::next_of, ix_grammar_rules::specs::ListRules::more_of))]
fn more_params(
    alloc: Global,
    cursor: &mut Cursor<'_>,
    left: u32,
    first: FoundDecl,
) -> Result<Params, Stop>
    requires { record {
      few : length cursor.old ≤ 200000;
      room : 1 ≤ left;
      low : first.height ≤ 5;
      first : first.height ≤ left;
    } }
    ensures { record {
      reads : Follows (run (more_of (spec.param left) nodes.with_param (nodes.one_param first)) cursor.old) result cursor.new;
      no_longer : OnOk result (length cursor.new ≤ length cursor.old);
      low : IfOk result (λ found. found.height ≤ 5);
      fits : IfOk result (λ found. found.height ≤ left);
    } }
{
    let mut found = one_param(alloc, first)?;
    'reading: while let Some(_comma) = cursor.sign(COMMA) {
        cursor.advance();
        let next = param(alloc, cursor, left)?;
        found = with_param(found, next)?;
    }
    Ok(found)
}

/// `Param {"," Param}`
#[tactic(auto, unfolding(ix_grammar_rules::specs::Rule::run, ix_grammar_rules::specs::DeclRules::some_params))]
fn some_params(alloc: Global, cursor: &mut Cursor<'_>, left: u32) -> Result<Params, Stop>
    requires { record {
      few : length cursor.old ≤ 200000;
      room : 1 ≤ left;
    } }
    ensures { record {
      reads : Follows (run (spec.some_params left) cursor.old) result cursor.new;
      no_longer : OnOk result (length cursor.new ≤ length cursor.old);
      low : IfOk result (λ found. found.height ≤ 5);
      fits : IfOk result (λ found. found.height ≤ left);
    } }
{
    let first = param(alloc, cursor, left)?;
    more_params(alloc, cursor, left, first)
}

/// `[Param {"," Param}] ")"`, behind the opening parenthesis
#[tactic(auto, unfolding(ix_grammar_rules::specs::Rule::run, ix_grammar_rules::specs::DeclRules::params))]
pub fn params(alloc: Global, cursor: &mut Cursor<'_>, left: u32) -> Result<Params, Stop>
    requires { record {
      few : length cursor.old ≤ 200000;
      room : 1 ≤ left;
    } }
    ensures { record {
      reads : Follows (run (spec.params left) cursor.old) result cursor.new;
      no_longer : OnOk result (length cursor.new ≤ length cursor.old);
      low : IfOk result (λ found. found.height ≤ 5);
      fits : IfOk result (λ found. found.height ≤ left);
    } }
{
    if let Some(_right) = cursor.sign(CLOSE_PAREN) {
        cursor.advance();
        return Ok(no_params(alloc));
    }
    let found = some_params(alloc, cursor, left)?;
    cursor.take_sign(CLOSE_PAREN)?;
    Ok(found)
}

/// `{"," Ident}`, behind the first name of what a method throws
#[tactic(auto, unfolding(ix_grammar_rules::specs::Rule::run, ix_grammar_rules::specs::DeclRules::a_thrown, ix_grammar_rules::specs::ListRules::next_of, ix_grammar_rules::specs::ListRules::more_of))]
fn more_thrown(alloc: Global, cursor: &mut Cursor<'_>) -> Result<(), Stop>
    ensures { record {
      reads : Follows (run (more_of spec.a_thrown nodes.nothing_more tt) cursor.old) result cursor.new;
      no_longer : OnOk result (length cursor.new ≤ length cursor.old);
    } }
{
    'reading: while let Some(_comma) = cursor.sign(COMMA) {
        cursor.advance();
        cursor.take_name(alloc)?;
    }
    Ok(())
}

/// `Throws = ["throws" Ident {"," Ident}]`
#[tactic(auto, unfolding(ix_grammar_rules::specs::Rule::run, ix_grammar_rules::specs::DeclRules::throws))]
pub fn throws(alloc: Global, cursor: &mut Cursor<'_>) -> Result<(), Stop>
    ensures { record {
      reads : Follows (run spec.throws cursor.old) result cursor.new;
      no_longer : OnOk result (length cursor.new ≤ length cursor.old);
    } }
{
    let Some(_throws) = cursor.sign(THROWS) else {
        return Ok(());
    };
    cursor.advance();
    cursor.take_name(alloc)?;
    more_thrown(alloc, cursor)
}
