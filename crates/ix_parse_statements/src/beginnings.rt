//! What statements begin with that have no word of their own: an expression, or a declaration of locals (JLS 14.4, 14.8).
ghost use Rattle.std.specs.Prelude.{◌≤◌, ◌<◌, ◌+◌, ◌-◌, nat_le, true, length, OnOk, IfOk};
ghost use Rattle.ix_tree.specs.declared.annot.BaseTree.TheVariants.{Named};
ghost use Rattle.ix_grammar.specs.AnnotGrammar.{no_notes as no_annots};
ghost use Rattle.ix_grammar.specs.DeclGrammar.{no_mods as none};
ghost use Rattle.ix_grammar_rules.specs.ExprRules.{below, inner};
ghost use Rattle.ix_grammar_rules.specs.ReadingStatements.{begun_fits};
ghost use Rattle.ix_grammar.specs.Patterns.{a_sign};
ghost use Rattle.ix_grammar_rules.specs.Rule.{run, bind, take};
ghost use Rattle.ix_grammar_rules.specs.StmtRules as spec;
ghost use Rattle.ix_grammar_rules.specs.Taking.{Follows};
ghost use Rattle.ix_grammar.specs.TypeGrammar.{based, array_of as the_array};
ghost use Rattle.ix_grammar_rules.specs.TypeRules.{pairs as the_pairs};

use crate::high_variables::behind_high_name;
use crate::locals::{declared, named_type};
use ix_grammar::found::Found;
use ix_grammar_rules::begun::Begun;
use ix_grammar_rules::stop::Stop;
use ix_lexer::fixed::{AT, CLOSE_BRACKET, OPEN_BRACKET};
use ix_parse_base::annotations::no_notes;
use ix_parse_base::cursor::Cursor;
use ix_parse_base::modifiers::no_mods;
use ix_parse_base::nodes::{element, named};
use ix_parse_base::type_trees::{array_of, named_base, noted_array, pairs, plain_type};
use ix_parse_expressions::expressions::{
    expr, statement_chain, statement_field, statement_name, to_statement,
};
use ix_tree::Ident;
use std::alloc::Global;

/// The rest of an expression, behind its first part
#[tactic(auto, unfolding(ix_grammar_rules::specs::Rule::run, ix_grammar_rules::specs::StmtRules::chain))]
fn chain(alloc: Global, cursor: &mut Cursor<'_>, left: u32, first: Found) -> Result<Begun, Stop>
    requires { record {
      few : length cursor.old ≤ 200000;
      some : 0 < first.height;
      room : first.height + 1 ≤ left;
    } }
    ensures { record {
      reads : Follows (run (spec.chain left first) cursor.old) result cursor.new;
      no_longer : OnOk result (length cursor.new ≤ length cursor.old);
      fits : IfOk result (λ begun. begun_fits left begun);
    } }
{
    let found = statement_chain(alloc, cursor, left - 1, first)?;
    let found = to_statement(alloc, cursor, left - 1, found)?;
    Ok(Begun::Run(found))
}

/// The rest of an expression, behind an expression, a dot and a name
#[tactic(auto, using(crate::proofs::HighVariables::field_high), unfolding(ix_grammar_rules::specs::Rule::run, ix_grammar_rules::specs::StmtRules::field, ix_grammar_rules::specs::StmtRules::go_on))]
pub fn field(
    alloc: Global,
    cursor: &mut Cursor<'_>,
    left: u32,
    object: Found,
    name: Ident,
) -> Result<Begun, Stop>
    requires { record {
      few : length cursor.old ≤ 200000;
      some : 0 < object.height;
      low : object.height ≤ 3;
    } }
    ensures { record {
      reads : Follows (run (spec.field left object name) cursor.old) result cursor.new;
      no_longer : OnOk result (length cursor.new ≤ length cursor.old);
      fits : IfOk result (λ begun. begun_fits left begun);
    } }
{
    if left < object.height + 2 {
        return Err(behind_high_name(cursor));
    }
    let found = statement_field(alloc, cursor, left - 1, object, name)?;
    chain(alloc, cursor, left, found)
}

/// The rest of an expression, behind the name that it begins with
#[tactic(auto, using(crate::proofs::HighVariables::run_named_high), unfolding(ix_grammar_rules::specs::Rule::run, ix_grammar_rules::specs::StmtRules::run_named))]
fn run_named(alloc: Global, cursor: &mut Cursor<'_>, left: u32, name: Ident) -> Result<Begun, Stop>
    requires few { length cursor.old ≤ 200000 }
    ensures { record {
      reads : Follows (run (spec.run_named left name) cursor.old) result cursor.new;
      no_longer : OnOk result (length cursor.new ≤ length cursor.old);
      fits : IfOk result (λ begun. begun_fits left begun);
    } }
{
    if left < 3 {
        return Err(behind_high_name(cursor));
    }
    let found = statement_name(alloc, cursor, left - 1, name)?;
    chain(alloc, cursor, left, found)
}

/// The index behind a name and a bracket, where a type would have the other bracket. An assignment to an element is 1 higher than the
/// declaration that a type begins.
#[tactic(auto, using(crate::proofs::LowExpressions::index_parts))]
fn index(alloc: Global, cursor: &mut Cursor<'_>, left: u32) -> Result<Found, Stop>
    requires few { length cursor.old ≤ 200000 }
    ensures reads { Follows (run (spec.guarded (nat_le 5 left) (inner (below (left - 1)) 1)) cursor.old) result cursor.new }
    ensures no_longer { OnOk result (length cursor.new ≤ length cursor.old) }
    ensures room { IfOk result (λ f. 5 ≤ left) }
    ensures fits { IfOk result (λ f. f.height + 3 ≤ left) }
{
    if left < 5 {
        return expr(alloc, cursor, 0);
    }
    expr(alloc, cursor, left - 3)
}

/// `Expr "]"` and the rest of an expression, behind a name and a bracket
#[tactic(auto, unfolding(ix_grammar_rules::specs::Rule::run, ix_grammar_rules::specs::StmtRules::indexed))]
fn indexed(alloc: Global, cursor: &mut Cursor<'_>, left: u32, name: Ident) -> Result<Begun, Stop>
    requires few { length cursor.old ≤ 200000 }
    ensures { record {
      reads : Follows (run (spec.indexed left name) cursor.old) result cursor.new;
      no_longer : OnOk result (length cursor.new ≤ length cursor.old);
      fits : IfOk result (λ begun. begun_fits left begun);
    } }
{
    let index = index(alloc, cursor, left)?;
    let right = cursor.take_sign(CLOSE_BRACKET)?;
    let first = element(alloc, left, named(alloc, name)?, index, right)?;
    chain(alloc, cursor, left, first)
}

/// Behind a name and a bracket: the other bracket of a type, or an index.
#[tactic(auto, unfolding(ix_grammar_rules::specs::Rule::run))]
fn bracketed(alloc: Global, cursor: &mut Cursor<'_>, left: u32, name: Ident) -> Result<Begun, Stop>
    requires { record {
      few : length cursor.old ≤ 200000;
      room : 4 ≤ left;
    } }
    ensures { record {
      reads : Follows (run (take (a_sign CLOSE_BRACKET) true (λ right. bind (the_pairs 1 right) (λ brackets. spec.named_type left none (the_array (based (Named name) name.span) no_annots brackets))) (spec.indexed left name)) cursor.old) result cursor.new;
      no_longer : OnOk result (length cursor.new ≤ length cursor.old);
      fits : IfOk result (λ begun. begun_fits left begun);
    } }
{
    let Some(right) = cursor.sign(CLOSE_BRACKET) else {
        return indexed(alloc, cursor, left, name);
    };
    cursor.advance();
    let brackets = pairs(cursor, right)?;
    let ty = array_of(named_base(name), no_notes(alloc), brackets);
    named_type(alloc, cursor, left, no_mods(alloc), ty)
}

/// Behind a name that begins a type or an expression, where locals may be declared, or an expression.
#[tactic(auto, unfolding(ix_grammar_rules::specs::Rule::run, ix_grammar_rules::specs::StmtRules::named_first))]
pub fn named_first(
    alloc: Global,
    cursor: &mut Cursor<'_>,
    left: u32,
    locals: bool,
    name: Ident,
) -> Result<Begun, Stop>
    requires few { length cursor.old ≤ 200000 }
    ensures { record {
      reads : Follows (run (spec.named_first locals left name) cursor.old) result cursor.new;
      no_longer : OnOk result (length cursor.new ≤ length cursor.old);
      fits : IfOk result (λ begun. begun_fits left begun);
    } }
{
    if !locals {
        return run_named(alloc, cursor, left, name);
    }
    if let Some(_opening) = cursor.sign(OPEN_BRACKET) {
        if left < 4 {
            return Err(Stop::TooDeep);
        }
        cursor.advance();
        return bracketed(alloc, cursor, left, name);
    }
    if let Some(at) = cursor.sign(AT) {
        if left < 5 {
            return Err(Stop::TooDeep);
        }
        cursor.advance();
        let ty = noted_array(alloc, cursor, left - 2, named_base(name), at)?;
        return named_type(alloc, cursor, left, no_mods(alloc), ty);
    }
    let Some(variable) = cursor.name(alloc)? else {
        return run_named(alloc, cursor, left, name);
    };
    if left < 4 {
        return Err(Stop::TooDeep);
    }
    cursor.advance();
    let ty = plain_type(alloc, named_base(name));
    declared(alloc, cursor, left, no_mods(alloc), ty, variable)
}
