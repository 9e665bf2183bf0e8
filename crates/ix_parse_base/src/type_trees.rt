//! Types (JLS 4.1 to 4.3, 10.1).
ghost use Rattle.std.specs.Prelude.{◌≡◌, ◌≤◌, ◌+◌, length, OnOk, IfOk};
ghost use Rattle.ix_tree.specs.declared.annot.BaseTree.TheVariants.{Named};
ghost use Rattle.ix_grammar_rules.specs.Rule.{run};
ghost use Rattle.ix_grammar_rules.specs.Taking.{Follows};
ghost use Rattle.ix_grammar.specs.TypeGrammar.{base_height as the_height, array_of as the_array, based as the_base, plain_type as the_plain};
ghost use Rattle.ix_grammar_rules.specs.TypeRules as spec;

use crate::annotations::{annots_behind, no_notes};
use crate::cursor::Cursor;
use ix_grammar::found::{At, FoundType, Notes};
use ix_grammar::spans::{across, base_height};
use ix_grammar_rules::stop::Stop;
use ix_lexer::fixed::{AT, BOOLEAN, CLOSE_BRACKET, INT, OPEN_BRACKET};
use ix_text::{List, Span};
use ix_tree::{BaseTree, Ident, TypeTree};
use std::alloc::Global;

/// A type that is no array.
pub fn plain_type(alloc: Global, base: At<BaseTree>) -> FoundType
    ensures { result ≡ the_plain base }
{
    let height = 1 + base_height(&base.value);
    FoundType {
        ty: TypeTree {
            base: base.value,
            annots: List::new(alloc),
            depth: 0,
            span: base.span,
        },
        height,
    }
}

/// An array of a base, as far as its last bracket.
pub fn array_of(base: At<BaseTree>, notes: Notes, brackets: At<u32>) -> FoundType
    requires low { notes.height ≤ 3 }
    ensures { result ≡ the_array base notes brackets }
{
    let height = 1 + base_height(&base.value).max(notes.height);
    FoundType {
        ty: TypeTree {
            base: base.value,
            annots: notes.annots,
            depth: brackets.value,
            span: across(base.span, brackets.span),
        },
        height,
    }
}

/// `{"[" "]"}`, behind one pair, of which the last bracket stands there.
#[tactic(auto, unfolding(ix_grammar_rules::specs::Rule::run, ix_grammar_rules::specs::TypeRules::next_pair, ix_grammar_rules::specs::TypeRules::pairs))]
pub fn pairs(cursor: &mut Cursor<'_>, last: Span) -> Result<At<u32>, Stop>
    requires few { length cursor.old ≤ 200000 }
    ensures { record {
      reads : Follows (run (spec.pairs 1 last) cursor.old) result cursor.new;
      no_longer : OnOk result (length cursor.new ≤ length cursor.old);
    } }
{
    let mut found = At {
        value: 1,
        span: last,
    };
    'reading: while let Some(_left) = cursor.sign(OPEN_BRACKET) {
        cursor.advance();
        let right = cursor.take_sign(CLOSE_BRACKET)?;
        found = At {
            value: found.value + 1,
            span: right,
        };
    }
    Ok(found)
}

/// `"]" {"[" "]"}`, behind the first bracket
#[tactic(auto, unfolding(ix_grammar_rules::specs::Rule::run, ix_grammar_rules::specs::TypeRules::brackets))]
fn brackets(
    cursor: &mut Cursor<'_>,
    left: u32,
    base: At<BaseTree>,
    notes: Notes,
) -> Result<FoundType, Stop>
    requires { record {
      few : length cursor.old ≤ 200000;
      low : notes.height ≤ 3;
      room : 1 + notes.height ≤ left;
      base : 1 + the_height base.value ≤ left;
    } }
    ensures { record {
      reads : Follows (run (spec.brackets base notes) cursor.old) result cursor.new;
      no_longer : OnOk result (length cursor.new ≤ length cursor.old);
      tall : IfOk result (λ found. 1 ≤ found.height);
      low : IfOk result (λ found. found.height ≤ 4);
      fits : IfOk result (λ found. found.height ≤ left);
    } }
{
    let right = cursor.take_sign(CLOSE_BRACKET)?;
    let found = pairs(cursor, right)?;
    Ok(array_of(base, notes, found))
}

/// Behind an `@` that follows a base: the rest of an annotated array of a height of at most `left`.
#[tactic(auto, unfolding(ix_grammar_rules::specs::Rule::run, ix_grammar_rules::specs::TypeRules::noted_array))]
pub fn noted_array(
    alloc: Global,
    cursor: &mut Cursor<'_>,
    left: u32,
    base: At<BaseTree>,
    at: Span,
) -> Result<FoundType, Stop>
    requires { record {
      few : length cursor.old ≤ 200000;
      room : 3 ≤ left;
    } }
    ensures { record {
      reads : Follows (run (spec.noted_array left base at) cursor.old) result cursor.new;
      no_longer : OnOk result (length cursor.new ≤ length cursor.old);
      tall : IfOk result (λ found. 1 ≤ found.height);
      low : IfOk result (λ found. found.height ≤ 4);
      fits : IfOk result (λ found. found.height ≤ left);
    } }
{
    let notes = annots_behind(alloc, cursor, left - 1, at)?;
    cursor.take_sign(OPEN_BRACKET)?;
    brackets(cursor, left, base, notes)
}

/// Behind a base: nothing, or the rest of an array of a height of at most `left`.
#[tactic(auto, unfolding(ix_grammar_rules::specs::Rule::run, ix_grammar_rules::specs::TypeRules::type_rest))]
pub fn type_rest(
    alloc: Global,
    cursor: &mut Cursor<'_>,
    left: u32,
    base: At<BaseTree>,
) -> Result<FoundType, Stop>
    requires { record {
      few : length cursor.old ≤ 200000;
      room : 1 + the_height base.value ≤ left;
    } }
    ensures { record {
      reads : Follows (run (spec.type_rest left base) cursor.old) result cursor.new;
      no_longer : OnOk result (length cursor.new ≤ length cursor.old);
      tall : IfOk result (λ found. 1 ≤ found.height);
      low : IfOk result (λ found. found.height ≤ 4);
      fits : IfOk result (λ found. found.height ≤ left);
    } }
{
    if let Some(_opening) = cursor.sign(OPEN_BRACKET) {
        cursor.advance();
        return brackets(cursor, left, base, no_notes(alloc));
    }
    if let Some(at) = cursor.sign(AT) {
        if left < 3 {
            return Err(Stop::TooDeep);
        }
        cursor.advance();
        return noted_array(alloc, cursor, left, base, at);
    }
    Ok(plain_type(alloc, base))
}

/// A type of a height of at most `left`.
#[tactic(auto, unfolding(ix_grammar_rules::specs::Rule::run, ix_grammar_rules::specs::TypeRules::type_tree))]
pub fn type_tree(alloc: Global, cursor: &mut Cursor<'_>, left: u32) -> Result<FoundType, Stop>
    requires few { length cursor.old ≤ 200000 }
    ensures { record {
      reads : Follows (run (spec.type_tree left) cursor.old) result cursor.new;
      no_longer : OnOk result (length cursor.new ≤ length cursor.old);
      tall : IfOk result (λ found. 1 ≤ found.height);
      low : IfOk result (λ found. found.height ≤ 4);
      fits : IfOk result (λ found. found.height ≤ left);
    } }
{
    if let Some(span) = cursor.sign(INT) {
        if left < 1 {
            return Err(Stop::TooDeep);
        }
        cursor.advance();
        return type_rest(alloc, cursor, left, based(BaseTree::Int, span));
    }
    if let Some(span) = cursor.sign(BOOLEAN) {
        if left < 1 {
            return Err(Stop::TooDeep);
        }
        cursor.advance();
        return type_rest(alloc, cursor, left, based(BaseTree::Boolean, span));
    }
    let Some(name) = cursor.name(alloc)? else {
        return Err(Stop::Syntax);
    };
    if left < 2 {
        return Err(Stop::TooDeep);
    }
    cursor.advance();
    type_rest(alloc, cursor, left, named_base(name))
}

/// What a type stands on, with its place.
pub fn based(value: BaseTree, span: Span) -> At<BaseTree>
    ensures { result ≡ the_base value span }
{
    At { value, span }
}

/// A type's name.
pub fn named_base(name: Ident) -> At<BaseTree>
    ensures { result ≡ the_base (Named name) name.span }
{
    let span = name.span;
    based(BaseTree::Named(name), span)
}
