//! The guarded text of the bytes of a source.

ghost use Rattle.std.specs.Prelude.{◌≡◌, ◌≤◌, length, IfOk};
ghost use Rattle.ix_lexer.specs.Spans.{InOrder};
ghost use Rattle.ix_meaning.specs.Resolved.{Accepts};
ghost use Rattle.ix_tree.specs.Parts.{CanResolve};
ghost use Rattle.ix_guard_text.specs.Guarding.{HaveNamedTree, IsGuarded, IsNamed, guarded_by, tree_by};
ghost use Rattle.ix_guard_text.specs.Derived.{Derives};

use ix_core::Error;
use ix_grammar::error::ParseError;
use ix_guard::guard;
use ix_lexer::{LexError, Token, lex};
use ix_meaning::NameErrors;
use ix_names::resolve;
use ix_parser::parse;
use ix_tree::Unit;
use std::alloc::{AllocError, Global};

/// Why bytes that have tokens got none.
fn unlexed(why: LexError) -> AllocError
    requires { why ≡ LexError.Memory }
{
    match why {
        LexError::Memory => AllocError,
        _ => unreachable!(),
    }
}

/// Why tokens that have a tree got none.
fn unparsed(why: ParseError) -> AllocError
    requires { why ≡ ParseError.Memory }
{
    match why {
        ParseError::Memory => AllocError,
        _ => unreachable!(),
    }
}

/// Why names without errors got no table.
fn unresolved(why: NameErrors) -> AllocError
    requires { why ≡ NameErrors.Memory }
{
    match why {
        NameErrors::Memory => AllocError,
        _ => unreachable!(),
    }
}

/// The guarded text of bytes with this tree, whose names have no errors.
fn of_unit(
    alloc: Global,
    bytes: &[u8],
    unit: &Unit,
    errors: &[Error],
) -> Result<Vec<u8>, AllocError>
    requires resolvable { CanResolve unit.now }
    requires accepts { Accepts unit.now }
    ensures { IfOk result (λ text. text.items ≡ guarded_by bytes.now unit.now errors.now) }
{
    match resolve(alloc, unit) {
        Ok(table) => guard(alloc, bytes, unit, &table, errors),
        Err(why) => Err(unresolved(why)),
    }
}

/// The guarded text of bytes with these tokens, which have a tree whose names have no errors.
fn of_tokens(
    alloc: Global,
    bytes: &[u8],
    tokens: &[Token],
    errors: &[Error],
) -> Result<Vec<u8>, AllocError>
    requires short { length bytes.now ≤ 1048576 }
    requires few { length tokens.now ≤ 200000 }
    requires in_order { InOrder 0 (length bytes.now) tokens.now }
    requires tree { HaveNamedTree tokens.now }
    ensures { (tree : HaveNamedTree tokens.now) → IfOk result (λ text. text.items ≡ guarded_by bytes.now tree.source errors.now) }
{
    match parse(alloc, tokens, bytes.len() as u32) {
        Ok(unit) => of_unit(alloc, bytes, &unit, errors),
        Err(why) => Err(unparsed(why)),
    }
}

/// The guarded text of these bytes, which are a source whose names have no errors: it derives, up to places, their tree with the tests. The one error is want of memory.
pub fn guarded(alloc: Global, bytes: &[u8], errors: &[Error]) -> Result<Vec<u8>, AllocError>
    requires short { length bytes.now ≤ 1048576 }
    requires named { IsNamed bytes.now }
    ensures text { IfOk result (λ text. IsGuarded bytes.now errors.now text.items) }
    ensures derives { IfOk result (λ text. (named : IsNamed bytes.now) → Derives text.items (tree_by named errors.now)) }
{
    match lex(alloc, bytes) {
        Ok(tokens) => of_tokens(alloc, bytes, &tokens, errors),
        Err(why) => Err(unlexed(why)),
    }
}
