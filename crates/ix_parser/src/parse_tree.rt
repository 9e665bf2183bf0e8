//! The tree of a list of tokens.
ghost use Rattle.std.specs.Prelude.{◌≡◌, ◌≢◌, ◌≤◌, ◌⊎◌, length, IfOk, IfErr, MatchResult};
ghost use Rattle.ix_lexer.specs.Spans.{InOrder};
ghost use Rattle.ix_tree.specs.declared.decl.Unit.{Unit as Source};
ghost use Rattle.ix_tree.specs.Heights.{unit_height};
ghost use Rattle.ix_tree.specs.Parts.{CanResolve};
ghost use Rattle.ix_tree.specs.Placed.{Placed};
ghost use Rattle.ix_grammar_rules.specs.Errors.{error_at as the_error};
ghost use Rattle.ix_grammar.specs.Refusals.{HasTree, Refused, IsWithin};
ghost use Rattle.ix_grammar.specs.declared.error.ParseError.{ParseError as Refusal};
ghost use Rattle.ix_grammar.specs.declared.error.ParseError.TheVariants.{Memory};

use crate::sources::source;
use ix_grammar::error::ParseError;
use ix_grammar_rules::stop::Stop;
use ix_lexer::Token;
use ix_parse_base::cursor::Cursor;
use ix_tree::Unit;
use std::alloc::Global;

/// The tree of the tokens of a text of `end` bytes (JLS 7.3, for the grammar of docs/LANGUAGE.md): the only one, of a height of at most 200.
///
/// An error comes exactly where there is no such tree. Let the tokens before one be the most that begin a source of a height of at most 200.
/// Where with that token they begin none of any height, or where none is left, the error is `Syntax` with its number; where they begin a
/// higher one, it is `TooDeep`.
/// The depth of calls is bounded by the height of 200. The declarators of a declaration hold its modifiers and its type jointly.
pub fn parse(alloc: Global, tokens: &[Token], end: u32) -> Result<Unit, ParseError>
    requires { record {
      few : length tokens.now ≤ 200000;
      in_order : InOrder 0 end tokens.now;
    } }

    // The tree, exactly where there is one, and no other.
    ensures found { IfOk result (λ unit. HasTree tokens.now unit) }
    ensures only { (unit : Source) → HasTree tokens.now unit → MatchResult result (λ found. found ≡ unit) (λ error. error ≡ Memory) }

    // It is at most 200 high.
    ensures low { IfOk result (λ unit. unit_height unit ≤ 200) }

    // Each of its nodes stands in the text, within the node that it is a part of, and one behind the other.
    ensures placed { IfOk result (Placed end) }

    // Names can be looked up in it by their places.
    ensures resolvable { IfOk result CanResolve }

    // The error, exactly where there is no such tree, and no other; its place lies in the text.
    ensures refused { IfErr result (λ error. error ≢ Memory → Refused tokens.now error) }
    ensures only_refused { (error : Refusal) → Refused tokens.now error → MatchResult result (λ found. ⊥) (λ other. (other ≡ error) ⊎ (other ≡ Memory)) }
    ensures within { IfErr result (IsWithin (length tokens.now) end) }
{
    let mut cursor = Cursor::new(tokens);
    match source(alloc, &mut cursor) {
        Err(stop) => Err(error_at(tokens, &cursor, stop)),
        Ok(found) => {
            if cursor.left() == 0 {
                Ok(found.unit)
            } else {
                Err(error_at(tokens, &cursor, Stop::Syntax))
            }
        }
    }
}

/// The error of a rule that stopped at the cursor.
fn error_at(tokens: &[Token], cursor: &Cursor<'_>, stop: Stop) -> ParseError
    requires { length tokens.now ≤ 200000 }
    ensures { result ≡ the_error stop tokens.now cursor.now }
{
    let number = tokens.len().saturating_sub(cursor.left()) as u32;
    match (stop, cursor.start()) {
        (Stop::Memory, _) => ParseError::Memory,
        (Stop::TooDeep, Some(from)) => ParseError::TooDeep(from),
        _ => ParseError::Syntax(number),
    }
}
