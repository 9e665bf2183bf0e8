//! Which operator comes next (JLS 3.12).
ghost use Rattle.std.specs.Prelude.{◌≡◌, ◌<◌, length, IfSome};
ghost use Rattle.ix_grammar_rules.specs.Rule.{look};
ghost use Rattle.ix_grammar.specs.Patterns.{one_of as is_one_of, an_operator, binary_signs, unary_signs, step_signs, assign_signs};

use crate::cursor::Cursor;
use ix_grammar::found::At;
use ix_lexer::fixed::{
    AND, AND_ALSO, AND_ASSIGN, ASSIGN, DECREMENT, DIVIDE, DIVIDE_ASSIGN, EQUAL, FLIP, GREATER,
    GREATER_OR_EQUAL, INCREMENT, LESS, LESS_OR_EQUAL, MINUS, MINUS_ASSIGN, NOT, NOT_EQUAL, OR,
    OR_ASSIGN, OR_ELSE, PLUS, PLUS_ASSIGN, REMAINDER, REMAINDER_ASSIGN, SHIFT_LEFT,
    SHIFT_LEFT_ASSIGN, SHIFT_RIGHT, SHIFT_RIGHT_ASSIGN, TIMES, TIMES_ASSIGN, UNSIGNED_SHIFT_RIGHT,
    UNSIGNED_SHIFT_RIGHT_ASSIGN, XOR, XOR_ASSIGN,
};
use ix_num::{Arith, Rel};
use ix_tree::{BinaryOp, UnaryOp};

/// A sign of a table, with what it stands for.
#[tactic(auto, using(crate::proofs::Signs::rows))]
fn one_of<V: Copy>(cursor: &Cursor<'_>, mut table: &[(u8, V)]) -> Option<At<V>>
    ensures { record {
      found : result ≡ look (is_one_of table.entry.now) cursor.now;
      there : IfSome result (λ _. 0 < length cursor.now);
    } }
{
    'looking: while let [(number, value), later @ ..] = table {
        if let Some(span) = cursor.sign(*number) {
            return Some(At {
                value: *value,
                span,
            });
        }
        table = later;
    }
    None
}

/// `++` or `--`: whether it is the first.
pub fn step_sign(cursor: &Cursor<'_>) -> Option<At<bool>>
    ensures { record {
      found : result ≡ look (is_one_of step_signs) cursor.now;
      there : IfSome result (λ _. 0 < length cursor.now);
    } }
{
    one_of(cursor, &[(INCREMENT, true), (DECREMENT, false)])
}

/// An operator with one operand.
pub fn unary_sign(cursor: &Cursor<'_>) -> Option<At<UnaryOp>>
    ensures { record {
      found : result ≡ look (is_one_of unary_signs) cursor.now;
      there : IfSome result (λ _. 0 < length cursor.now);
    } }
{
    one_of(
        cursor,
        &[
            (PLUS, UnaryOp::Plus),
            (MINUS, UnaryOp::Minus),
            (NOT, UnaryOp::Not),
            (FLIP, UnaryOp::Flip),
        ],
    )
}

/// `=`, or an operator with it.
pub fn assign_sign(cursor: &Cursor<'_>) -> Option<At<Option<Arith>>>
    ensures { record {
      found : result ≡ look (is_one_of assign_signs) cursor.now;
      there : IfSome result (λ _. 0 < length cursor.now);
    } }
{
    one_of(
        cursor,
        &[
            (ASSIGN, None),
            (PLUS_ASSIGN, Some(Arith::Add)),
            (MINUS_ASSIGN, Some(Arith::Sub)),
            (TIMES_ASSIGN, Some(Arith::Mul)),
            (DIVIDE_ASSIGN, Some(Arith::Div)),
            (REMAINDER_ASSIGN, Some(Arith::Rem)),
            (AND_ASSIGN, Some(Arith::And)),
            (OR_ASSIGN, Some(Arith::Or)),
            (XOR_ASSIGN, Some(Arith::Xor)),
            (SHIFT_LEFT_ASSIGN, Some(Arith::Shl)),
            (SHIFT_RIGHT_ASSIGN, Some(Arith::Shr)),
            (UNSIGNED_SHIFT_RIGHT_ASSIGN, Some(Arith::Ushr)),
        ],
    )
}

/// An operator with two operands, with its level.
fn binary_sign(cursor: &Cursor<'_>) -> Option<At<(u32, BinaryOp)>>
    ensures { record {
      found : result ≡ look (is_one_of binary_signs) cursor.now;
      there : IfSome result (λ _. 0 < length cursor.now);
    } }
{
    one_of(
        cursor,
        &[
            (TIMES, (0, BinaryOp::Num(Arith::Mul))),
            (DIVIDE, (0, BinaryOp::Num(Arith::Div))),
            (REMAINDER, (0, BinaryOp::Num(Arith::Rem))),
            (PLUS, (1, BinaryOp::Num(Arith::Add))),
            (MINUS, (1, BinaryOp::Num(Arith::Sub))),
            (SHIFT_LEFT, (2, BinaryOp::Num(Arith::Shl))),
            (SHIFT_RIGHT, (2, BinaryOp::Num(Arith::Shr))),
            (UNSIGNED_SHIFT_RIGHT, (2, BinaryOp::Num(Arith::Ushr))),
            (LESS, (3, BinaryOp::Compare(Rel::Lt))),
            (GREATER, (3, BinaryOp::Compare(Rel::Gt))),
            (LESS_OR_EQUAL, (3, BinaryOp::Compare(Rel::Le))),
            (GREATER_OR_EQUAL, (3, BinaryOp::Compare(Rel::Ge))),
            (EQUAL, (4, BinaryOp::Compare(Rel::Eq))),
            (NOT_EQUAL, (4, BinaryOp::Compare(Rel::Ne))),
            (AND, (5, BinaryOp::Num(Arith::And))),
            (XOR, (6, BinaryOp::Num(Arith::Xor))),
            (OR, (7, BinaryOp::Num(Arith::Or))),
            (AND_ALSO, (8, BinaryOp::AndAlso)),
            (OR_ELSE, (9, BinaryOp::OrElse)),
        ],
    )
}

/// An operator with two operands of that level.
#[tactic(auto, using(crate::proofs::Signs::of_level))]
pub fn operator(cursor: &Cursor<'_>, level: u32) -> Option<At<BinaryOp>>
    ensures found { result ≡ look (an_operator level) cursor.now }
    ensures there { IfSome result (λ _. 0 < length cursor.now) }
{
    if let Some(found) = binary_sign(cursor) {
        if found.value.0 == level {
            return Some(At {
                value: found.value.1,
                span: found.span,
            });
        }
    }
    None
}
