//! Variables that are too high for a statement, which tokens that may yet begin another statement can make.
ghost use Rattle.std.specs.Prelude.{◌≡◌};
ghost use Rattle.ix_grammar_rules.specs.ReadingStatements as spec;

use ix_grammar_rules::stop::Stop;
use ix_lexer::fixed::{DOT, OPEN_BRACKET, OPEN_PAREN};
use ix_parse_base::cursor::Cursor;
use ix_parse_base::operators::{assign_sign, step_sign};

/// Why reading stops behind a variable that is too high.
fn behind_high(cursor: &Cursor<'_>) -> Stop
    ensures { result ≡ spec.behind_high cursor.now }
{
    let goes_on = cursor.sign(DOT).is_some()
        || cursor.sign(OPEN_BRACKET).is_some()
        || assign_sign(cursor).is_some()
        || step_sign(cursor).is_some();
    if goes_on { Stop::TooDeep } else { Stop::Syntax }
}

/// Why reading stops behind a name that makes a variable which is too high, or a method.
pub fn behind_high_name(cursor: &Cursor<'_>) -> Stop
    ensures { result ≡ spec.behind_high_name cursor.now }
{
    if cursor.sign(OPEN_PAREN).is_some() {
        Stop::TooDeep
    } else {
        behind_high(cursor)
    }
}
