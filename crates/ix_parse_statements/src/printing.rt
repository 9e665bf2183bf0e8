//! The print statement, whose first tokens could begin an expression. What it is higher than that counts at the token that tells the two apart.
ghost use Rattle.std.specs.Prelude.{◌≡◌, ◌<◌, ◌≤◌, length, OnOk, IfOk, IfSome, MatchResult};
ghost use Rattle.ix_grammar_rules.specs.declared.stop.Stop.TheVariants.{Memory};
ghost use Rattle.ix_grammar.specs.ExprNodes as nodes;
ghost use Rattle.ix_grammar_rules.specs.ReadingStatements.{begun_fits};
ghost use Rattle.ix_grammar_rules.specs.Rule.{run, look};
ghost use Rattle.ix_grammar_rules.specs.StmtRules as spec;
ghost use Rattle.ix_grammar_rules.specs.Taking.{Follows};

use crate::beginnings::{field, named_first};
use ix_grammar::found::Found;
use ix_grammar_rules::begun::Begun;
use ix_grammar_rules::stop::Stop;
use ix_lexer::fixed::{DOT, OPEN_PAREN};
use ix_parse_base::cursor::Cursor;
use ix_parse_base::nodes::{named, selected};
use ix_tree::Ident;
use std::alloc::Global;

/// The identifier that comes next, where it is that one.
#[tactic(auto, using(crate::proofs::Words::words))]
pub fn word(alloc: Global, cursor: &Cursor<'_>, text: &str) -> Result<Option<Ident>, Stop>
    ensures found { MatchResult result (λ found. found ≡ look (spec.a_word text.now) cursor.now) (λ stop. stop ≡ Memory) }
    ensures there { IfOk result (λ found. IfSome found (λ _. 0 < length cursor.now)) }
{
    let Some(name) = cursor.name(alloc)? else {
        return Ok(None);
    };
    if name.text.as_str() == text {
        Ok(Some(name))
    } else {
        Ok(None)
    }
}

/// The variable `System.out`.
fn system_out(alloc: Global, system: Ident, out: Ident) -> Result<Found, Stop>
    ensures { MatchResult result (λ found. found ≡ nodes.selected (nodes.named system) out) (λ stop. stop ≡ Memory) }
{
    selected(alloc, 3, named(alloc, system)?, out)
}

/// `"("`, or the rest of an expression, behind `System.out.println`
#[tactic(auto, unfolding(ix_grammar_rules::specs::Rule::run, ix_grammar_rules::specs::StmtRules::println_part))]
fn println_part(
    alloc: Global,
    cursor: &mut Cursor<'_>,
    left: u32,
    system: Ident,
    out: Ident,
    println: Ident,
) -> Result<Begun, Stop>
    requires { record {
      few : length cursor.old ≤ 200000;
      room : 1 ≤ left;
    } }
    ensures { record {
      reads : Follows (run (spec.println_part left system out println) cursor.old) result cursor.new;
      no_longer : OnOk result (length cursor.new ≤ length cursor.old);
      fits : IfOk result (λ begun. begun_fits left begun);
    } }
{
    if let Some(_opening) = cursor.sign(OPEN_PAREN) {
        cursor.advance();
        return Ok(Begun::Print(system.span));
    }
    let object = system_out(alloc, system, out)?;
    field(alloc, cursor, left, object, println)
}

/// `"." "println" "("`, or the rest of an expression, behind `System.out`
#[tactic(auto, unfolding(ix_grammar_rules::specs::Rule::run, ix_grammar_rules::specs::StmtRules::out_part))]
fn out_part(
    alloc: Global,
    cursor: &mut Cursor<'_>,
    left: u32,
    system: Ident,
    out: Ident,
) -> Result<Begun, Stop>
    requires { record {
      few : length cursor.old ≤ 200000;
      room : 1 ≤ left;
    } }
    ensures { record {
      reads : Follows (run (spec.out_part left system out) cursor.old) result cursor.new;
      no_longer : OnOk result (length cursor.new ≤ length cursor.old);
      fits : IfOk result (λ begun. begun_fits left begun);
    } }
{
    let Some(_dot) = cursor.sign(DOT) else {
        let object = named(alloc, system)?;
        return field(alloc, cursor, left, object, out);
    };
    cursor.advance();
    if let Some(println) = word(alloc, cursor, "println")? {
        cursor.advance();
        return println_part(alloc, cursor, left, system, out, println);
    }
    let Some(name) = cursor.name(alloc)? else {
        return Err(Stop::Syntax);
    };
    if left < 5 {
        return Err(Stop::TooDeep);
    }
    cursor.advance();
    let object = system_out(alloc, system, out)?;
    field(alloc, cursor, left, object, name)
}

/// `"." "out" "." "println" "("`, or what else begins with a name, behind `System`
#[tactic(auto, unfolding(ix_grammar_rules::specs::Rule::run, ix_grammar_rules::specs::StmtRules::system_part))]
pub fn system_part(
    alloc: Global,
    cursor: &mut Cursor<'_>,
    left: u32,
    locals: bool,
    system: Ident,
) -> Result<Begun, Stop>
    requires { record {
      few : length cursor.old ≤ 200000;
      room : 1 ≤ left;
    } }
    ensures { record {
      reads : Follows (run (spec.system_part locals left system) cursor.old) result cursor.new;
      no_longer : OnOk result (length cursor.new ≤ length cursor.old);
      fits : IfOk result (λ begun. begun_fits left begun);
    } }
{
    let Some(_dot) = cursor.sign(DOT) else {
        return named_first(alloc, cursor, left, locals, system);
    };
    cursor.advance();
    if let Some(out) = word(alloc, cursor, "out")? {
        cursor.advance();
        return out_part(alloc, cursor, left, system, out);
    }
    let Some(name) = cursor.name(alloc)? else {
        return Err(Stop::Syntax);
    };
    if left < 4 {
        return Err(Stop::TooDeep);
    }
    cursor.advance();
    let object = named(alloc, system)?;
    field(alloc, cursor, left, object, name)
}
