//! Expressions (JLS 15): what the other rules read of them.
ghost use Rattle.std.specs.Prelude.{◌<◌, ◌≤◌, length, OnOk, IfOk};
ghost use Rattle.ix_grammar_rules.specs.declared.aims.Aim.TheVariants.{Statement};
ghost use Rattle.ix_grammar_rules.specs.ExprRules as spec;
ghost use Rattle.ix_grammar_rules.specs.Reading.{GoesOn, part_rule};
ghost use Rattle.ix_grammar_rules.specs.Rule.{run, loop};
ghost use Rattle.ix_grammar_rules.specs.Taking.{Follows};

use crate::grammar::Grammar;
use ix_grammar::found::{Args, Found, FoundInit};
use ix_grammar_rules::aims::{Aim, Part};
use ix_grammar_rules::stop::Stop;
use ix_parse_base::cursor::Cursor;
use ix_tree::Ident;
use std::alloc::Global;

/// An expression of a height of at most `left`, as a part of another.
pub fn read(alloc: Global, cursor: &mut Cursor<'_>, left: u32, part: Part) -> Result<Found, Stop>
    requires few { length cursor.old ≤ 200000 }
    ensures { record {
      reads : Follows (run (part_rule left part) cursor.old) result cursor.new;
      no_longer : OnOk result (length cursor.new ≤ length cursor.old);
      fits : IfOk result (λ f. f.height ≤ left);
    } }
{
    let grammar = Grammar {
        alloc,
        left,
        part: read,
    };
    match part {
        Part::Whole => grammar.whole(cursor),
        Part::Level(levels) => grammar.level(cursor, levels),
        Part::Variable => grammar.variable(cursor),
    }
}

/// An expression of a height of at most `left`.
pub fn expr(alloc: Global, cursor: &mut Cursor<'_>, left: u32) -> Result<Found, Stop>
    requires few { length cursor.old ≤ 200000 }
    ensures { record {
      reads : Follows (run (spec.expr left) cursor.old) result cursor.new;
      no_longer : OnOk result (length cursor.new ≤ length cursor.old);
      fits : IfOk result (λ f. f.height ≤ left);
    } }
{
    read(alloc, cursor, left, Part::Whole)
}

/// An expression of a height of at most `left` that may stand as a statement (JLS 14.8).
pub fn statement_expr(alloc: Global, cursor: &mut Cursor<'_>, left: u32) -> Result<Found, Stop>
    requires few { length cursor.old ≤ 200000 }
    ensures { record {
      reads : Follows (run (spec.statement_expr left) cursor.old) result cursor.new;
      no_longer : OnOk result (length cursor.new ≤ length cursor.old);
      fits : IfOk result (λ f. f.height ≤ left);
    } }
{
    let grammar = Grammar {
        alloc,
        left,
        part: read,
    };
    grammar.statement(cursor)
}

/// An initialiser of a height of at most `left` (JLS 8.3, 10.6).
pub fn init(alloc: Global, cursor: &mut Cursor<'_>, left: u32) -> Result<FoundInit, Stop>
    requires few { length cursor.old ≤ 200000 }
    ensures { record {
      reads : Follows (run (spec.init left) cursor.old) result cursor.new;
      no_longer : OnOk result (length cursor.new ≤ length cursor.old);
      fits : IfOk result (λ i. i.height ≤ left);
    } }
{
    let grammar = Grammar {
        alloc,
        left,
        part: read,
    };
    grammar.init(cursor, left)
}

/// `[Expr {"," Expr}] ")"`, behind the opening parenthesis, each argument of a height of at most `left`.
pub fn args(alloc: Global, cursor: &mut Cursor<'_>, left: u32) -> Result<Args, Stop>
    requires few { length cursor.old ≤ 200000 }
    ensures { record {
      reads : Follows (run (spec.args (spec.expr left)) cursor.old) result cursor.new;
      no_longer : OnOk result (length cursor.new ≤ length cursor.old);
      fits : IfOk result (λ a. a.height ≤ left);
    } }
{
    let grammar = Grammar {
        alloc,
        left,
        part: read,
    };
    grammar.args_within(cursor, left)
}

/// Behind a name that begins an expression that is to be a statement: a variable or a call.
pub fn statement_name(
    alloc: Global,
    cursor: &mut Cursor<'_>,
    left: u32,
    name: Ident,
) -> Result<Found, Stop>
    requires { record {
      few : length cursor.old ≤ 200000;
      room : 2 ≤ left;
    } }
    ensures { record {
      reads : Follows (run (spec.name_or_call (spec.below left) Statement left name) cursor.old) result cursor.new;
      no_longer : OnOk result (length cursor.new ≤ length cursor.old);
      fits : IfOk result (λ f. f.height ≤ left);
      some : IfOk result (λ f. 0 < f.height);
    } }
{
    let grammar = Grammar {
        alloc,
        left,
        part: read,
    };
    grammar.name_or_call(cursor, Aim::Statement, name)
}

/// Behind an expression, a dot and a name, where the whole is to be a statement: a field or a call.
pub fn statement_field(
    alloc: Global,
    cursor: &mut Cursor<'_>,
    left: u32,
    object: Found,
    name: Ident,
) -> Result<Found, Stop>
    requires { record {
      few : length cursor.old ≤ 200000;
      some : 0 < object.height;
      room : object.height < left;
    } }
    ensures { record {
      reads : GoesOn (run (spec.field_or_call (spec.below left) Statement left object name) cursor.old) result cursor.new;
      no_longer : OnOk result (length cursor.new ≤ length cursor.old);
      fits : IfOk result (λ f. f.height ≤ left);
      some : IfOk result (λ f. 0 < f.height);
    } }
{
    let grammar = Grammar {
        alloc,
        left,
        part: read,
    };
    grammar.field_or_call(cursor, Aim::Statement, object, name)
}

/// Behind the first part of a primary that is to be a statement: all that makes a longer one of it.
pub fn statement_chain(
    alloc: Global,
    cursor: &mut Cursor<'_>,
    left: u32,
    first: Found,
) -> Result<Found, Stop>
    requires { record {
      few : length cursor.old ≤ 200000;
      some : 0 < first.height;
      room : first.height ≤ left;
    } }
    ensures { record {
      reads : Follows (run (loop (spec.further (spec.below left) Statement left) first) cursor.old) result cursor.new;
      no_longer : OnOk result (length cursor.new ≤ length cursor.old);
      fits : IfOk result (λ f. f.height ≤ left);
      some : IfOk result (λ f. 0 < f.height);
    } }
{
    let grammar = Grammar {
        alloc,
        left,
        part: read,
    };
    grammar.chain(cursor, Aim::Statement, first)
}

/// Behind a primary: the rest of an expression that may stand as a statement.
pub fn to_statement(
    alloc: Global,
    cursor: &mut Cursor<'_>,
    left: u32,
    first: Found,
) -> Result<Found, Stop>
    requires { record {
      few : length cursor.old ≤ 200000;
      room : first.height ≤ left;
    } }
    ensures { record {
      reads : Follows (run (spec.to_statement (spec.below left) left first first.form) cursor.old) result cursor.new;
      no_longer : OnOk result (length cursor.new ≤ length cursor.old);
      fits : IfOk result (λ f. f.height ≤ left);
    } }
{
    let grammar = Grammar {
        alloc,
        left,
        part: read,
    };
    grammar.to_statement(cursor, first)
}
