//! Whole sources (JLS 7.3 to 7.5). Package and import lines leave no node.
ghost use Rattle.std.specs.Prelude.{◌≡◌, ◌≤◌, ◌+◌, true, length, OnOk, IfOk};
ghost use Rattle.ix_grammar.specs.ClassGrammar as nodes;
ghost use Rattle.ix_grammar_rules.specs.ClassRules as spec;
ghost use Rattle.ix_lexer.specs.declared.fixed.TheConstants.{SEMICOLON as THE_END, STATIC as THE_STATIC};
ghost use Rattle.ix_grammar.specs.Patterns.{a_sign};
ghost use Rattle.ix_grammar_rules.specs.Rule.{run, loop, take, pure, stop};
ghost use Rattle.ix_grammar_rules.specs.SourceRules.{parts, source as the_source};
ghost use Rattle.ix_grammar_rules.specs.Taking.{Follows};

use crate::class_rules::classes;
use ix_grammar::classes::{Classes, FoundUnit};
use ix_grammar_rules::stop::Stop;
use ix_lexer::fixed::{DOT, IMPORT, PACKAGE, SEMICOLON, STATIC, TIMES};
use ix_parse_base::cursor::Cursor;
use ix_tree::Unit;
use std::alloc::Global;

/// `{"." Ident}`
#[tactic(auto, unfolding(ix_grammar_rules::specs::Rule::run, ix_grammar_rules::specs::ClassRules::next_dot))]
fn more_dotted(alloc: Global, cursor: &mut Cursor<'_>) -> Result<(), Stop>
    ensures { record {
      reads : Follows (run (loop spec.next_dot tt) cursor.old) result cursor.new;
      no_longer : OnOk result (length cursor.new ≤ length cursor.old);
    } }
{
    'reading: while let Some(_dot) = cursor.sign(DOT) {
        cursor.advance();
        cursor.take_name(alloc)?;
    }
    Ok(())
}

/// `Dotted = Ident {"." Ident}`
#[tactic(auto, unfolding(ix_grammar_rules::specs::Rule::run, ix_grammar_rules::specs::ClassRules::dotted))]
fn dotted(alloc: Global, cursor: &mut Cursor<'_>) -> Result<(), Stop>
    ensures { record {
      reads : Follows (run spec.dotted cursor.old) result cursor.new;
      no_longer : OnOk result (length cursor.new ≤ length cursor.old);
    } }
{
    cursor.take_name(alloc)?;
    more_dotted(alloc, cursor)
}

/// `["package" Dotted ";"]`
#[tactic(auto, unfolding(ix_grammar_rules::specs::Rule::run, ix_grammar_rules::specs::ClassRules::package_line))]
fn package_line(alloc: Global, cursor: &mut Cursor<'_>) -> Result<(), Stop>
    ensures { record {
      reads : Follows (run spec.package_line cursor.old) result cursor.new;
      no_longer : OnOk result (length cursor.new ≤ length cursor.old);
    } }
{
    let Some(_package) = cursor.sign(PACKAGE) else {
        return Ok(());
    };
    cursor.advance();
    dotted(alloc, cursor)?;
    cursor.take_sign(SEMICOLON)?;
    Ok(())
}

/// `{"." Ident} ["." "*"] ";"`
#[tactic(auto, unfolding(ix_grammar_rules::specs::Rule::run, ix_grammar_rules::specs::ClassRules::next_imported))]
fn imported_behind(alloc: Global, cursor: &mut Cursor<'_>) -> Result<(), Stop>
    ensures { record {
      reads : Follows (run (loop spec.next_imported tt) cursor.old) result cursor.new;
      no_longer : OnOk result (length cursor.new ≤ length cursor.old);
    } }
{
    'reading: while let Some(_dot) = cursor.sign(DOT) {
        cursor.advance();
        if let Some(_times) = cursor.sign(TIMES) {
            cursor.advance();
            return line_end(cursor);
        }
        cursor.take_name(alloc)?;
    }
    line_end(cursor)
}

/// `";"`
#[tactic(auto, unfolding(ix_grammar_rules::specs::Rule::run))]
fn line_end(cursor: &mut Cursor<'_>) -> Result<(), Stop>
    ensures { record {
      reads : Follows (run (take (a_sign THE_END) true (λ end. pure tt) stop) cursor.old) result cursor.new;
      no_longer : OnOk result (length cursor.new ≤ length cursor.old);
    } }
{
    cursor.take_sign(SEMICOLON)?;
    Ok(())
}

/// `Dotted ["." "*"] ";"`
#[tactic(auto, unfolding(ix_grammar_rules::specs::Rule::run, ix_grammar_rules::specs::ClassRules::imported))]
fn imported(alloc: Global, cursor: &mut Cursor<'_>) -> Result<(), Stop>
    ensures { record {
      reads : Follows (run spec.imported cursor.old) result cursor.new;
      no_longer : OnOk result (length cursor.new ≤ length cursor.old);
    } }
{
    cursor.take_name(alloc)?;
    imported_behind(alloc, cursor)
}

/// `["static"] Dotted ["." "*"] ";"`
#[tactic(auto, unfolding(ix_grammar_rules::specs::Rule::run))]
fn import_behind(alloc: Global, cursor: &mut Cursor<'_>) -> Result<(), Stop>
    ensures { record {
      reads : Follows (run (take (a_sign THE_STATIC) true (λ static. spec.imported) spec.imported) cursor.old) result cursor.new;
      no_longer : OnOk result (length cursor.new ≤ length cursor.old);
    } }
{
    if let Some(_static) = cursor.sign(STATIC) {
        cursor.advance();
        return imported(alloc, cursor);
    }
    imported(alloc, cursor)
}

/// `{"import" ["static"] Dotted ["." "*"] ";"}`
#[tactic(auto, unfolding(ix_grammar_rules::specs::Rule::run, ix_grammar_rules::specs::ClassRules::next_import, ix_grammar_rules::specs::ClassRules::imports))]
fn imports(alloc: Global, cursor: &mut Cursor<'_>) -> Result<(), Stop>
    ensures { record {
      reads : Follows (run spec.imports cursor.old) result cursor.new;
      no_longer : OnOk result (length cursor.new ≤ length cursor.old);
    } }
{
    'reading: while let Some(_import) = cursor.sign(IMPORT) {
        cursor.advance();
        import_behind(alloc, cursor)?;
    }
    Ok(())
}

/// A whole source.
fn unit_of(found: Classes, left: u32) -> FoundUnit
    requires room { found.height + 1 ≤ left }
    ensures { result ≡ nodes.unit_of found }
{
    FoundUnit {
        unit: Unit {
            classes: found.classes,
        },
        height: 1 + found.height,
    }
}

/// `Program = ["package" Dotted ";"] {"import" ["static"] Dotted ["." "*"] ";"} {Class}`, of a height of at most `left`
#[tactic(auto, unfolding(ix_grammar_rules::specs::Rule::run, ix_grammar_rules::specs::ClassRules::program))]
fn program(alloc: Global, cursor: &mut Cursor<'_>, left: u32) -> Result<FoundUnit, Stop>
    requires { record {
      few : length cursor.old ≤ 200000;
      room : 5 ≤ left;
    } }
    ensures { record {
      reads : Follows (run (spec.program parts left) cursor.old) result cursor.new;
      fits : IfOk result (λ found. found.height ≤ left);
    } }
{
    package_line(alloc, cursor)?;
    imports(alloc, cursor)?;
    let found = classes(alloc, cursor, left - 1)?;
    Ok(unit_of(found, left))
}

/// A source, which may be 200 nodes high.
#[tactic(auto, unfolding(ix_grammar_rules::specs::SourceRules::source))]
pub fn source(alloc: Global, cursor: &mut Cursor<'_>) -> Result<FoundUnit, Stop>
    requires few { length cursor.old ≤ 200000 }
    ensures { record {
      reads : Follows (run the_source cursor.old) result cursor.new;
      fits : IfOk result (λ found. found.height ≤ 200);
    } }
{
    program(alloc, cursor, 200)
}
