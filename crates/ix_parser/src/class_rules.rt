//! Classes (JLS 8.1).
ghost use Rattle.std.specs.Prelude.{◌≡◌, ◌≤◌, ◌+◌, length, OnOk, IfOk, MatchResult};
ghost use Rattle.ix_grammar_rules.specs.declared.stop.Stop.TheVariants.{Memory};
ghost use Rattle.ix_grammar.specs.ClassGrammar as nodes;
ghost use Rattle.ix_grammar_rules.specs.ClassRules as spec;
ghost use Rattle.ix_grammar_rules.specs.ListRules.{braces_of};
ghost use Rattle.ix_grammar_rules.specs.Rule.{run, loop};
ghost use Rattle.ix_grammar_rules.specs.SourceRules.{parts};
ghost use Rattle.ix_grammar_rules.specs.Taking.{Follows};

use crate::member_rules::{begins, member};
use ix_grammar::classes::{Classes, FoundClass, Members};
use ix_grammar::found::At;
use ix_grammar::spans::across;
use ix_grammar_rules::stop::Stop;
use ix_lexer::fixed::{CLASS, CLOSE_BRACE, EXTENDS, FINAL, OPEN_BRACE, PUBLIC};
use ix_parse_base::cursor::Cursor;
use ix_parse_base::modifiers::earlier;
use ix_text::{List, Span};
use ix_tree::{ClassDecl, Ident};
use std::alloc::Global;

/// `{"public" | "final"}`, behind those that were read, with the place of the first one
#[tactic(auto, unfolding(ix_grammar_rules::specs::Rule::run, ix_grammar_rules::specs::ClassRules::next_class_word, ix_grammar_rules::specs::ClassRules::class_words))]
fn class_words(cursor: &mut Cursor<'_>, first: Option<Span>) -> Result<Option<Span>, Stop>
    ensures { record {
      reads : Follows (run (spec.class_words first) cursor.old) result cursor.new;
      no_longer : OnOk result (length cursor.new ≤ length cursor.old);
    } }
{
    let mut start = first;
    'reading: loop {
        if let Some(span) = cursor.sign(PUBLIC) {
            cursor.advance();
            start = earlier(start, span);
        } else if let Some(span) = cursor.sign(FINAL) {
            cursor.advance();
            start = earlier(start, span);
        } else {
            return Ok(start);
        }
    }
}

/// `["extends" Ident] "{"`
#[tactic(auto, unfolding(ix_grammar_rules::specs::Rule::run, ix_grammar_rules::specs::ClassRules::parent))]
fn parent(alloc: Global, cursor: &mut Cursor<'_>) -> Result<Option<Ident>, Stop>
    ensures { record {
      reads : Follows (run spec.parent cursor.old) result cursor.new;
      no_longer : OnOk result (length cursor.new ≤ length cursor.old);
    } }
{
    if let Some(_extends) = cursor.sign(EXTENDS) {
        cursor.advance();
        let name = cursor.take_name(alloc)?;
        cursor.take_sign(OPEN_BRACE)?;
        return Ok(Some(name));
    }
    cursor.take_sign(OPEN_BRACE)?;
    Ok(None)
}

/// No member.
fn no_members(alloc: Global) -> Members
    ensures { result ≡ nodes.no_members }
{
    Members {
        members: List::new(alloc),
        height: 0,
    }
}

/// `{Member} "}"`
#[tactic(auto, unfolding(ix_grammar_rules::specs::Rule::run, ix_grammar_rules::specs::Onto::onto, ix_grammar_rules::specs::ListRules::next_inside, ix_grammar_rules::specs::ListRules::braces_of))]
fn members(alloc: Global, cursor: &mut Cursor<'_>, left: u32) -> Result<At<Members>, Stop>
    requires { record {
      few : length cursor.old ≤ 200000;
      room : 3 ≤ left;
    } }
    ensures { record {
      reads : Follows (run (braces_of (spec.member parts left) nodes.with_members nodes.no_members) cursor.old) result cursor.new;
      no_longer : OnOk result (length cursor.new ≤ length cursor.old);
      fits : IfOk result (λ found. found.value.height ≤ left);
    } }
{
    let mut found = no_members(alloc);
    'reading: loop {
        if let Some(right) = cursor.sign(CLOSE_BRACE) {
            cursor.advance();
            return Ok(At {
                value: found,
                span: right,
            });
        }
        found = member(alloc, cursor, left, found)?;
    }
}

/// A class that begins there.
fn class_of(
    left: u32,
    start: Span,
    name: Ident,
    parent: Option<Ident>,
    found: Members,
    right: Span,
) -> FoundClass
    requires { record {
      room : 2 ≤ left;
      low : found.height + 1 ≤ left;
    } }
    ensures { record {
      is : result ≡ nodes.class_of start name parent found right;
      fits : result.height ≤ left;
    } }
{
    let height = 1 + found.height.max(1);
    FoundClass {
        class: ClassDecl {
            name,
            parent,
            members: found.members,
            span: across(start, right),
        },
        height,
    }
}

/// `Ident ["extends" Ident] "{" {Member} "}"`, behind `class`
#[tactic(auto, unfolding(ix_grammar_rules::specs::Rule::run, ix_grammar_rules::specs::ClassRules::class_behind))]
fn class_behind(
    alloc: Global,
    cursor: &mut Cursor<'_>,
    left: u32,
    start: Span,
) -> Result<FoundClass, Stop>
    requires { record {
      few : length cursor.old ≤ 200000;
      room : 4 ≤ left;
    } }
    ensures { record {
      reads : Follows (run (spec.class_behind parts left start) cursor.old) result cursor.new;
      no_longer : OnOk result (length cursor.new ≤ length cursor.old);
      fits : IfOk result (λ found. found.height ≤ left);
    } }
{
    let name = cursor.take_name(alloc)?;
    let parent = parent(alloc, cursor)?;
    let found = members(alloc, cursor, left - 1)?;
    Ok(class_of(left, start, name, parent, found.value, found.span))
}

/// `{"public" | "final"} "class" Ident ["extends" Ident] "{" {Member} "}"`, behind a first word
#[tactic(auto, unfolding(ix_grammar_rules::specs::Rule::run, ix_grammar_rules::specs::ClassRules::worded_class))]
fn worded_class(
    alloc: Global,
    cursor: &mut Cursor<'_>,
    left: u32,
    first: Span,
) -> Result<FoundClass, Stop>
    requires { record {
      few : length cursor.old ≤ 200000;
      room : 4 ≤ left;
    } }
    ensures { record {
      reads : Follows (run (spec.worded_class parts left first) cursor.old) result cursor.new;
      no_longer : OnOk result (length cursor.new ≤ length cursor.old);
      fits : IfOk result (λ found. found.height ≤ left);
    } }
{
    let start = class_words(cursor, Some(first))?;
    let span = cursor.take_sign(CLASS)?;
    class_behind(alloc, cursor, left, begins(start, span))
}

/// No class.
fn no_classes(alloc: Global) -> Classes
    ensures { result ≡ nodes.no_classes }
{
    Classes {
        classes: List::new(alloc),
        height: 0,
    }
}

/// Classes with one more.
fn with_class(mut before: Classes, found: FoundClass) -> Result<Classes, Stop>
    ensures { MatchResult result (λ classes. classes ≡ nodes.with_class before found) (λ stop. stop ≡ Memory) }
{
    before.classes.push(found.class)?;
    Ok(Classes {
        classes: before.classes,
        height: before.height.max(found.height),
    })
}

/// `{Class}`, each of a height of at most `left`
#[tactic(auto, unfolding(ix_grammar_rules::specs::Rule::run, ix_grammar_rules::specs::ClassRules::next_class))]
pub fn classes(alloc: Global, cursor: &mut Cursor<'_>, left: u32) -> Result<Classes, Stop>
    requires { record {
      few : length cursor.old ≤ 200000;
      room : 4 ≤ left;
    } }
    ensures { record {
      reads : Follows (run (loop (spec.next_class parts left) nodes.no_classes) cursor.old) result cursor.new;
      no_longer : OnOk result (length cursor.new ≤ length cursor.old);
      fits : IfOk result (λ found. found.height ≤ left);
    } }
{
    let mut found = no_classes(alloc);
    'reading: loop {
        let class = if let Some(span) = cursor.sign(PUBLIC) {
            cursor.advance();
            worded_class(alloc, cursor, left, span)?
        } else if let Some(span) = cursor.sign(FINAL) {
            cursor.advance();
            worded_class(alloc, cursor, left, span)?
        } else if let Some(span) = cursor.sign(CLASS) {
            cursor.advance();
            class_behind(alloc, cursor, left, span)?
        } else {
            return Ok(found);
        };
        found = with_class(found, class)?;
    }
}
