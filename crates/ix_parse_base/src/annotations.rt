//! Annotations (JLS 9.7).
ghost use Rattle.std.specs.Prelude.{◌≡◌, ◌≤◌, [], ◌∷◌, length, max, OnOk, IfOk, MatchResult};
ghost use Rattle.ix_tree.specs.declared.annot.AnnotValue.TheVariants.{Texts, Truth};
ghost use Rattle.ix_grammar_rules.specs.declared.stop.Stop.TheVariants.{Memory};
ghost use Rattle.ix_grammar_rules.specs.AnnotRules as spec;
ghost use Rattle.ix_grammar.specs.AnnotGrammar as nodes;
ghost use Rattle.ix_grammar.specs.Lists.{alone, joined};
ghost use Rattle.ix_grammar_rules.specs.ListRules.{more_of};
ghost use Rattle.ix_grammar_rules.specs.Rule.{run, bind};
ghost use Rattle.ix_grammar_rules.specs.Taking.{Follows};

use crate::cursor::Cursor;
use ix_grammar::found::{At, Notes};
use ix_grammar::spans::across;
use ix_grammar_rules::stop::Stop;
use ix_lexer::fixed::{
    ASSIGN, AT, CLOSE_BRACE, CLOSE_PAREN, COMMA, FALSE, MINUS, OPEN_BRACE, OPEN_PAREN, TRUE,
};
use ix_text::{List, Span, Text};
use ix_tree::{Annot, AnnotArg, AnnotValue, Ident};
use std::alloc::Global;

/// Behind a minus: `IntLit | MinLit`
#[tactic(auto, unfolding(ix_grammar_rules::specs::Rule::run, ix_grammar_rules::specs::AnnotRules::negative))]
fn negative(cursor: &mut Cursor<'_>, minus: Span) -> Result<At<AnnotValue>, Stop>
    ensures { record {
      reads : Follows (run (spec.negative minus) cursor.old) result cursor.new;
      no_longer : OnOk result (length cursor.new ≤ length cursor.old);
    } }
{
    if let Some(number) = cursor.number() {
        cursor.advance();
        return Ok(At {
            value: AnnotValue::Number(-(number.value as i64)),
            span: across(minus, number.span),
        });
    }
    let Some(least) = cursor.least() else {
        return Err(Stop::Syntax);
    };
    cursor.advance();
    Ok(At {
        value: AnnotValue::Number(-2147483648),
        span: across(minus, least),
    })
}

/// `{"," String}`, behind the first string
#[tactic(auto, unfolding(ix_grammar_rules::specs::Rule::run, ix_grammar_rules::specs::AnnotRules::text, ix_grammar_rules::specs::ListRules::next_of, ix_grammar_rules::specs::ListRules::more_of))]
fn more_texts(alloc: Global, cursor: &mut Cursor<'_>, first: Text) -> Result<List<Text>, Stop>
    ensures { record {
      reads : Follows (run (more_of spec.text joined (alone first)) cursor.old) result cursor.new;
      no_longer : OnOk result (length cursor.new ≤ length cursor.old);
    } }
{
    let mut texts = List::new(alloc);
    texts.push(first)?;
    'reading: while let Some(_comma) = cursor.sign(COMMA) {
        cursor.advance();
        let Some(text) = cursor.text(alloc)? else {
            return Err(Stop::Syntax);
        };
        cursor.advance();
        texts.push(text.value)?;
    }
    Ok(texts)
}

/// `[String {"," String}] "}"`
#[tactic(auto, unfolding(ix_grammar_rules::specs::Rule::run, ix_grammar_rules::specs::AnnotRules::braced))]
fn braced(alloc: Global, cursor: &mut Cursor<'_>, left: Span) -> Result<At<AnnotValue>, Stop>
    ensures { record {
      reads : Follows (run (spec.braced left) cursor.old) result cursor.new;
      no_longer : OnOk result (length cursor.new ≤ length cursor.old);
    } }
{
    if let Some(right) = cursor.sign(CLOSE_BRACE) {
        cursor.advance();
        return Ok(At {
            value: AnnotValue::Texts(List::new(alloc)),
            span: across(left, right),
        });
    }
    let Some(first) = cursor.text(alloc)? else {
        return Err(Stop::Syntax);
    };
    cursor.advance();
    let texts = more_texts(alloc, cursor, first.value)?;
    let right = cursor.take_sign(CLOSE_BRACE)?;
    Ok(At {
        value: AnnotValue::Texts(texts),
        span: across(left, right),
    })
}

/// A string that is a value.
#[tactic(auto, unfolding(ix_grammar_rules::specs::Rule::run))]
fn one_text(alloc: Global, text: At<Text>) -> Result<At<AnnotValue>, Stop>
    ensures { MatchResult result (λ found. found ≡ nodes.valued (Texts (text.value ∷ [])) text.span) (λ stop. stop ≡ Memory) }
{
    let mut texts = List::new(alloc);
    texts.push(text.value)?;
    Ok(At {
        value: AnnotValue::Texts(texts),
        span: text.span,
    })
}

/// `true` or `false` as a value.
fn truth(truth: bool, span: Span) -> At<AnnotValue>
    ensures { result ≡ nodes.valued (Truth truth) span }
{
    At {
        value: AnnotValue::Truth(truth),
        span,
    }
}

/// `Value = ["-"] IntLit | "-" MinLit | String | "true" | "false" | "{" [String {"," String}] "}"`
#[tactic(auto, unfolding(ix_grammar_rules::specs::Rule::run, ix_grammar_rules::specs::AnnotRules::annot_value))]
fn annot_value(alloc: Global, cursor: &mut Cursor<'_>) -> Result<At<AnnotValue>, Stop>
    ensures { record {
      reads : Follows (run spec.annot_value cursor.old) result cursor.new;
      no_longer : OnOk result (length cursor.new ≤ length cursor.old);
    } }
{
    if let Some(minus) = cursor.sign(MINUS) {
        cursor.advance();
        return negative(cursor, minus);
    }
    if let Some(number) = cursor.number() {
        cursor.advance();
        return Ok(At {
            value: AnnotValue::Number(number.value as i64),
            span: number.span,
        });
    }
    if let Some(text) = cursor.text(alloc)? {
        cursor.advance();
        return one_text(alloc, text);
    }
    if let Some(span) = cursor.sign(TRUE) {
        cursor.advance();
        return Ok(truth(true, span));
    }
    if let Some(span) = cursor.sign(FALSE) {
        cursor.advance();
        return Ok(truth(false, span));
    }
    let left = cursor.take_sign(OPEN_BRACE)?;
    braced(alloc, cursor, left)
}

/// `"=" Value`, behind the name
#[tactic(auto, unfolding(ix_grammar_rules::specs::Rule::run, ix_grammar_rules::specs::AnnotRules::named_value))]
fn named_value(alloc: Global, cursor: &mut Cursor<'_>, name: Ident) -> Result<AnnotArg, Stop>
    ensures { record {
      reads : Follows (run (spec.named_value name) cursor.old) result cursor.new;
      no_longer : OnOk result (length cursor.new ≤ length cursor.old);
    } }
{
    cursor.take_sign(ASSIGN)?;
    let found = annot_value(alloc, cursor)?;
    let span = across(name.span, found.span);
    Ok(AnnotArg {
        name: Some(name),
        value: found.value,
        span,
    })
}

/// `{"," Pair}`, behind the first one
#[tactic(auto, unfolding(ix_grammar_rules::specs::Rule::run, ix_grammar_rules::specs::AnnotRules::named, ix_grammar_rules::specs::ListRules::next_of, ix_grammar_rules::specs::ListRules::more_of))]
fn more_named(
    alloc: Global,
    cursor: &mut Cursor<'_>,
    first: AnnotArg,
) -> Result<List<AnnotArg>, Stop>
    ensures { record {
      reads : Follows (run (more_of spec.named joined (alone first)) cursor.old) result cursor.new;
      no_longer : OnOk result (length cursor.new ≤ length cursor.old);
    } }
{
    let mut args = List::new(alloc);
    args.push(first)?;
    'reading: while let Some(_comma) = cursor.sign(COMMA) {
        cursor.advance();
        let name = cursor.take_name(alloc)?;
        args.push(named_value(alloc, cursor, name)?)?;
    }
    Ok(args)
}

/// `"=" Value {"," Pair} ")"`, behind the first name
#[tactic(auto, unfolding(ix_grammar_rules::specs::Rule::run, ix_grammar_rules::specs::AnnotRules::named_args))]
fn named_args(
    alloc: Global,
    cursor: &mut Cursor<'_>,
    at: Span,
    name: Ident,
    first: Ident,
) -> Result<Annot, Stop>
    ensures reads { Follows (run (spec.named_args at name first) cursor.old) result cursor.new }
    ensures no_longer { OnOk result (length cursor.new ≤ length cursor.old) }
    ensures low { IfOk result (λ annot. nodes.annot_height annot ≤ 3) }
{
    let arg = named_value(alloc, cursor, first)?;
    let args = more_named(alloc, cursor, arg)?;
    let right = cursor.take_sign(CLOSE_PAREN)?;
    Ok(Annot {
        name,
        args,
        span: across(at, right),
    })
}

/// `[Value | Pair {"," Pair}] ")"`, behind the opening parenthesis
#[tactic(auto, unfolding(ix_grammar_rules::specs::Rule::run, ix_grammar_rules::specs::AnnotRules::annot_args))]
fn annot_args(
    alloc: Global,
    cursor: &mut Cursor<'_>,
    left: u32,
    at: Span,
    name: Ident,
) -> Result<Annot, Stop>
    ensures { record {
      reads : Follows (run (spec.annot_args left at name) cursor.old) result cursor.new;
      no_longer : OnOk result (length cursor.new ≤ length cursor.old);
      low : IfOk result (λ annot. nodes.annot_height annot ≤ 3);
      fits : IfOk result (λ annot. nodes.annot_height annot ≤ max 2 left);
    } }
{
    if let Some(right) = cursor.sign(CLOSE_PAREN) {
        cursor.advance();
        return Ok(Annot {
            name,
            args: List::new(alloc),
            span: across(at, right),
        });
    }
    if let Some(first) = cursor.name(alloc)? {
        if left < 3 {
            return Err(Stop::TooDeep);
        }
        cursor.advance();
        return named_args(alloc, cursor, at, name, first);
    }
    plain_arg(alloc, cursor, at, name)
}

/// `Value ")"`, behind the opening parenthesis
#[tactic(auto, unfolding(ix_grammar_rules::specs::Rule::run, ix_grammar_rules::specs::AnnotRules::plain_value))]
fn plain_arg(alloc: Global, cursor: &mut Cursor<'_>, at: Span, name: Ident) -> Result<Annot, Stop>
    ensures { record {
      reads : Follows (run (spec.plain_value at name) cursor.old) result cursor.new;
      no_longer : OnOk result (length cursor.new ≤ length cursor.old);
      low : IfOk result (λ annot. nodes.annot_height annot ≤ 2);
    } }
{
    let found = annot_value(alloc, cursor)?;
    let right = cursor.take_sign(CLOSE_PAREN)?;
    let args = one_arg(alloc, found)?;
    Ok(Annot {
        name,
        args,
        span: across(at, right),
    })
}

/// A value without a name.
fn one_arg(alloc: Global, found: At<AnnotValue>) -> Result<List<AnnotArg>, Stop>
    ensures { MatchResult result (λ args. args ≡ nodes.plain_arg found ∷ []) (λ stop. stop ≡ Memory) }
{
    let mut args = List::new(alloc);
    args.push(AnnotArg {
        name: None,
        value: found.value,
        span: found.span,
    })?;
    Ok(args)
}

/// `Ident ["(" [Value | Pair {"," Pair}] ")"]`, behind the `@`
#[tactic(auto, unfolding(ix_grammar_rules::specs::Rule::run, ix_grammar_rules::specs::AnnotRules::annot_behind))]
pub fn annot_behind(
    alloc: Global,
    cursor: &mut Cursor<'_>,
    left: u32,
    at: Span,
) -> Result<Annot, Stop>
    ensures { record {
      reads : Follows (run (spec.annot_behind left at) cursor.old) result cursor.new;
      no_longer : OnOk result (length cursor.new ≤ length cursor.old);
      low : IfOk result (λ annot. nodes.annot_height annot ≤ 3);
      fits : IfOk result (λ annot. nodes.annot_height annot ≤ max 2 left);
    } }
{
    let name = cursor.take_name(alloc)?;
    if let Some(_opening) = cursor.sign(OPEN_PAREN) {
        cursor.advance();
        return annot_args(alloc, cursor, left, at, name);
    }
    let span = across(at, name.span);
    Ok(Annot {
        name,
        args: List::new(alloc),
        span,
    })
}

/// The height of an argument.
fn arg_height(arg: &AnnotArg) -> u32
    ensures { result ≡ nodes.arg_height arg.now }
{
    match arg.name {
        None => 1,
        Some(_) => 2,
    }
}

/// The greatest height of an argument.
fn args_height(args: &[AnnotArg]) -> u32
    ensures { record {
      is : result ≡ nodes.args_height args.now;
      low : result ≤ 2;
    } }
{
    let mut greatest = 0;
    for arg in args {
        greatest = arg_height(arg).max(greatest);
    }
    greatest
}

/// The height of an annotation.
pub fn annot_height(annot: &Annot) -> u32
    ensures { record {
      is : result ≡ nodes.annot_height annot.now;
      low : result ≤ 3;
    } }
{
    1 + args_height(annot.args.as_slice()).max(1)
}

/// Annotations with one more.
fn with_note(mut notes: Notes, annot: Annot) -> Result<Notes, Stop>
    ensures { MatchResult result (λ more. more ≡ nodes.with_note notes annot) (λ stop. stop ≡ Memory) }
{
    let height = annot_height(&annot);
    notes.annots.push(annot)?;
    Ok(Notes {
        annots: notes.annots,
        height: notes.height.max(height),
    })
}

/// `{Annot}`, behind those that were read, each of a height of at most `left`.
#[tactic(auto, unfolding(ix_grammar_rules::specs::Rule::run, ix_grammar_rules::specs::AnnotRules::next_annot, ix_grammar_rules::specs::AnnotRules::annots_from))]
pub fn annots_from(
    alloc: Global,
    cursor: &mut Cursor<'_>,
    left: u32,
    notes: Notes,
) -> Result<Notes, Stop>
    requires { record {
      low : notes.height ≤ 3;
      fits : notes.height ≤ left;
    } }
    ensures { record {
      reads : Follows (run (spec.annots_from left notes) cursor.old) result cursor.new;
      no_longer : OnOk result (length cursor.new ≤ length cursor.old);
      low : IfOk result (λ found. found.height ≤ 3);
      fits : IfOk result (λ found. found.height ≤ left);
    } }
{
    let mut notes = notes;
    'reading: while let Some(at) = cursor.sign(AT) {
        if left < 2 {
            return Err(Stop::TooDeep);
        }
        cursor.advance();
        let annot = annot_behind(alloc, cursor, left, at)?;
        notes = with_note(notes, annot)?;
    }
    Ok(notes)
}

/// Behind an `@`: its annotation and those that follow it, each of a height of at most `left`, which is at least 2.
#[tactic(auto, unfolding(ix_grammar_rules::specs::Rule::run))]
pub fn annots_behind(
    alloc: Global,
    cursor: &mut Cursor<'_>,
    left: u32,
    at: Span,
) -> Result<Notes, Stop>
    requires room { 2 ≤ left }
    ensures { record {
      reads : Follows (run (bind (spec.annot_behind left at) (λ first. spec.annots_from left (nodes.with_note nodes.no_notes first))) cursor.old) result cursor.new;
      no_longer : OnOk result (length cursor.new ≤ length cursor.old);
      low : IfOk result (λ found. found.height ≤ 3);
      fits : IfOk result (λ found. found.height ≤ left);
    } }
{
    let first = annot_behind(alloc, cursor, left, at)?;
    let notes = with_note(no_notes(alloc), first)?;
    annots_from(alloc, cursor, left, notes)
}

/// No annotation.
pub fn no_notes(alloc: Global) -> Notes
    ensures { result ≡ nodes.no_notes }
{
    Notes {
        annots: List::new(alloc),
        height: 0,
    }
}
