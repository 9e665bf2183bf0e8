//! Modifiers (JLS 8.1.1, 8.3.1, 8.4.3, 14.4).
ghost use Rattle.std.specs.Prelude.{◌≡◌, ◌≤◌, ◌<◌, length, OnOk, IfOk, IfSome, MatchResult};
ghost use Rattle.ix_grammar_rules.specs.declared.stop.Stop.TheVariants.{Memory};
ghost use Rattle.ix_grammar.specs.DeclGrammar as nodes;
ghost use Rattle.ix_grammar_rules.specs.DeclRules as spec;
ghost use Rattle.ix_grammar.specs.Patterns.{one_of};
ghost use Rattle.ix_grammar_rules.specs.Reading.{words_of};
ghost use Rattle.ix_grammar_rules.specs.Rule.{run, loop, look};
ghost use Rattle.ix_grammar_rules.specs.Taking.{Follows};

use crate::annotations::{annot_behind, annot_height};
use crate::cursor::Cursor;
use ix_grammar::declarations::{FoundMods, Word};
use ix_grammar::found::At;
use ix_grammar_rules::aims::Words;
use ix_grammar_rules::stop::Stop;
use ix_lexer::fixed::{AT, FINAL, PRIVATE, PROTECTED, PUBLIC, STATIC};
use ix_text::{List, Span};
use ix_tree::{Annot, Mods};
use std::alloc::Global;

/// The word of a member that comes next.
fn member_word(cursor: &Cursor<'_>) -> Option<At<Word>>
    ensures { record {
      found : result ≡ look (one_of nodes.member_words) cursor.now;
      there : IfSome result (λ _. 0 < length cursor.now);
    } }
{
    if let Some(span) = cursor.sign(PUBLIC) {
        return Some(At {
            value: Word::Open,
            span,
        });
    }
    if let Some(span) = cursor.sign(PROTECTED) {
        return Some(At {
            value: Word::Open,
            span,
        });
    }
    if let Some(span) = cursor.sign(PRIVATE) {
        return Some(At {
            value: Word::Private,
            span,
        });
    }
    if let Some(span) = cursor.sign(STATIC) {
        return Some(At {
            value: Word::Static,
            span,
        });
    }
    local_word(cursor)
}

/// The word of a local that comes next.
fn local_word(cursor: &Cursor<'_>) -> Option<At<Word>>
    ensures { record {
      found : result ≡ look (one_of nodes.local_words) cursor.now;
      there : IfSome result (λ _. 0 < length cursor.now);
    } }
{
    let span = cursor.sign(FINAL)?;
    Some(At {
        value: Word::Final,
        span,
    })
}

/// The word of these that comes next.
fn word(cursor: &Cursor<'_>, words: Words) -> Option<At<Word>>
    ensures { record {
      found : result ≡ look (one_of (words_of words)) cursor.now;
      there : IfSome result (λ _. 0 < length cursor.now);
    } }
{
    match words {
        Words::Member => member_word(cursor),
        Words::Local => local_word(cursor),
    }
}

/// The place of the first modifier, where another follows those that were read.
pub fn earlier(first: Option<Span>, span: Span) -> Option<Span>
    ensures { result ≡ nodes.earlier first span }
{
    match first {
        Some(first) => Some(first),
        None => Some(span),
    }
}

/// No modifier.
pub fn no_mods(alloc: Global) -> FoundMods
    ensures { result ≡ nodes.no_mods }
{
    FoundMods {
        mods: Mods {
            is_static: false,
            is_final: false,
            is_private: false,
            annots: List::new(alloc),
        },
        height: 0,
        first: None,
    }
}

/// Modifiers with what a word marks.
fn marked(mut mods: Mods, word: Word) -> Mods
    ensures { result ≡ nodes.marked mods word }
{
    match word {
        Word::Open => {}
        Word::Private => mods.is_private = true,
        Word::Static => mods.is_static = true,
        Word::Final => mods.is_final = true,
    }
    mods
}

/// Modifiers with one more word.
pub fn with_word(found: FoundMods, word: Word, span: Span) -> FoundMods
    ensures { result ≡ nodes.with_word found word span }
{
    FoundMods {
        mods: marked(found.mods, word),
        height: found.height,
        first: earlier(found.first, span),
    }
}

/// Modifiers with one more annotation.
pub fn with_annot(mut found: FoundMods, annot: Annot) -> Result<FoundMods, Stop>
    ensures { MatchResult result (λ more. more ≡ nodes.with_annot found annot) (λ stop. stop ≡ Memory) }
{
    let height = found.height.max(annot_height(&annot));
    let first = earlier(found.first, annot.span);
    found.mods.annots.push(annot)?;
    Ok(FoundMods {
        mods: found.mods,
        height,
        first,
    })
}

/// `{Word | Annot}`, behind those that were read, each annotation of a height of at most `left`.
#[tactic(auto, unfolding(ix_grammar_rules::specs::Rule::run, ix_grammar_rules::specs::DeclRules::next_mod))]
pub fn mods_from(
    alloc: Global,
    cursor: &mut Cursor<'_>,
    words: Words,
    left: u32,
    first: FoundMods,
) -> Result<FoundMods, Stop>
    requires { record {
      low : first.height ≤ 3;
      fits : first.height ≤ left;
    } }
    ensures { record {
      reads : Follows (run (loop (spec.next_mod (words_of words) left) first) cursor.old) result cursor.new;
      no_longer : OnOk result (length cursor.new ≤ length cursor.old);
      low : IfOk result (λ found. found.height ≤ 3);
      fits : IfOk result (λ found. found.height ≤ left);
    } }
{
    let mut found = first;
    'reading: loop {
        if let Some(word) = word(cursor, words) {
            if left < 1 {
                return Err(Stop::TooDeep);
            }
            cursor.advance();
            found = with_word(found, word.value, word.span);
        } else if let Some(at) = cursor.sign(AT) {
            if left < 2 {
                return Err(Stop::TooDeep);
            }
            cursor.advance();
            let annot = annot_behind(alloc, cursor, left, at)?;
            found = with_annot(found, annot)?;
        } else {
            return Ok(found);
        }
    }
}

/// `{Word | Annot}`, each annotation of a height of at most `left`
#[tactic(auto, unfolding(ix_grammar_rules::specs::DeclRules::mods))]
pub fn mods(
    alloc: Global,
    cursor: &mut Cursor<'_>,
    words: Words,
    left: u32,
) -> Result<FoundMods, Stop>
    ensures { record {
      reads : Follows (run (spec.mods (words_of words) left) cursor.old) result cursor.new;
      no_longer : OnOk result (length cursor.new ≤ length cursor.old);
      low : IfOk result (λ found. found.height ≤ 3);
      fits : IfOk result (λ found. found.height ≤ left);
    } }
{
    mods_from(alloc, cursor, words, left, no_mods(alloc))
}
