//! Declarations of locals (JLS 14.4), as far as their semicolon.
ghost use Rattle.std.specs.Prelude.{◌≤◌, ◌+◌, ◌-◌, length, OnOk, IfOk};
ghost use Rattle.ix_grammar.specs.declared.declarations.Word.TheVariants.{Final};
ghost use Rattle.ix_grammar_rules.specs.AnnotRules.{annot_behind as the_annot};
ghost use Rattle.ix_grammar.specs.DeclGrammar.{no_mods as none, with_word as worded, with_annot as noted};
ghost use Rattle.ix_grammar_rules.specs.ReadingStatements.{begun_fits};
ghost use Rattle.ix_grammar_rules.specs.Rule.{run, bind};
ghost use Rattle.ix_grammar_rules.specs.StmtRules as spec;
ghost use Rattle.ix_grammar_rules.specs.Taking.{Follows};
ghost use Rattle.ix_grammar.specs.TypeGrammar.{base_height};
ghost use Rattle.ix_grammar_rules.specs.TypeRules.{type_rest as the_rest};

use ix_grammar::declarations::{FoundMods, Word};
use ix_grammar::found::{At, FoundType};
use ix_grammar_rules::aims::Words;
use ix_grammar_rules::begun::Begun;
use ix_grammar_rules::stop::Stop;
use ix_parse_base::annotations::annot_behind;
use ix_parse_base::cursor::Cursor;
use ix_parse_base::modifiers::{mods_from, no_mods, with_annot, with_word};
use ix_parse_base::type_trees::{type_rest, type_tree};
use ix_parse_expressions::declarators::{decls, shared};
use ix_text::Span;
use ix_tree::{BaseTree, Ident};
use std::alloc::Global;

/// `["=" Init] {"," Decl}`, behind the first name
#[tactic(auto, unfolding(ix_grammar_rules::specs::Rule::run, ix_grammar_rules::specs::StmtRules::declared))]
pub fn declared(
    alloc: Global,
    cursor: &mut Cursor<'_>,
    left: u32,
    mods: FoundMods,
    ty: FoundType,
    name: Ident,
) -> Result<Begun, Stop>
    requires { record {
      few : length cursor.old ≤ 200000;
      room : 3 ≤ left;
      mods_low : mods.height ≤ 3;
      mods_fit : mods.height + 2 ≤ left;
      type_low : ty.height ≤ 4;
      type_fits : ty.height + 2 ≤ left;
    } }
    ensures { record {
      reads : Follows (run (spec.declared left mods ty name) cursor.old) result cursor.new;
      no_longer : OnOk result (length cursor.new ≤ length cursor.old);
      fits : IfOk result (λ begun. begun_fits left begun);
    } }
{
    let all = shared(alloc, &mods, &ty)?;
    let found = decls(alloc, cursor, left - 1, &all, name)?;
    Ok(Begun::Local(mods, ty, found))
}

/// `Decls`, behind the type
#[tactic(auto, unfolding(ix_grammar_rules::specs::Rule::run, ix_grammar_rules::specs::StmtRules::named_type))]
pub fn named_type(
    alloc: Global,
    cursor: &mut Cursor<'_>,
    left: u32,
    mods: FoundMods,
    ty: FoundType,
) -> Result<Begun, Stop>
    requires { record {
      few : length cursor.old ≤ 200000;
      room : 3 ≤ left;
      mods_low : mods.height ≤ 3;
      mods_fit : mods.height + 2 ≤ left;
      type_low : ty.height ≤ 4;
      type_fits : ty.height + 2 ≤ left;
    } }
    ensures { record {
      reads : Follows (run (spec.named_type left mods ty) cursor.old) result cursor.new;
      no_longer : OnOk result (length cursor.new ≤ length cursor.old);
      fits : IfOk result (λ begun. begun_fits left begun);
    } }
{
    let name = cursor.take_name(alloc)?;
    declared(alloc, cursor, left, mods, ty, name)
}

/// `{"final" | Annot} Type Decls`, behind the first modifier
#[tactic(auto, unfolding(ix_grammar_rules::specs::Rule::run, ix_grammar_rules::specs::StmtRules::modified, ix_grammar_rules::specs::StmtRules::typed))]
fn modified(
    alloc: Global,
    cursor: &mut Cursor<'_>,
    left: u32,
    first: FoundMods,
) -> Result<Begun, Stop>
    requires { record {
      few : length cursor.old ≤ 200000;
      room : 3 ≤ left;
      low : first.height ≤ 3;
      fits : first.height + 2 ≤ left;
    } }
    ensures { record {
      reads : Follows (run (spec.modified left first) cursor.old) result cursor.new;
      no_longer : OnOk result (length cursor.new ≤ length cursor.old);
      fits : IfOk result (λ begun. begun_fits left begun);
    } }
{
    let mods = mods_from(alloc, cursor, Words::Local, left - 2, first)?;
    let ty = type_tree(alloc, cursor, left - 2)?;
    named_type(alloc, cursor, left, mods, ty)
}

/// A declaration behind `final`.
#[tactic(auto, unfolding(ix_grammar_rules::specs::Rule::run))]
pub fn final_local(
    alloc: Global,
    cursor: &mut Cursor<'_>,
    left: u32,
    span: Span,
) -> Result<Begun, Stop>
    requires { record {
      few : length cursor.old ≤ 200000;
      room : 3 ≤ left;
    } }
    ensures { record {
      reads : Follows (run (spec.modified left (worded none Final span)) cursor.old) result cursor.new;
      no_longer : OnOk result (length cursor.new ≤ length cursor.old);
      fits : IfOk result (λ begun. begun_fits left begun);
    } }
{
    let first = with_word(no_mods(alloc), Word::Final, span);
    modified(alloc, cursor, left, first)
}

/// A declaration behind the `@` of its first annotation.
#[tactic(auto, unfolding(ix_grammar_rules::specs::Rule::run))]
pub fn noted_local(
    alloc: Global,
    cursor: &mut Cursor<'_>,
    left: u32,
    at: Span,
) -> Result<Begun, Stop>
    requires { record {
      few : length cursor.old ≤ 200000;
      room : 4 ≤ left;
    } }
    ensures { record {
      reads : Follows (run (bind (the_annot (left - 2) at) (λ annot. spec.modified left (noted none annot))) cursor.old) result cursor.new;
      no_longer : OnOk result (length cursor.new ≤ length cursor.old);
      fits : IfOk result (λ begun. begun_fits left begun);
    } }
{
    let annot = annot_behind(alloc, cursor, left - 2, at)?;
    let first = with_annot(no_mods(alloc), annot)?;
    modified(alloc, cursor, left, first)
}

/// A declaration behind the base of its type, `int` or `boolean`.
#[tactic(auto, unfolding(ix_grammar_rules::specs::Rule::run))]
pub fn plain_local(
    alloc: Global,
    cursor: &mut Cursor<'_>,
    left: u32,
    base: At<BaseTree>,
) -> Result<Begun, Stop>
    requires { record {
      few : length cursor.old ≤ 200000;
      room : 3 ≤ left;
      low : base_height base.value ≤ 0;
    } }
    ensures { record {
      reads : Follows (run (bind (the_rest (left - 2) base) (spec.named_type left none)) cursor.old) result cursor.new;
      no_longer : OnOk result (length cursor.new ≤ length cursor.old);
      fits : IfOk result (λ begun. begun_fits left begun);
    } }
{
    let ty = type_rest(alloc, cursor, left - 2, base)?;
    named_type(alloc, cursor, left, no_mods(alloc), ty)
}
