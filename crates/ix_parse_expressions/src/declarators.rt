//! Declarators (JLS 8.3, 14.4).
ghost use Rattle.std.specs.Prelude.{◌≡◌, ◌≤◌, ◌+◌, length, OnOk, IfOk, MatchResult};
ghost use Rattle.ix_grammar_rules.specs.declared.stop.Stop.TheVariants.{Memory};
ghost use Rattle.ix_grammar.specs.DeclGrammar as nodes;
ghost use Rattle.ix_grammar.specs.DeclGrammar.{shared as the_shared};
ghost use Rattle.ix_grammar_rules.specs.DeclRules as spec;
ghost use Rattle.ix_grammar_rules.specs.ExprRules.{init as the_init};
ghost use Rattle.ix_grammar_rules.specs.ListRules.{more_of};
ghost use Rattle.ix_grammar_rules.specs.Rule.{run};
ghost use Rattle.ix_grammar_rules.specs.Taking.{Follows};

use crate::expressions::init;
use ix_grammar::declarations::{FoundDecl, FoundMods, Shared};
use ix_grammar::found::{FoundDecls, FoundInit, FoundType};
use ix_grammar_rules::stop::Stop;
use ix_lexer::fixed::{ASSIGN, COMMA};
use ix_parse_base::copies::{copy_mods, copy_type};
use ix_parse_base::cursor::Cursor;
use ix_text::{Joint, List};
use ix_tree::{Ident, LocalDecl, Mods, TypeTree};
use std::alloc::Global;

/// A copy of modifiers, which declarators hold jointly.
fn joint_mods(alloc: Global, mods: &Mods) -> Result<Joint<Mods>, Stop>
    ensures { MatchResult result (λ joint. joint ≡ mods.now) (λ stop. stop ≡ Memory) }
{
    Joint::new(alloc, copy_mods(alloc, mods)?).map_err(Stop::from)
}

/// A copy of a type, which declarators hold jointly.
fn joint_type(alloc: Global, ty: &TypeTree) -> Result<Joint<TypeTree>, Stop>
    ensures { MatchResult result (λ joint. joint ≡ ty.now) (λ stop. stop ≡ Memory) }
{
    Joint::new(alloc, copy_type(alloc, ty)?).map_err(Stop::from)
}

/// What all declarators have behind these modifiers and this type.
pub fn shared(alloc: Global, found: &FoundMods, ty: &FoundType) -> Result<Shared, Stop>
    ensures { MatchResult result (λ all. all ≡ the_shared found.now ty.now) (λ stop. stop ≡ Memory) }
{
    let height = found.height.max(ty.height).max(1);
    let mods = joint_mods(alloc, &found.mods)?;
    let ty = joint_type(alloc, &ty.ty)?;
    Ok(Shared { mods, ty, height })
}

/// The modifiers and the type, held by one declarator more.
fn held(all: &Shared) -> Result<(Joint<Mods>, Joint<TypeTree>), Stop>
    ensures { MatchResult result (λ both. both ≡ (all.now.mods, all.now.ty)) (λ stop. stop ≡ Memory) }
{
    let mods = all.mods.join()?;
    let ty = all.ty.join()?;
    Ok((mods, ty))
}

/// What is declared without an initialiser.
pub fn plain_decl(all: &Shared, name: Ident) -> Result<FoundDecl, Stop>
    requires low { all.now.height ≤ 4 }
    ensures { MatchResult result (λ found. found ≡ nodes.plain_decl all.now name) (λ stop. stop ≡ Memory) }
{
    let (mods, ty) = held(all)?;
    let end = name.span;
    let init = None;
    Ok(FoundDecl {
        decl: LocalDecl {
            mods,
            ty,
            name,
            init,
        },
        height: 1 + all.height,
        end,
    })
}

/// What is declared with an initialiser.
fn init_decl(left: u32, all: &Shared, name: Ident, found: FoundInit) -> Result<FoundDecl, Stop>
    requires { record {
      low : all.now.height ≤ 4;
      room : found.height + 1 ≤ left;
    } }
    ensures { MatchResult result (λ decl. decl ≡ nodes.init_decl all.now name found) (λ stop. stop ≡ Memory) }
{
    let (mods, ty) = held(all)?;
    let FoundInit { init, height, end } = found;
    let init = Some(init.into_inner());
    Ok(FoundDecl {
        decl: LocalDecl {
            mods,
            ty,
            name,
            init,
        },
        height: 1 + all.height.max(height),
        end,
    })
}

/// `["=" Init]`, behind the name
#[tactic(auto, unfolding(ix_grammar_rules::specs::Rule::run, ix_grammar_rules::specs::DeclRules::decl_behind))]
pub fn decl_behind(
    alloc: Global,
    cursor: &mut Cursor<'_>,
    left: u32,
    all: &Shared,
    name: Ident,
) -> Result<FoundDecl, Stop>
    requires { record {
      few : length cursor.old ≤ 200000;
      low : all.now.height ≤ 4;
      room : all.now.height + 1 ≤ left;
    } }
    ensures { record {
      reads : Follows (run (spec.decl_behind the_init left all.now name) cursor.old) result cursor.new;
      no_longer : OnOk result (length cursor.new ≤ length cursor.old);
      fits : IfOk result (λ found. found.height ≤ left);
    } }
{
    if let Some(_assign) = cursor.sign(ASSIGN) {
        cursor.advance();
        let found = init(alloc, cursor, left - 1)?;
        return init_decl(left, all, name, found);
    }
    plain_decl(all, name)
}

/// The first of several declarations.
fn one_decl(alloc: Global, found: FoundDecl) -> Result<FoundDecls, Stop>
    ensures { MatchResult result (λ decls. decls ≡ nodes.one_decl found) (λ stop. stop ≡ Memory) }
{
    let mut decls = List::new(alloc);
    decls.push(found.decl)?;
    Ok(FoundDecls {
        decls,
        height: found.height,
        end: found.end,
    })
}

/// Declarations with one more.
fn with_decl(mut before: FoundDecls, found: FoundDecl) -> Result<FoundDecls, Stop>
    ensures { MatchResult result (λ decls. decls ≡ nodes.with_decl before found) (λ stop. stop ≡ Memory) }
{
    before.decls.push(found.decl)?;
    Ok(FoundDecls {
        decls: before.decls,
        height: before.height.max(found.height),
        end: found.end,
    })
}

/// `Decl {"," Decl}`, behind the first name, each of a height of at most `left`.
#[tactic(auto, unfolding(ix_grammar_rules::specs::Rule::run, ix_grammar_rules::specs::DeclRules::decls))]
pub fn decls(
    alloc: Global,
    cursor: &mut Cursor<'_>,
    left: u32,
    all: &Shared,
    name: Ident,
) -> Result<FoundDecls, Stop>
    requires { record {
      few : length cursor.old ≤ 200000;
      low : all.now.height ≤ 4;
      room : all.now.height + 1 ≤ left;
    } }
    ensures { record {
      reads : Follows (run (spec.decls the_init left all.now name) cursor.old) result cursor.new;
      no_longer : OnOk result (length cursor.new ≤ length cursor.old);
      fits : IfOk result (λ found. found.height ≤ left);
    } }
{
    let first = decl_behind(alloc, cursor, left, all, name)?;
    more_decls(alloc, cursor, left, all, first)
}

/// `{"," Decl}`, behind the first declarator
#[tactic(auto, unfolding(ix_grammar_rules::specs::Rule::run, ix_grammar_rules::specs::DeclRules::decl, ix_grammar_rules::specs::ListRules::next_of, ix_grammar_rules::specs::ListRules::more_of))]
fn more_decls(
    alloc: Global,
    cursor: &mut Cursor<'_>,
    left: u32,
    all: &Shared,
    first: FoundDecl,
) -> Result<FoundDecls, Stop>
    requires { record {
      few : length cursor.old ≤ 200000;
      low : all.now.height ≤ 4;
      room : all.now.height + 1 ≤ left;
      first : first.height ≤ left;
    } }
    ensures { record {
      reads : Follows (run (more_of (spec.decl the_init left all.now) nodes.with_decl (nodes.one_decl first)) cursor.old) result cursor.new;
      no_longer : OnOk result (length cursor.new ≤ length cursor.old);
      fits : IfOk result (λ found. found.height ≤ left);
    } }
{
    let mut found = one_decl(alloc, first)?;
    'reading: while let Some(_comma) = cursor.sign(COMMA) {
        cursor.advance();
        let name = cursor.take_name(alloc)?;
        let decl = decl_behind(alloc, cursor, left, all, name)?;
        found = with_decl(found, decl)?;
    }
    Ok(found)
}
