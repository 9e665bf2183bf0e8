//! Copies of types and modifiers: each declarator of a declaration holds its own.
ghost use Rattle.std.specs.Prelude.{◌≡◌, MatchResult};
ghost use Rattle.ix_grammar_rules.specs.declared.stop.Stop.TheVariants.{Memory};

use ix_grammar_rules::stop::Stop;
use ix_text::{List, Text};
use ix_tree::{Annot, AnnotArg, AnnotValue, BaseTree, Ident, Mods, TypeTree};
use std::alloc::Global;

fn copy_ident(ident: &Ident) -> Result<Ident, Stop>
    ensures { MatchResult result (λ copy. copy ≡ ident.now) (λ stop. stop ≡ Memory) }
{
    let text = ident.text.clone()?;
    Ok(Ident {
        text,
        span: ident.span,
    })
}

fn copy_texts(alloc: Global, texts: &[Text]) -> Result<List<Text>, Stop>
    ensures { MatchResult result (λ copy. copy ≡ texts.now) (λ stop. stop ≡ Memory) }
{
    let mut copy = List::new(alloc);
    for text in texts {
        copy.push(text.clone()?)?;
    }
    Ok(copy)
}

fn copy_value(alloc: Global, value: &AnnotValue) -> Result<AnnotValue, Stop>
    ensures { MatchResult result (λ copy. copy ≡ value.now) (λ stop. stop ≡ Memory) }
{
    match value {
        AnnotValue::Number(number) => Ok(AnnotValue::Number(*number)),
        AnnotValue::Truth(truth) => Ok(AnnotValue::Truth(*truth)),
        AnnotValue::Texts(texts) => {
            let texts = copy_texts(alloc, texts.as_slice())?;
            Ok(AnnotValue::Texts(texts))
        }
    }
}

/// A copy of the name of an argument, where it has one.
fn copy_name(name: &Option<Ident>) -> Result<Option<Ident>, Stop>
    ensures { MatchResult result (λ copy. copy ≡ name.now) (λ stop. stop ≡ Memory) }
{
    match name {
        None => Ok(None),
        Some(name) => {
            let name = copy_ident(name)?;
            Ok(Some(name))
        }
    }
}

fn copy_arg(alloc: Global, arg: &AnnotArg) -> Result<AnnotArg, Stop>
    ensures { MatchResult result (λ copy. copy ≡ arg.now) (λ stop. stop ≡ Memory) }
{
    let name = copy_name(&arg.name)?;
    let value = copy_value(alloc, &arg.value)?;
    Ok(AnnotArg {
        name,
        value,
        span: arg.span,
    })
}

fn copy_args(alloc: Global, args: &[AnnotArg]) -> Result<List<AnnotArg>, Stop>
    ensures { MatchResult result (λ copy. copy ≡ args.now) (λ stop. stop ≡ Memory) }
{
    let mut copy = List::new(alloc);
    for arg in args {
        copy.push(copy_arg(alloc, arg)?)?;
    }
    Ok(copy)
}

fn copy_annot(alloc: Global, annot: &Annot) -> Result<Annot, Stop>
    ensures { MatchResult result (λ copy. copy ≡ annot.now) (λ stop. stop ≡ Memory) }
{
    let name = copy_ident(&annot.name)?;
    let args = copy_args(alloc, annot.args.as_slice())?;
    Ok(Annot {
        name,
        args,
        span: annot.span,
    })
}

fn copy_annots(alloc: Global, annots: &[Annot]) -> Result<List<Annot>, Stop>
    ensures { MatchResult result (λ copy. copy ≡ annots.now) (λ stop. stop ≡ Memory) }
{
    let mut copy = List::new(alloc);
    for annot in annots {
        copy.push(copy_annot(alloc, annot)?)?;
    }
    Ok(copy)
}

fn copy_base(base: &BaseTree) -> Result<BaseTree, Stop>
    ensures { MatchResult result (λ copy. copy ≡ base.now) (λ stop. stop ≡ Memory) }
{
    match base {
        BaseTree::Int => Ok(BaseTree::Int),
        BaseTree::Boolean => Ok(BaseTree::Boolean),
        BaseTree::Named(name) => {
            let name = copy_ident(name)?;
            Ok(BaseTree::Named(name))
        }
    }
}

pub fn copy_type(alloc: Global, ty: &TypeTree) -> Result<TypeTree, Stop>
    ensures { MatchResult result (λ copy. copy ≡ ty.now) (λ stop. stop ≡ Memory) }
{
    let base = copy_base(&ty.base)?;
    let annots = copy_annots(alloc, ty.annots.as_slice())?;
    Ok(TypeTree {
        base,
        annots,
        depth: ty.depth,
        span: ty.span,
    })
}

pub fn copy_mods(alloc: Global, mods: &Mods) -> Result<Mods, Stop>
    ensures { MatchResult result (λ copy. copy ≡ mods.now) (λ stop. stop ≡ Memory) }
{
    let annots = copy_annots(alloc, mods.annots.as_slice())?;
    Ok(Mods {
        is_static: mods.is_static,
        is_final: mods.is_final,
        is_private: mods.is_private,
        annots,
    })
}
