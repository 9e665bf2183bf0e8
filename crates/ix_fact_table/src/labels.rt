//! What facts say of one array, said of all of its length.

ghost use Rattle.std.specs.Prelude.{◌≡◌, ◌++◌, ◌∷◌, [], IfOk, OnOk};
ghost use Rattle.ix_core.specs.declared.fact.Fact.TheVariants.{Same};
ghost use Rattle.ix_facts.specs.Bounds.{is_path};
ghost use Rattle.ix_facts.specs.Exact.{if_so, each, each_path};
ghost use Rattle.ix_fact_table.specs.Classes.{root_of};
ghost use Rattle.ix_fact_table.specs.Listed.{labels_of, said_of, over_class};
ghost use Rattle.ix_fact_table.specs.Saturated.{of_class, along};

use crate::classes::Classes;
use ix_core::{Fact, Path};
use ix_facts::is_same_path;
use std::alloc::{AllocError, Global};

/// Each array with what stands for its class.
pub(crate) fn labelled(
    alloc: Global,
    classes: &Classes,
    arrays: &[Path],
) -> Result<Vec<(Path, Path)>, AllocError>
    ensures { IfOk result (λ labels. labels.items ≡ labels_of classes.now arrays.now) }
{
    let mut labels = Vec::with_capacity(alloc, arrays.len())?;
    for a in arrays {
        labels.push_reserved((*a, classes.root(a)));
    }
    Ok(labels)
}

/// A fact of an array, said of another.
fn said_of_other(fact: &Fact, b: &Path) -> Fact
    ensures { result ≡ said_of fact.now b.now }
{
    match *fact {
        Fact::LenRng(_, l, h) => Fact::LenRng(*b, l, h),
        Fact::Same(a, _) => Fact::Same(a, *b),
        Fact::IsLen(p, _) => Fact::IsLen(p, *b),
        Fact::Search(p, _) => Fact::Search(p, *b),
        Fact::Neg(p, _) => Fact::Neg(p, *b),
        _ => *fact,
    }
}

fn push_said(
    out: &mut Vec<Fact>,
    label: &(Path, Path),
    root: &Path,
    fact: &Fact,
) -> Result<(), AllocError>
    ensures { OnOk result (out.new.items ≡ out.old.items ++ if_so (is_path label.now.1 root.now) (said_of fact.now label.now.0 ∷ [])) }
{
    if !is_same_path(&label.1, root) {
        return Ok(());
    }
    out.push(said_of_other(fact, &label.0))
        .map_err(AllocError::from)
}

fn push_over_class(
    out: &mut Vec<Fact>,
    labels: &[(Path, Path)],
    root: &Path,
    fact: &Fact,
) -> Result<(), AllocError>
    ensures { OnOk result (out.new.items ≡ out.old.items ++ over_class root.now fact.now labels.now) }
{
    for label in labels {
        push_said(out, label, root, fact)?;
    }
    Ok(())
}

/// What the fact says of a, said of each listed array of its class.
fn push_of_class(
    out: &mut Vec<Fact>,
    classes: &Classes,
    arrays: &[Path],
    labels: &[(Path, Path)],
    a: &Path,
    fact: &Fact,
) -> Result<(), AllocError>
    requires labels { labels.now ≡ labels_of classes.now arrays.now }
    ensures { OnOk result (out.new.items ≡ out.old.items ++ of_class classes.now arrays.now (said_of fact.now) a.now) }
{
    let root = classes.root(a);
    push_over_class(out, labels, &root, fact)
}

/// Any two listed arrays of one class have the same length.
pub(crate) fn push_pairs(
    out: &mut Vec<Fact>,
    classes: &Classes,
    arrays: &[Path],
    labels: &[(Path, Path)],
    firsts: &[Path],
) -> Result<(), AllocError>
    requires labels { labels.now ≡ labels_of classes.now arrays.now }
    ensures { OnOk result (out.new.items ≡ out.old.items ++ each_path (λ a. of_class classes.now arrays.now (Same a) a) firsts.now) }
{
    for a in firsts {
        push_of_class(out, classes, arrays, labels, a, &Fact::Same(*a, *a))?;
    }
    Ok(())
}

fn push_along_by(
    out: &mut Vec<Fact>,
    classes: &Classes,
    arrays: &[Path],
    labels: &[(Path, Path)],
    fact: &Fact,
) -> Result<(), AllocError>
    requires labels { labels.now ≡ labels_of classes.now arrays.now }
    ensures { OnOk result (out.new.items ≡ out.old.items ++ along classes.now arrays.now fact.now) }
{
    match fact {
        Fact::LenRng(a, _, _) => push_of_class(out, classes, arrays, labels, a, fact),
        Fact::IsLen(_, a) => push_of_class(out, classes, arrays, labels, a, fact),
        Fact::Search(_, a) => push_of_class(out, classes, arrays, labels, a, fact),
        Fact::Neg(_, a) => push_of_class(out, classes, arrays, labels, a, fact),
        _ => Ok(()),
    }
}

/// What is known of a length, of each listed array of that length.
pub(crate) fn push_along(
    out: &mut Vec<Fact>,
    classes: &Classes,
    arrays: &[Path],
    labels: &[(Path, Path)],
    facts: &[Fact],
) -> Result<(), AllocError>
    requires labels { labels.now ≡ labels_of classes.now arrays.now }
    ensures { OnOk result (out.new.items ≡ out.old.items ++ each (along classes.now arrays.now) facts.now) }
{
    for fact in facts {
        push_along_by(out, classes, arrays, labels, fact)?;
    }
    Ok(())
}
