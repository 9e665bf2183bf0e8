//! Arrays that have the same length because one int is the length of both.

ghost use Rattle.std.specs.Prelude.{◌≡◌, ◌++◌, ◌∷◌, [], List, IfOk, OnOk, option_to_list};
ghost use Rattle.ix_core.specs.declared.fact.Fact.{Fact};
ghost use Rattle.ix_fact_table.specs.Links.{first_of, link, with_first, links};

use ix_core::{Fact, Path};
use ix_facts::is_same_path;
use std::alloc::{AllocError, Global};

fn first(firsts: &[(Path, Path)], p: &Path) -> Option<Path>
    ensures { result ≡ first_of firsts.now p.now }
{
    for entry in firsts {
        if is_same_path(&entry.0, p) {
            return Some(entry.1);
        }
    }
    None
}

fn push_length(
    firsts: &mut Vec<(Path, Path)>,
    found: &mut Vec<Fact>,
    p: &Path,
    a: &Path,
) -> Result<(), AllocError>
    ensures { record {
      found : OnOk result (found.new.items ≡ found.old.items ++ link (first_of firsts.old.items p.now) a.now);
      firsts : OnOk result (firsts.new.items ≡ with_first (first_of firsts.old.items p.now) firsts.old.items p.now a.now);
    } }
{
    match first(firsts, p) {
        Some(b) => found.push(Fact::Same(b, *a)).map_err(AllocError::from),
        None => firsts.push((*p, *a)).map_err(AllocError::from),
    }
}

fn push_link(
    firsts: &mut Vec<(Path, Path)>,
    found: &mut Vec<Fact>,
    fact: &Fact,
) -> Result<(), AllocError>
    ensures { OnOk result ((rest : List Fact) → found.new.items ++ links firsts.new.items rest ≡ found.old.items ++ links firsts.old.items (fact.now ∷ rest)) }
{
    match *fact {
        Fact::IsLen(p, a) => push_length(firsts, found, &p, &a),
        _ => Ok(()),
    }
}

/// Each array of which an int is the length, with the first array of which it is the length.
pub(crate) fn length_links(alloc: Global, facts: &[Fact]) -> Result<Vec<Fact>, AllocError>
    ensures links { IfOk result (λ found. found.items ≡ links [] facts.now) }
{
    let mut firsts = Vec::new(alloc);
    let mut found = Vec::new(alloc);
    for fact in facts {
        push_link(&mut firsts, &mut found, fact)?;
    }
    Ok(found)
}
