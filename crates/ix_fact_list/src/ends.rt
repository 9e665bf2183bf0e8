//! Ranges, classes and lengths among facts; where they stand, and where differences and lengths do.

ghost use Rattle.std.specs.Prelude.{◌≡◌, ◌≤◌, true, false, IfOk, IfSome, slice_get, length, take, drop};
ghost use Rattle.ix_bounds.specs.Ends.{is_end, ends_in};
ghost use Rattle.ix_bounds.specs.Links.{is_link, links_in};

use ix_core::Fact;
use std::alloc::{AllocError, Global};

fn is_end(fact: &Fact) -> bool
    ensures { result ≡ is_end fact.now }
{
    match *fact {
        Fact::Rng(_, _, _) | Fact::LenRng(_, _, _) | Fact::Low(_, _) | Fact::IsLen(_, _) => true,
        _ => false,
    }
}

fn is_link(fact: &Fact) -> bool
    ensures { result ≡ is_link fact.now }
{
    match *fact {
        Fact::IsLen(_, _) | Fact::Less(_, _, _) => true,
        _ => false,
    }
}

/// The ranges, classes and lengths among the facts.
pub(crate) fn ends_of(alloc: Global, facts: &[Fact]) -> Result<Vec<Fact>, AllocError>
    ensures ends { IfOk result (λ ends. ends.items ≡ ends_in facts.now) }
{
    let mut ends = Vec::new(alloc);
    for fact in facts {
        if is_end(fact) {
            ends.push(*fact)?;
        }
    }
    Ok(ends)
}

/// How many facts stand up to this one, if it is a range, a class or a length, and else up to the last one before it.
fn up_to_end(fact: &Fact, seen: usize, last: usize) -> usize
    ensures { record {
      here : is_end fact.now ≡ true → result ≡ seen;
      before : is_end fact.now ≡ false → result ≡ last;
    } }
{
    if is_end(fact) { seen } else { last }
}

/// How many facts stand up to the last range, class or length.
pub fn up_to_ends(facts: &[Fact]) -> usize
    ensures { record {
      within : result ≤ length facts.now;
      ends : ends_in (take result facts.now) ≡ ends_in facts.now;
    } }
{
    let mut seen = 0;
    let mut last = 0;
    for fact in facts {
        seen += 1;
        last = up_to_end(fact, seen, last);
    }
    last
}

/// How many facts stand before the first difference or length.
pub fn before_links(facts: &[Fact]) -> usize
    ensures { record {
      within : result ≤ length facts.now;
      links : links_in (drop result facts.now) ≡ links_in facts.now;
      first : IfSome (slice_get facts.now result) (λ fact. is_link fact ≡ true);
    } }
{
    let mut seen = 0;
    for fact in facts {
        if is_link(fact) {
            return seen;
        }
        seen += 1;
    }
    seen
}
