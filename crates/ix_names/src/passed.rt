//! A limit that is passed.

ghost use Rattle.std.specs.Prelude.{◌≡◌, option_map};
ghost use Rattle.ix_annot.specs.Named.{or_else};
ghost use Rattle.ix_meaning.specs.Limits as spec;
ghost use Rattle.ix_names.specs.Shown.{shown};

use ix_meaning::Which;
use ix_tree::Ident;

/// A limit, and the place that passes it.
#[derive(Clone, Copy)]
pub struct Passed {
    pub which: Which,
    pub place: u32,
}

pub fn passed_at(which: Which, name: &Ident) -> Passed
    ensures { shown result ≡ spec.passed which name.now }
{
    Passed {
        which,
        place: name.span.from,
    }
}
