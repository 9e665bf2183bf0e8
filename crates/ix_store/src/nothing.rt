//! Facts of which there are none.

ghost use Rattle.std.specs.Prelude.{◌≡◌};

use ix_bounds::Groups;
use ix_core::{Fact, Path};

/// No facts.
pub(crate) struct NoFacts;

impl Groups for NoFacts {
    ghost use Rattle.std.specs.Prelude.{[], refl};

    ghost all = { λ none. [] };

    ghost group = { λ none p. [] };

    fn on_path(&self, _p: &Path) -> &[Fact] {
        &[]
    }

    ghost ends = { λ none p. [] };

    fn ends_on(&self, _p: &Path) -> &[Fact] {
        &[]
    }

    ghost links = { λ none p. [] };

    fn links_on(&self, _p: &Path) -> &[Fact] {
        &[]
    }

    ghost lengths = { λ none p. [] };

    fn lengths_on(&self, _p: &Path) -> &[Fact] {
        &[]
    }

    fn fact_less(&self, _p: &Path, _q: &Path) -> Option<i64> {
        None
    }

    ghost named = { λ none p. refl };

    ghost named_ends = { λ none p. refl };

    ghost named_links = { λ none p. refl };

    ghost named_lengths = { λ none p. refl };

    ghost only = { λ none p f i. i };
}
