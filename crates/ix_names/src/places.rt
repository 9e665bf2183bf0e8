//! What names mean in a member that declares no parameters.

ghost use Rattle.std.specs.Prelude.{◌≡◌};
ghost use Rattle.ix_class_members.specs.declared.world.World.{World as Tables};
ghost use Rattle.ix_expression_types.specs.Here.{here};
ghost use Rattle.ix_class_members.specs.World.{shown};
ghost use Rattle.ix_names.specs.Declarations.{member_scope};

use indexmap::IndexMap;
use ix_expression_types::Scopes;
use ix_text::List;
use smallvec::SmallVec;
use std::alloc::Global;

/// The scope of a member of that class that declares no parameters.
pub fn member_scopes<'a>(alloc: Global, class: u32, has_object: bool) -> Scopes<'a>
    ensures { (w : Tables) → here w result ≡ member_scope (shown w) class has_object }
{
    Scopes {
        class,
        has_object,
        in_constructor: false,
        in_loop: false,
        names_fields: has_object,
        result: None,
        pending: None,
        params: List::new(alloc),
        locals: IndexMap::new(alloc),
        marks: SmallVec::new(alloc),
        next: 0,
    }
}
