//! Whether facts name a path that is to change.

ghost use Rattle.std.specs.Prelude.{◌≡◌, IfSome, IfNone};
ghost use Rattle.ix_core.specs.declared.fact.Path.{Path};
ghost use Rattle.ix_facts.specs.Forget.{of_path};
ghost use Rattle.ix_facts.specs.After.{of_target};
ghost use Rattle.ix_fact_paths.specs.Spared.{some_named};

use crate::forget::{names_path, names_target};
use ix_core::{Fact, OpKind, Path};

/// The path that the operation changes, where it may change that path and what is in it, and no other; none exactly where no path is such (JLS 15.26). It
/// takes no memory.
pub fn assigned_path(kind: &OpKind) -> Option<Path>
    ensures target { IfSome result (λ target. (p : Path) → of_target kind.now p ≡ of_path target p) }
    ensures none { IfNone result ((target : Path) → ((p : Path) → of_target kind.now p ≡ of_path target p) → ⊥) }
{
    match kind {
        OpKind::Const(t, _)
        | OpKind::Copy(t, _, _)
        | OpKind::Num(t, _, _, _)
        | OpKind::Unary(t, _, _)
        | OpKind::Length(t, _)
        | OpKind::NewArray(t, _, _)
        | OpKind::Fill(t, _, _)
        | OpKind::Load(t, _, _, _) => Some(Path::Slot(*t)),
        OpKind::Store(_, _, _, _) => None,
        OpKind::ReadField(_, _, _) => None,
        OpKind::WriteField(_, _, _) => None,
        OpKind::NewObject(_) => None,
        OpKind::StaticCall(_) => None,
        OpKind::InstanceCall(_) => None,
        OpKind::SuperCall(_) => None,
        OpKind::Print(_) => None,
    }
}

/// Whether a fact names the path, or a field of the object in it. It takes no memory.
pub fn some_name_path(facts: &[Fact], path: &Path) -> bool
    ensures named { result ≡ some_named (of_path path.now) facts.now }
{
    for fact in facts {
        if names_path(path, fact) {
            return true;
        }
    }
    false
}

fn some_name_changed(facts: &[Fact], kind: &OpKind) -> bool
    ensures { result ≡ some_named (of_target kind.now) facts.now }
{
    for fact in facts {
        if names_target(kind, fact) {
            return true;
        }
    }
    false
}

/// Whether a fact names a path that the operation may change. To look for one path takes less than to ask the operation for each. It takes no memory.
pub fn some_name_target(facts: &[Fact], kind: &OpKind) -> bool
    ensures { result ≡ some_named (of_target kind.now) facts.now }
{
    match assigned_path(kind) {
        Some(path) => some_name_path(facts, &path),
        None => some_name_changed(facts, kind),
    }
}
