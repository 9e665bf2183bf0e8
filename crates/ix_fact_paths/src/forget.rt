//! Which facts name the paths that a step may change.

ghost use Rattle.std.specs.Prelude.{◌≡◌};
ghost use Rattle.ix_facts.specs.Forget.{of_path, offset_names, names};
ghost use Rattle.ix_facts.specs.After.{of_target};

use ix_core::{Fact, OpKind, Path, PathOff};

/// Whether the second path is the first, or a field of the object in it.
pub fn is_of_path(path: &Path, p: &Path) -> bool
    ensures { result ≡ of_path path.now p.now }
{
    match (*path, *p) {
        (Path::Slot(t), Path::Slot(s)) => s == t,
        (Path::Slot(t), Path::FieldOf(s, _)) => s == t,
        (Path::FieldOf(_, _), Path::Slot(_)) => false,
        (Path::FieldOf(t, g), Path::FieldOf(s, f)) => s == t && f == g,
    }
}

/// Whether an operation may change the path.
pub fn is_of_target(kind: &OpKind, p: &Path) -> bool
    ensures { result ≡ of_target kind.now p.now }
{
    match kind {
        OpKind::Const(t, _)
        | OpKind::Copy(t, _, _)
        | OpKind::Num(t, _, _, _)
        | OpKind::Unary(t, _, _)
        | OpKind::Length(t, _)
        | OpKind::NewArray(t, _, _)
        | OpKind::Fill(t, _, _)
        | OpKind::Load(t, _, _, _) => is_of_path(&Path::Slot(*t), p),
        OpKind::Store(_, _, _, _) | OpKind::Print(_) => false,
        _ => true,
    }
}

fn offset_names_path(path: &Path, offset: &PathOff) -> bool
    ensures { result ≡ offset_names (of_path path.now) offset.now }
{
    match offset {
        PathOff::Nothing => false,
        PathOff::Plus(q) | PathOff::Minus(q) => is_of_path(path, q),
    }
}

/// Whether the fact names the path, or a field of the object in it.
pub fn names_path(path: &Path, fact: &Fact) -> bool
    ensures { result ≡ names (of_path path.now) fact.now }
{
    match fact {
        Fact::Rng(p, _, _) | Fact::LenRng(p, _, _) | Fact::Low(p, _) => is_of_path(path, p),
        Fact::Same(p, q)
        | Fact::IsLen(p, q)
        | Fact::Less(p, q, _)
        | Fact::Search(p, q)
        | Fact::Neg(p, q) => is_of_path(path, p) || is_of_path(path, q),
        Fact::Sum(t, y, z) => {
            is_of_path(path, t) || (is_of_path(path, y) || is_of_path(path, z))
        }
        Fact::Upper(p, a, offset, _) => {
            is_of_path(path, p) || (is_of_path(path, a) || offset_names_path(path, offset))
        }
    }
}

fn offset_names_target(kind: &OpKind, offset: &PathOff) -> bool
    ensures { result ≡ offset_names (of_target kind.now) offset.now }
{
    match offset {
        PathOff::Nothing => false,
        PathOff::Plus(q) | PathOff::Minus(q) => is_of_target(kind, q),
    }
}

/// Whether the fact names a path that the operation may change.
pub fn names_target(kind: &OpKind, fact: &Fact) -> bool
    ensures { result ≡ names (of_target kind.now) fact.now }
{
    match fact {
        Fact::Rng(p, _, _) | Fact::LenRng(p, _, _) | Fact::Low(p, _) => is_of_target(kind, p),
        Fact::Same(p, q)
        | Fact::IsLen(p, q)
        | Fact::Less(p, q, _)
        | Fact::Search(p, q)
        | Fact::Neg(p, q) => is_of_target(kind, p) || is_of_target(kind, q),
        Fact::Sum(t, y, z) => {
            is_of_target(kind, t) || (is_of_target(kind, y) || is_of_target(kind, z))
        }
        Fact::Upper(p, a, offset, _) => {
            is_of_target(kind, p) || (is_of_target(kind, a) || offset_names_target(kind, offset))
        }
    }
}
