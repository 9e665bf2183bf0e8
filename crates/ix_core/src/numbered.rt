//! Paths as numbers.

ghost use Rattle.std.specs.Prelude.{◌≡◌, ◌↔◌, ◌≤◌, IsNone, IfSome, Some};
ghost use Rattle.ix_core.specs.declared.fact.Path.{Path};
ghost use Rattle.ix_core.specs.PathNumber as numbers;

use crate::fact::Path;

/// The number of a path whose slot is at most 511.
pub fn path_number(path: &Path) -> u64
    requires slot { numbers.slot_of path.now ≤ 511 }
    ensures number { result ≡ numbers.path_number path.now }
{
    match *path {
        Path::Slot(slot) => u64::from(slot),
        Path::FieldOf(slot, field) => (u64::from(slot) + 1) * 4294967296 + u64::from(field),
    }
}

/// The path of a number, so that each path comes back from its own; none where no path whose slot is at most 511 has the number.
pub fn path_of(number: u64) -> Option<Path>
    ensures back { (path : Path) → numbers.IsNumbered path → numbers.path_number path ≡ number → result ≡ Some path }
    ensures path { IfSome result (λ path. numbers.IsNumbered path × (numbers.path_number path ≡ number)) }
    ensures none { IsNone result ↔ ¬ numbers.HasPath number }
{
    if number <= 511 {
        return Some(Path::Slot(number as u32));
    }
    let row = number / 4294967296;
    if row < 1 || row > 512 {
        return None;
    }
    Some(Path::FieldOf((row - 1) as u32, (number % 4294967296) as u32))
}
