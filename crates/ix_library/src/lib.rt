//! The library in the subset: what a source is joined with.
//!
//! What goes in: the bytes of a source. What comes out: these, a line end and the library's lines.
//! The contract: `specs/Library.antt`, which writes the library out.
//! It stands on std alone, and never looks at what the source says.
#![tactic(auto)]

ghost use Rattle.std.specs.Prelude.{◌≡◌, IfOk};
ghost use Rattle.ix_library.specs.Library as spec;

use std::alloc::{AllocError, Global};

/// The library's lines.
static LIBRARY: &str = r##"class Math {
  @SideEffectFree static @LessThan({"#1 + 1", "#2 + 1"}) int min(int a, int b) {
    int r = a;
    if (b < r) r = b;
    return r;
  }
  @SideEffectFree static int max(int a, int b) {
    int r = a;
    if (b > r) r = b;
    return r;
  }
}
class Arrays {
  @SideEffectFree static int[] copyOf(int[] a, @NonNegative int n) {
    int[] r = new int[n];
    for (int i = 0; i < n && i < a.length; i++) r[i] = a[i];
    return r;
  }
  @SideEffectFree static void fill(int[] a, int v) {
    for (int i = 0; i < a.length; i++) a[i] = v;
  }
  @SideEffectFree static @SearchIndexFor("#1") int binarySearch(int[] a, int key) {
    int lo = 0;
    int hi = a.length - 1;
    while (lo <= hi) {
      int mid = lo + (hi - lo) / 2;
      if (a[mid] == key) return mid;
      if (a[mid] < key) lo = mid + 1; else hi = mid - 1;
    }
    return ~lo;
  }
}
"##;

/// The source, a line end and the library. The one error is want of memory.
pub fn joined(alloc: Global, source: &[u8]) -> Result<Vec<u8>, AllocError>
    ensures joined { IfOk result (λ bytes. bytes.items ≡ spec.joined source.now) }
{
    let mut bytes = Vec::new(alloc);
    bytes.extend_from_slice(source)?;
    bytes.push(b'\n')?;
    bytes.extend_from_slice(LIBRARY.as_bytes())?;
    Ok(bytes)
}
