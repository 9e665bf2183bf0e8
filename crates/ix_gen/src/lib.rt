//! The workload of `bench`.
//!
//! What goes in: how many methods. What comes out: a source of one class with so many methods.
//! The contract: `specs/Workload.antt`, which writes the source out.
//! It stands on std alone, and never looks at what a checker makes of the source.
#![tactic(auto)]

ghost use Rattle.std.specs.Prelude.{◌≡◌, ◌≤◌, ◌++◌, IfOk, OnOk, string_bytes};
ghost use Rattle.ix_gen.specs.Workload as spec;

use std::alloc::{AllocError, Global};

/// Adds the line of the method of that number: by its remainder by 3, one that sums an array, one that reads its middle, or one that sums a window of it.
fn add_method(text: &mut String, number: u32) -> Result<(), AllocError>
    ensures { OnOk result (string_bytes text.new ≡ string_bytes text.old ++ spec.method number) }
{
    let left = number % 3;
    if left == 0 {
        write!(
            text,
            "  static int sum{number}(int[] a) {{ int s = 0; for (int i = 0; i < a.length; i++) s += a[i]; return s + {number}; }}\n"
        )
    } else if left == 1 {
        write!(
            text,
            "  static int mid{number}(int[] a, @IndexFor(\"#1\") int i) {{ int j = i / 2; return a[j] + {number}; }}\n"
        )
    } else {
        write!(
            text,
            "  static int win{number}(int[] a, @NonNegative @LTLengthOf(value=\"#1\", offset=\"#3 - 1\") int p, @NonNegative int n) {{ int s = 0; for (int k = 0; k < n; k++) s += a[p + k]; return s + {number}; }}\n"
        )
    }
}

/// The source of one class with that many methods. The one error is want of memory.
pub fn generate(alloc: Global, count: u32) -> Result<Vec<u8>, AllocError>
    ensures { IfOk result (λ bytes. bytes.items ≡ spec.workload count) }
{
    let mut text = String::from_str(alloc, "class G {\n")?;
    for number in 0..count {
        add_method(&mut text, number)?;
    }
    text.push_str("}\n")?;
    Ok(text.into_bytes())
}
