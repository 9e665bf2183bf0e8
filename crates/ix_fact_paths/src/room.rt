//! Room for lists of facts.

ghost use Rattle.std.specs.Prelude.{◌≤◌};

/// In which steps room for many facts grows.
const STEP: usize = 8192;

/// Room for so many facts, and where they are many for some more: the list of the next step, which is a little longer, then asks for as much, so that it takes the memory
/// that this one gave back, where a system hands out new pages for what is larger than all before. It is for speed alone.
pub fn room_for(count: usize) -> usize
    ensures { count ≤ result }
{
    if count < STEP {
        return count;
    }
    count.saturating_add(STEP - count % STEP)
}
