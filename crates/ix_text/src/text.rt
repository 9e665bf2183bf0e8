ghost use Rattle.std.specs.Prelude.{◌≡◌, IfOk, string_bytes};

use std::alloc::{AllocError, Global};
use std::marker::Model;

/// A text that is owned. A clause sees the list of its bytes, which are UTF-8.
pub struct Text {
    bytes: String,
}

impl Drop for Text {
    fn drop(self) {
        match self {
            Text { bytes } => drop(bytes),
        }
    }
}

impl Model for Text {
    ghost use Rattle.std.specs.Prelude.{ℕ, List as Elements, string_bytes};

    ghost Value = { Elements ℕ };

    ghost view = { λ text. string_bytes text.bytes };
}

impl Text {
    /// A copy of the text. The one error is want of memory.
    pub fn from_str(alloc: Global, text: &str) -> Result<Text, AllocError>
        ensures { IfOk result (λ copy. copy ≡ text.now) }
    {
        let bytes = String::from_str(alloc, text)?;
        Ok(Text { bytes })
    }

    /// The string as a text, with no copy.
    pub fn from_string(bytes: String) -> Text
        ensures { result ≡ string_bytes bytes }
    {
        Text { bytes }
    }

    /// The text, lent.
    pub fn as_str(&self) -> &str
        ensures { result.now ≡ self.now }
    {
        self.bytes.as_str()
    }
}

impl PartialEq for Text {
    ghost use Rattle.std.specs.Prelude.{nat_eq};
    ghost use Rattle.std.specs.Cmp.{partial_equiv_from_equiv};
    ghost use Rattle.std.specs.Cmp.Lexicographic.{pointwise, nat_list_eq_equiv};

    ghost eq = { pointwise nat_eq };

    ghost laws = { partial_equiv_from_equiv nat_list_eq_equiv };

    fn eq(&self, other: &Self) -> bool {
        self.bytes.as_str() == other.bytes.as_str()
    }
}

impl Eq for Text {
    ghost use Rattle.std.specs.Cmp.Lexicographic.{nat_list_eq_equiv};

    ghost laws = { nat_list_eq_equiv };
}

impl Clone for Text {
    ghost use Rattle.std.specs.Prelude.{◌≡◌};

    ghost is_clone = { λ a b. a ≡ b };

    fn clone(&self) -> Result<Text, AllocError> {
        let bytes = self.bytes.clone()?;
        Ok(Text { bytes })
    }
}
