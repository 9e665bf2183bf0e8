//! The keys of the error rules.

ghost use Rattle.std.specs.Prelude.{◌≡◌, ◌≢◌, ◌↔◌, ℕ, List, All, IsTrue, IsNone, map, nat_eq, option_map};
ghost use Rattle.std.specs.Str.{bytes_eq};
ghost use Rattle.ix_tables.specs.Keys.{key_in, all_differ, rule_keys};

/// Rows of a rule's number and its key.
#[derive(Clone, Copy)]
pub struct KeyTable<const N: usize> {
    pub rows: [(u8, &'static str); N],
}

macro_rules! keys {
    ($($rule:literal $key:literal;)*) => {
        [$(($rule, $key),)*]
    };
}

/// The keys that reports print. No two rules have one number, and no two have one key.
pub fn key_table() -> KeyTable<18>
    ensures rows { map (λ r. (r.0, r.1.now)) result.rows ≡ rule_keys }
    ensures numbers { IsTrue (all_differ nat_eq (map (λ r. r.0) result.rows)) }
    ensures keys { IsTrue (all_differ bytes_eq (map (λ r. r.1.now) result.rows)) }
{
    KeyTable {
        rows: keys! {
            1 "access.low";
            2 "access.high";
            3 "length.negative";
            4 "assign.claim";
            5 "argument.claim";
            6 "return.claim";
            7 "field.claim";
            8 "field.dependent";
            9 "constructor.claim";
            10 "override.parameter";
            11 "override.result";
            12 "override.effect";
            13 "effect.write";
            14 "this.escapes";
            15 "named.parameter.assigned";
            16 "element.claim";
            17 "missing.return";
            18 "post.claim";
        },
    }
}

impl KeyTable<18> {
    /// The key of a rule: `None` exactly where no row has its number.
    pub fn key(&self, rule: u8) -> Option<&'static str>
        ensures value { option_map (λ s. s.now) result ≡ key_in (map (λ r. (r.0, r.1.now)) self.now.rows) rule }
        ensures none { IsNone result ↔ All (λ (r : ℕ × List ℕ). r.0 ≢ rule) (map (λ r. (r.0, r.1.now)) self.now.rows) }
    {
        key_among(&self.rows, rule)
    }
}

fn key_among(rows: &[(u8, &'static str)], rule: u8) -> Option<&'static str>
    ensures { option_map (λ s. s.now) result ≡ key_in (map (λ r. (r.0, r.1.now)) rows.now) rule }
{
    for row in rows {
        if row.0 == rule {
            return Some(row.1);
        }
    }
    None
}
