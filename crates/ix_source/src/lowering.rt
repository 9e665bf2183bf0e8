//! Lowering, with what it keeps.
ghost use Rattle.std.specs.Prelude.{◌≡◌, ◌+◌, ◌<◌, ◌^◌, ℕ, List, Ok, Err, length, IfOk, IsErrOf};
ghost use Rattle.ix_core.specs.declared.fact.Profile.{Profile};
ghost use Rattle.ix_core.specs.Formed.{Formed};
ghost use Rattle.ix_core.specs.Safe.{Input, Begins};
ghost use Rattle.ix_formed.specs.Parsed.{IsParsed};
ghost use Rattle.ix_lower.specs.declared.source.LowerError.TheVariants as error;
ghost use Rattle.ix_meaning.specs.declared.note.Which.{Which};
ghost use Rattle.ix_meaning.specs.Resolved.{Accepts, names};
ghost use Rattle.ix_meaning.specs.Source.{members_in};
ghost use Rattle.ix_plain.specs.Program as spec;
ghost use Rattle.ix_source.specs.Whole.{IsKept, SafeUnlimited};
ghost use Rattle.ix_source.specs.Promise.{Enters, SafeSource};
ghost use Rattle.ix_symbols.specs.Numbered.{shown};

use ix_core::Program;
use ix_lower::{LowerError, lower};
use ix_symbols::Table;
use ix_tree::Unit;
use std::alloc::Global;

/// What `lower` answers, under its condition and with its refusals. Of a tree that `parse` answers, with the table of its names and without errors on them, the machine
/// does on the program what the source means.
pub fn lower_kept(alloc: Global, unit: &Unit, table: &Table) -> Result<Program, LowerError>
    requires { record {
      few_classes : length unit.now.classes < 2 ^ 32;
      few_members : members_in unit.now.classes + 1 < 2 ^ 32;
    } }
    ensures program { IfOk result (λ program. spec.program (shown table.now) unit.now.classes ≡ Ok program) }
    ensures limit { (which : Which) (place : ℕ) → IsErrOf result (error.Limit which place) → spec.program (shown table.now) unit.now.classes ≡ Err (record { which = which; place = place }) }
    ensures formed { IsParsed unit.now → Accepts unit.now → shown table.now ≡ names unit.now → IfOk result (λ program. Formed program) }
    ensures kept { IsParsed unit.now → Accepts unit.now → shown table.now ≡ names unit.now → IfOk result (λ program. IsKept unit.now program) }

    // So the promise in the source's words says no less than that on the machine: what begins there enters the source, and where the source is safe, no run without limits is bad.
    ensures entered { IsParsed unit.now → Accepts unit.now → shown table.now ≡ names unit.now
        → IfOk result (λ program. (method : ℕ) (inputs : List Input) → Begins program method inputs → Enters unit.now method inputs) }
    ensures safe_machine { IsParsed unit.now → Accepts unit.now → shown table.now ≡ names unit.now
        → IfOk result (λ program. (profile : Profile) → SafeSource profile unit.now → SafeUnlimited program profile) }
{
    lower(alloc, unit, table)
}
