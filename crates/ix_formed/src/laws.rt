//! The laws, as contracts of functions that do nothing.

ghost use Rattle.std.specs.Prelude.{◌≡◌, ◌<◌, ◌^◌, length, Ok};
ghost use Rattle.ix_core.specs.declared.program.Program.{Program};
ghost use Rattle.ix_tree.specs.declared.decl.Unit.{Unit as Source};
ghost use Rattle.ix_meaning.specs.Resolved.{Accepts, names};
ghost use Rattle.ix_plain.specs.Program.{program};
ghost use Rattle.ix_formed.specs.Parsed.{IsParsed};
ghost use Rattle.ix_core.specs.Ready.{HasFew, LocalsApart};

/// A claim on a local names locals in scope, and each of these has a slot of its own.
pub fn lowered_locals_are_apart()
    ensures apart { (source : Source) (made : Program) → Accepts source → IsParsed source → program (names source) source.classes ≡ Ok made → LocalsApart made }
{}

/// Methods, locals and fields can be counted with 32 bits, since a source in which names can be looked up declares few.
pub fn lowered_is_few()
    ensures methods { (source : Source) (made : Program) → Accepts source → IsParsed source → program (names source) source.classes ≡ Ok made → length made.methods < 2 ^ 32 }
    ensures few { (source : Source) (made : Program) → Accepts source → IsParsed source → program (names source) source.classes ≡ Ok made → HasFew made }
{}
