//! The lines of facts, written.

ghost use Rattle.std.specs.Prelude.{◌≡◌, ◌++◌, map, IfOk, OnOk, string_bytes};
ghost use Rattle.ix_cert.specs.Lines.{AreLinesOf, fact_text, lines_text};
ghost use Rattle.ix_cert.specs.Adding.{AddsStore};
ghost use Rattle.ix_facts.specs.Stores.{Reached};

use crate::line::add_fact;
use ix_core::Fact;
use std::alloc::{AllocError, Global};

/// A fact's line, without its end.
pub(crate) fn fact_line(alloc: Global, fact: &Fact) -> Result<String, AllocError>
    ensures { IfOk result (λ line. string_bytes line ≡ fact_text fact.now) }
{
    let mut line = String::new(alloc);
    add_fact(alloc, &mut line, fact).and(Ok(line))
}

fn each_line(alloc: Global, facts: &[Fact]) -> Result<Vec<String>, AllocError>
    ensures { IfOk result (λ lines. map string_bytes lines.items ≡ map fact_text facts.now) }
{
    let mut lines = Vec::new(alloc);
    for fact in facts {
        lines.push(fact_line(alloc, fact)?)?;
    }
    Ok(lines)
}

/// The lines of facts in the order of their bytes, each once.
pub(crate) fn fact_lines(alloc: Global, facts: &[Fact]) -> Result<Vec<String>, AllocError>
    ensures { IfOk result (λ lines. AreLinesOf facts.now (map string_bytes lines.items)) }
{
    let mut lines = each_line(alloc, facts)?;
    lines.sort_unstable();
    lines.dedup();
    Ok(lines)
}

fn add_each(text: &mut String, lines: &[String]) -> Result<(), AllocError>
    ensures { OnOk result (string_bytes text.new ≡ string_bytes text.old ++ lines_text (map string_bytes lines.now)) }
{
    for line in lines {
        text.push_str(line.as_str()).and(text.push_str("\n"))?;
    }
    Ok(())
}

/// Adds the lines of facts.
pub(crate) fn add_lines(alloc: Global, text: &mut String, facts: &[Fact]) -> Result<(), AllocError>
    ensures { OnOk result (AddsStore (Reached facts.now) (string_bytes text.old) (string_bytes text.new)) }
{
    let lines = fact_lines(alloc, facts)?;
    add_each(text, lines.as_slice())
}
