//! What the bytes of a file turn out to be.
ghost use Rattle.std.specs.Prelude.{◌≡◌, ◌≤◌, ℕ, length, option_map, drop, IfOk};
ghost use Rattle.ix_core.specs.Formed.{Formed};
ghost use Rattle.ix_lexer.specs.Spans.{InOrder};
ghost use Rattle.ix_meaning.specs.Resolved.{Accepts, names};
ghost use Rattle.ix_symbols.specs.Numbered.{shown};
ghost use Rattle.ix_grammar.specs.Refusals.{IsWithin as TokenWithin};
ghost use Rattle.ix_tree.specs.Placed.{Placed};
ghost use Rattle.ix_formed.specs.Parsed.{IsParsed};
ghost use Rattle.ix_formed.specs.IntTokens.{HaveInts};
ghost use Rattle.ix_front.specs.Found as spec;
ghost use Rattle.ix_front.specs.Findings.{seen, IsPlaced, HasFormed};

use ix_core::Program;
use ix_formed::{lowered_is_few, lowered_locals_are_apart};
use ix_grammar::error::ParseError;
use ix_lexer::{LexError, Token, lex};
use ix_meaning::{NameError, NameErrors};
use ix_names::resolve;
use ix_outside::MOST_BYTES;
use ix_parser::parse;
use ix_report::limit_name;
use ix_source::{LowerError, lower_kept};
use ix_symbols::Table;
use ix_text::List;
use ix_tree::Unit;
use std::alloc::{AllocError, Global};

/// What the bytes of a file turn out to be.
pub enum Finding {
    /// More bytes than a source may have.
    TooLong,
    /// A lexical error or a syntax error at a byte, by its key.
    Broken(u32, &'static str),
    /// A limit that is passed at a byte, by its name.
    Past(u32, &'static str),
    /// Errors on names, types and annotations, as they are listed.
    Misnamed(List<NameError>),
    /// A source without these: its program.
    Whole(Program),
}

impl Drop for Finding {
    fn drop(self) {
        match self {
            Finding::TooLong => {}
            Finding::Broken(_, _) => {}
            Finding::Past(_, _) => {}
            Finding::Misnamed(errors) => drop(errors),
            Finding::Whole(program) => drop(program),
        }
    }
}

/// What a text without tokens is; nothing where memory is wanting.
fn of_lex_error(why: LexError) -> Option<Finding>
    ensures { option_map seen result ≡ spec.of_lex_error why }
{
    match why {
        LexError::BadUtf8(at) => Some(Finding::Broken(at, "bad.utf8")),
        LexError::BadChar(at) => Some(Finding::Broken(at, "bad.character")),
        LexError::OpenComment(at) => Some(Finding::Broken(at, "open.comment")),
        LexError::OpenString(at) => Some(Finding::Broken(at, "open.string")),
        LexError::BadNumber(at) => Some(Finding::Broken(at, "bad.number")),
        LexError::TooMany(at) => Some(Finding::Past(at, "tokens")),
        LexError::Memory => None,
    }
}

/// Where the token of that number starts, or the end of the text.
fn start_of(tokens: &[Token], number: u32, end: u32) -> u32
    requires { record {
      few : length tokens.now ≤ 200000;
      within : number ≤ length tokens.now;
    } }
    ensures { result ≡ spec.start_of (drop number tokens.now) end }
{
    match &tokens[number as usize..] {
        [] => end,
        [token, ..] => token.span.from,
    }
}

/// What tokens without a tree are; nothing where memory is wanting.
fn of_parse_error(tokens: &[Token], end: u32, why: ParseError) -> Option<Finding>
    requires { record {
      few : length tokens.now ≤ 200000;
      within : TokenWithin (length tokens.now) end why;
    } }
    ensures { option_map seen result ≡ spec.of_parse_error tokens.now end why }
{
    match why {
        ParseError::Syntax(number) => {
            Some(Finding::Broken(start_of(tokens, number, end), "syntax"))
        }
        ParseError::TooDeep(from) => Some(Finding::Past(from, "height")),
        ParseError::Memory => None,
    }
}

/// What a source is whose names have errors; nothing where memory is wanting.
fn of_name_errors(why: NameErrors) -> Option<Finding>
    ensures { option_map seen result ≡ spec.of_name_errors why }
{
    match why {
        NameErrors::Errors(errors) => Some(Finding::Misnamed(errors)),
        NameErrors::Limit(which, place) => Some(Finding::Past(place, limit_name(which))),
        NameErrors::Memory => None,
    }
}

/// What a source without a plain form is; nothing where memory is wanting.
fn of_lower_error(why: LowerError) -> Option<Finding>
    ensures { option_map seen result ≡ spec.of_lower_error why }
{
    match why {
        LowerError::Limit(which, place) => Some(Finding::Past(place, limit_name(which))),
        LowerError::Memory => None,
    }
}

/// What a source is whose names mean what the table says.
#[tactic(auto, using(ix_meaning::proofs::FewDeclarations::few_classes, ix_meaning::proofs::FewDeclarations::few_members))]
fn of_lowered(alloc: Global, unit: &Unit, table: &Table) -> Result<Finding, AllocError>
    requires { record {
      parsed : IsParsed unit.now;
      accepts : Accepts unit.now;
      table : shown table.now ≡ names unit.now;
    } }
    ensures right { IfOk result (λ finding. spec.FoundIn unit.now (seen finding)) }
    ensures only { (other : spec.Finding) → spec.FoundIn unit.now other → IfOk result (λ finding. seen finding ≡ other) }
    ensures placed { (end : ℕ) → Placed end unit.now → IfOk result (λ finding. IsPlaced end (seen finding)) }
    ensures formed { IfOk result (λ finding. HasFormed (seen finding)) }
{
    lowered_is_few();
    lowered_locals_are_apart();
    match lower_kept(alloc, unit, table) {
        Ok(program) => Ok(Finding::Whole(program)),
        Err(why) => match of_lower_error(why) {
            Some(finding) => Ok(finding),
            None => Err(AllocError),
        },
    }
}

/// What a source without errors on names is.
fn of_resolved(alloc: Global, unit: &Unit, table: Table) -> Result<Finding, AllocError>
    requires { record {
      parsed : IsParsed unit.now;
      accepts : Accepts unit.now;
      table : shown table ≡ names unit.now;
    } }
    ensures { record {
      right : IfOk result (λ finding. spec.FoundIn unit.now (seen finding));
      only : (other : spec.Finding) → spec.FoundIn unit.now other → IfOk result (λ finding. seen finding ≡ other);
      placed : (end : ℕ) → Placed end unit.now → IfOk result (λ finding. IsPlaced end (seen finding));
      formed : IfOk result (λ finding. HasFormed (seen finding));
    } }
{
    of_lowered(alloc, unit, &table)
}

/// What a source is.
fn of_unit(alloc: Global, unit: &Unit) -> Result<Finding, AllocError>
    requires parsed { IsParsed unit.now }
    ensures right { IfOk result (λ finding. spec.FoundIn unit.now (seen finding)) }
    ensures only { (other : spec.Finding) → spec.FoundIn unit.now other → IfOk result (λ finding. seen finding ≡ other) }
    ensures placed { (end : ℕ) → Placed end unit.now → IfOk result (λ finding. IsPlaced end (seen finding)) }
    ensures formed { IfOk result (λ finding. HasFormed (seen finding)) }
{
    match resolve(alloc, unit) {
        Ok(table) => of_resolved(alloc, unit, table),
        Err(why) => match of_name_errors(why) {
            Some(finding) => Ok(finding),
            None => Err(AllocError),
        },
    }
}

/// What the tokens of a text of `end` bytes are.
fn of_tokens(alloc: Global, tokens: &[Token], end: u32) -> Result<Finding, AllocError>
    requires few { length tokens.now ≤ 200000 }
    requires in_order { InOrder 0 end tokens.now }
    requires ints { HaveInts tokens.now }
    ensures right { IfOk result (λ finding. spec.FoundOf tokens.now end (seen finding)) }
    ensures only { (other : spec.Finding) → spec.FoundOf tokens.now end other → IfOk result (λ finding. seen finding ≡ other) }
    ensures placed { IfOk result (λ finding. IsPlaced end (seen finding)) }
    ensures formed { IfOk result (λ finding. HasFormed (seen finding)) }
{
    match parse(alloc, tokens, end) {
        Ok(unit) => of_unit(alloc, &unit),
        Err(why) => match of_parse_error(tokens, end, why) {
            Some(finding) => Ok(finding),
            None => Err(AllocError),
        },
    }
}

/// What the bytes of a file are.
pub fn of_bytes(alloc: Global, bytes: &[u8]) -> Result<Finding, AllocError>
    ensures right { IfOk result (λ finding. spec.Found bytes.now (seen finding)) }
    ensures only { (other : spec.Finding) → spec.Found bytes.now other → IfOk result (λ finding. seen finding ≡ other) }
    ensures placed { IfOk result (λ finding. IsPlaced (length bytes.now) (seen finding)) }
    ensures formed { IfOk result (λ finding. HasFormed (seen finding)) }
{
    if bytes.len() > MOST_BYTES {
        return Ok(Finding::TooLong);
    }
    match lex(alloc, bytes) {
        Ok(tokens) => of_tokens(alloc, &tokens, bytes.len() as u32),
        Err(why) => match of_lex_error(why) {
            Some(finding) => Ok(finding),
            None => Err(AllocError),
        },
    }
}
