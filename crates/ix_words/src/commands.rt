//! The commands: each with its options and its positionals.
ghost use Rattle.std.specs.Prelude.{◌≡◌, ◌≤◌, IfOk, IfSome, IfNone, List, None, ◌∷◌, drop, map, length, option_map};
ghost use Rattle.ix_words.specs.Clap.{option_named, rows_in, Says};
ghost use Rattle.ix_words.specs.Words.{Text, Parsed};
ghost use Rattle.ix_words.specs.Commands.{check_options, check_of, run_options, run_of, bench_options, bench_of, verify_options, verify_of, guard_options, guard_of, command_with, command_of, HasLimits};
ghost use Rattle.ix_words.specs.Kinds.{options_in, made_in};
ghost use Rattle.ix_words.specs.Shown.{shown, words_of};

use crate::matching::matches_of;
use crate::values::{Limits, Sums, number, read_limits, read_sums};
use clap::ArgMatches;
use std::alloc::{AllocError, Global};

/// A command, with the words that it is given.
#[derive(Drop)]
pub enum Command<'a> {
    /// Checks a file, joined with the library where `library` says so. Where `certificate` says so, the certificate of an accepted one is written.
    Check {
        sums: Sums,
        certificate: bool,
        library: bool,
        file: &'a str,
    },
    /// Runs a method of a file, joined with the library where `library` says so: `entry` is `CLASS.METHOD`. Where `traced` says so, the accesses are written.
    Run {
        limits: Limits,
        traced: bool,
        library: bool,
        file: &'a str,
        entry: &'a str,
        inputs: Vec<&'a str>,
    },
    /// Checks the workload of that many methods, from 1 to 1,000.
    Bench(u32),
    /// Checks a file, joined with the library where `library` says so, by the certificate in another file.
    Verify {
        library: bool,
        file: &'a str,
        cert: &'a str,
    },
    /// Writes a file with a test and a throw before each access on names that isn't proved.
    Guard {
        sums: Sums,
        file: &'a str,
    },
}

/// A command by its name alone.
#[derive(Clone, Copy)]
enum Kind {
    Check,
    Run,
    Bench,
    Verify,
    Guard,
}

static CHECK: [(&str, bool); 3] = [("sums", true), ("certificate", false), ("library", false)];

static RUN: [(&str, bool); 5] = [
    ("steps", true),
    ("cells", true),
    ("frames", true),
    ("trace", false),
    ("library", false),
];

static VERIFY: [(&str, bool); 1] = [("library", false)];

static GUARD: [(&str, bool); 1] = [("sums", true)];

impl Kind {
    /// The command of this name, which is compared exactly.
    fn of(name: &str) -> Option<Kind>
        ensures { record {
          some : IfSome result (λ kind. (words : List Text) → command_of (name.now ∷ words) ≡ command_with (options_in kind) (made_in kind) words);
          none : IfNone result ((words : List Text) → command_of (name.now ∷ words) ≡ None);
        } }
    {
        if name == "check" {
            Some(Kind::Check)
        } else if name == "run" {
            Some(Kind::Run)
        } else if name == "bench" {
            Some(Kind::Bench)
        } else if name == "verify" {
            Some(Kind::Verify)
        } else if name == "guard" {
            Some(Kind::Guard)
        } else {
            None
        }
    }

    /// Its options, each with whether it takes a value.
    fn options<'a>(self) -> &'a [(&'a str, bool)]
        ensures { map option_named result.now ≡ options_in self }
    {
        match self {
            Kind::Check => &CHECK,
            Kind::Run => &RUN,
            Kind::Bench => &[],
            Kind::Verify => &VERIFY,
            Kind::Guard => &GUARD,
        }
    }
}

/// `check [--sums ideal|int32] [--certificate] [--library] FILE`.
fn check<'a>(matches: &ArgMatches<'a>) -> Option<Command<'a>>
    ensures command { (q : Parsed) → Says check_options q (rows_in matches.now) → option_map shown result ≡ check_of q q.positionals }
    ensures limits { IfSome result (λ command. HasLimits (shown command)) }
{
    let words = matches.get_raw("words")?;
    if words.len() != 1 {
        return None;
    }
    let sums = read_sums(matches.get_str("sums"))?;
    Some(Command::Check {
        sums,
        certificate: matches.contains_id("certificate"),
        library: matches.contains_id("library"),
        file: words[0],
    })
}

/// The words behind the first two.
fn behind_two<'a>(alloc: Global, words: &[&'a str]) -> Result<Vec<&'a str>, AllocError>
    requires { 2 ≤ length words.now }
    ensures { IfOk result (λ v. map (λ s. s.now) v.items ≡ map (λ s. s.now) (drop 2 words.now)) }
{
    words[2..].iter().copied().collect(alloc)
}

/// `run [--steps N] [--cells N] [--frames N] [--trace] [--library] FILE CLASS.METHOD INPUTS`.
fn run<'a>(alloc: Global, matches: &ArgMatches<'a>) -> Result<Option<Command<'a>>, AllocError>
    ensures command { IfOk result (λ r. (q : Parsed) → Says run_options q (rows_in matches.now) → option_map shown r ≡ run_of q q.positionals) }
    ensures limits { IfOk result (λ r. IfSome r (λ command. HasLimits (shown command))) }
{
    let Some(words) = matches.get_raw("words") else {
        return Ok(None);
    };
    if words.len() < 2 {
        return Ok(None);
    }
    let Some(limits) = read_limits(
        matches.get_str("steps"),
        matches.get_str("cells"),
        matches.get_str("frames"),
    ) else {
        return Ok(None);
    };
    let inputs = behind_two(alloc, words)?;
    Ok(Some(Command::Run {
        limits,
        traced: matches.contains_id("trace"),
        library: matches.contains_id("library"),
        file: words[0],
        entry: words[1],
        inputs,
    }))
}

/// `bench N`.
fn bench<'a>(matches: &ArgMatches<'a>) -> Option<Command<'a>>
    ensures command { (q : Parsed) → Says bench_options q (rows_in matches.now) → option_map shown result ≡ bench_of q q.positionals }
    ensures limits { IfSome result (λ command. HasLimits (shown command)) }
{
    let words = matches.get_raw("words")?;
    if words.len() != 1 {
        return None;
    }
    match number(words[0], 1, 1000) {
        Some(count) => Some(Command::Bench(count)),
        None => None,
    }
}

/// `verify [--library] FILE CERT`.
fn verify<'a>(matches: &ArgMatches<'a>) -> Option<Command<'a>>
    ensures command { (q : Parsed) → Says verify_options q (rows_in matches.now) → option_map shown result ≡ verify_of q q.positionals }
    ensures limits { IfSome result (λ command. HasLimits (shown command)) }
{
    let words = matches.get_raw("words")?;
    if words.len() != 2 {
        return None;
    }
    Some(Command::Verify {
        library: matches.contains_id("library"),
        file: words[0],
        cert: words[1],
    })
}

/// `guard [--sums ideal|int32] FILE`.
fn guard<'a>(matches: &ArgMatches<'a>) -> Option<Command<'a>>
    ensures command { (q : Parsed) → Says guard_options q (rows_in matches.now) → option_map shown result ≡ guard_of q q.positionals }
    ensures limits { IfSome result (λ command. HasLimits (shown command)) }
{
    let words = matches.get_raw("words")?;
    if words.len() != 1 {
        return None;
    }
    let sums = read_sums(matches.get_str("sums"))?;
    Some(Command::Guard {
        sums,
        file: words[0],
    })
}

/// The command of this name, by what `clap` makes of the words behind it.
fn made<'a>(
    alloc: Global,
    kind: Kind,
    matches: &ArgMatches<'a>,
) -> Result<Option<Command<'a>>, AllocError>
    ensures { record {
      command : IfOk result (λ r. (q : Parsed) → Says (options_in kind) q (rows_in matches.now) → option_map shown r ≡ made_in kind q q.positionals);
      limits : IfOk result (λ r. IfSome r (λ command. HasLimits (shown command)));
    } }
{
    match kind {
        Kind::Check => Ok(check(matches)),
        Kind::Run => run(alloc, matches),
        Kind::Bench => Ok(bench(matches)),
        Kind::Verify => Ok(verify(matches)),
        Kind::Guard => Ok(guard(matches)),
    }
}

/// The command that the words are; none exactly where they are no command. The limits of a run lie in their ranges. The one error is want of memory.
pub fn read_words<'a>(alloc: Global, words: &'a [String]) -> Result<Option<Command<'a>>, AllocError>
    ensures command { IfOk result (λ r. option_map shown r ≡ command_of (words_of words.entry.now)) }
    ensures limits { IfOk result (λ r. IfSome r (λ command. HasLimits (shown command))) }
{
    if words.is_empty() {
        return Ok(None);
    }
    let Some(kind) = Kind::of(words[0].as_str()) else {
        return Ok(None);
    };
    let Some(matches) = matches_of(alloc, kind.options(), words)? else {
        return Ok(None);
    };
    made(alloc, kind, &matches)
}
