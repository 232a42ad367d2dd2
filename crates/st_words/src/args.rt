// The command line as `clap` is told it, and what it finds in the words.
ghost use Rattle.std.specs.Prelude.{◌≡◌, IfOk, map, string_bytes, false};
ghost use Rattle.clap.specs.Words.{app_of, rule_of, fault_of, FailsBy, HasMatchesOf};
ghost use Rattle.st_words.specs.CommandLine.{number_rule, stats_rule, task_rule, the_app};

use clap::builder::ValueParser;
use clap::{Arg, ArgAction, ArgMatches, Command, Error};
use std::alloc::{AllocError, Global};

fn task<'a>(alloc: Global) -> Arg<'a>
    ensures rule { rule_of result ≡ task_rule }
    ensures local { result.global ≡ false }
{
    Arg::new(alloc, "command")
        .required(true)
        .action(ArgAction::Set)
}

fn stats<'a>(alloc: Global) -> Arg<'a>
    ensures rule { rule_of result ≡ stats_rule }
    ensures local { result.global ≡ false }
{
    Arg::new(alloc, "stats")
        .long("stats")
        .action(ArgAction::SetTrue)
}

// An option with a number from `low` to `high`.
fn number<'a>(alloc: Global, name: &'a str, low: u64, high: u64) -> Arg<'a>
    ensures rule { rule_of result ≡ number_rule name.entry.now low high }
    ensures local { result.global ≡ false }
{
    Arg::new(alloc, name)
        .long(name)
        .action(ArgAction::Set)
        .value_parser(ValueParser::unsigned(low, high))
}

fn the_command<'a>(alloc: Global) -> Result<Command<'a>, AllocError>
    ensures { IfOk result (λ c. app_of c ≡ the_app) }
{
    Command::new(alloc, "stx")
        .no_binary_name(true)
        .disable_help_flag(true)
        .disable_version_flag(true)
        .arg(task(alloc))?
        .arg(number(alloc, "steps", 0, 1_000_000_000_000))?
        .arg(number(alloc, "depth", 1, 1_000_000))?
        .arg(number(alloc, "cells", 0, 67_108_864))?
        .arg(number(alloc, "seed", 0, 4_294_967_295))?
        .arg(number(alloc, "size", 1, 10_000))?
        .arg(stats(alloc))
}

// What `clap` finds in the words, or one of the faults that its definition gives.
pub(crate) fn found<'a>(alloc: Global, words: &'a [String]) -> Result<ArgMatches<'a>, Error>
    ensures fails { FailsBy (fault_of the_app (map string_bytes words.now)) result }
    ensures found { IfOk result (λ m. HasMatchesOf the_app (map string_bytes words.now) m) }
{
    the_command(alloc)?.try_get_matches_from(words)
}
