//! The command as `clap` has it, and what `clap` reads in words.

ghost use Rattle.std.specs.Prelude.{◌≡◌, ◌≢◌, false, IfOk, None, OnErr, OnOk, Some};
ghost use Rattle.std.specs.Option.{option_map};
ghost use Rattle.clap.specs.Words.{App, kind_of, rule_of, with_rule, with_subcommand};
ghost use Rattle.sb_arguments.specs.Clapped.{IsAs, IsBuilt};
ghost use Rattle.sb_arguments.specs.Clapped as spec;
ghost use Rattle.sb_words.specs.Texts.{texts};
ghost use Rattle.sb_words.specs.Words.{Asked, IsCommand, asked_of};

use crate::matched::request_of;
use clap::error::ErrorKind;
use clap::{Arg, ArgAction, Command, Error};
use sb_words::{NoMemory, Request};
use std::alloc::{AllocError, Global};

/// An option with a value.
fn option<'a>(alloc: Global, name: &'a str) -> Arg<'a>
    ensures rule { rule_of result ≡ spec.option name.entry.now }
    ensures local { result.global ≡ false }
{
    Arg::new(alloc, name).long(name)
}

/// An option without a value.
fn flag<'a>(alloc: Global, name: &'a str) -> Arg<'a>
    ensures rule { rule_of result ≡ spec.flag name.entry.now }
    ensures local { result.global ≡ false }
{
    Arg::new(alloc, name).long(name).action(ArgAction::SetTrue)
}

/// The command that is built so far, or that memory ran out: the functions below hand it on, so that each of them has
/// one command in hand at most.
type Built<'a> = Result<Command<'a>, AllocError>;

/// The command with one argument more.
fn with_argument<'a>(so_far: Built<'a>, argument: Arg<'a>) -> Built<'a>
    requires { argument.global ≡ false }
    ensures { (app : App) → IsBuilt so_far.entry app
        → IsBuilt result (with_rule app (rule_of argument.entry)) }
{
    let command = so_far?;
    command.arg(argument)
}

/// The command with one subcommand more.
fn with_command<'a>(so_far: Built<'a>, below: Built<'a>) -> Built<'a>
    ensures { (app sub : App) → IsBuilt so_far.entry app → IsBuilt below.entry sub
        → IsBuilt result (with_subcommand app sub.top) }
{
    let command = so_far?;
    let inner = below?;
    command.subcommand(inner)
}

/// A command with one argument.
fn of_one<'a>(alloc: Global, name: &'a str) -> Built<'a>
    ensures { IsBuilt result (spec.of_one name.entry.now) }
{
    let argument = Arg::new(alloc, "argument").required(true);
    with_argument(Ok(Command::new(alloc, name)), argument)
}

/// A command with two arguments.
fn of_two<'a>(alloc: Global, name: &'a str) -> Built<'a>
    ensures { IsBuilt result (spec.of_two name.entry.now) }
{
    let second = Arg::new(alloc, "second").required(true);
    with_argument(of_one(alloc, name), second)
}

/// A command with three arguments.
fn of_three<'a>(alloc: Global, name: &'a str) -> Built<'a>
    ensures { IsBuilt result (spec.of_three name.entry.now) }
{
    let third = Arg::new(alloc, "third").required(true);
    with_argument(of_two(alloc, name), third)
}

/// The command with the options of `sum` and `run`. Commands that take fewer have them here, too.
fn with_options<'a>(alloc: Global, command: Built<'a>) -> Built<'a>
    ensures { (app : App) → IsBuilt command.entry app → IsBuilt result (spec.with_options app) }
{
    let workers = with_argument(command, option(alloc, "workers"));
    let bundle = with_argument(workers, option(alloc, "bundle"));
    let pending = with_argument(bundle, option(alloc, "pending"));
    let diary = with_argument(pending, flag(alloc, "diary"));
    with_argument(diary, flag(alloc, "taps"))
}

/// The command itself, without its subcommands.
fn bare<'a>(alloc: Global) -> Command<'a>
    ensures { IsAs result spec.bare }
{
    Command::new(alloc, "streambox")
        .no_binary_name(true)
        .disable_help_flag(true)
        .disable_help_subcommand(true)
        .subcommand_required(true)
}

/// The command with the subcommands over a number.
fn with_numbers<'a>(alloc: Global, command: Built<'a>) -> Built<'a>
    ensures { (app : App) → IsBuilt command.entry app → IsBuilt result (spec.with_numbers app) }
{
    let sum = with_options(alloc, of_one(alloc, "sum"));
    let summing = with_command(command, sum);
    let work = with_options(alloc, of_one(alloc, "work"));
    with_command(summing, work)
}

/// The command with the subcommands over a plan and its whole input.
fn with_plans<'a>(alloc: Global, command: Built<'a>) -> Built<'a>
    ensures { (app : App) → IsBuilt command.entry app → IsBuilt result (spec.with_plans app) }
{
    let run = with_options(alloc, of_one(alloc, "run"));
    let running = with_command(command, run);
    let slow = of_one(alloc, "slow");
    let plain = with_command(running, slow);
    let watch = with_options(alloc, of_two(alloc, "watch"));
    let watching = with_command(plain, watch);
    let feeds = with_options(alloc, of_three(alloc, "feeds"));
    with_command(watching, feeds)
}

/// The command with the subcommands over a plan and a part of its input.
fn with_parts<'a>(alloc: Global, command: Built<'a>) -> Built<'a>
    ensures { (app : App) → IsBuilt command.entry app → IsBuilt result (spec.with_parts app) }
{
    let part = with_options(alloc, of_one(alloc, "part"));
    let parting = with_command(command, part);
    let save = of_one(alloc, "save");
    let saving = with_command(parting, save);
    let resume = with_options(alloc, of_two(alloc, "resume"));
    with_command(saving, resume)
}

/// The command with its subcommands.
fn program<'a>(alloc: Global) -> Built<'a>
    ensures { IfOk result (λ command. IsAs command spec.program) }
{
    let numbers = with_numbers(alloc, Ok(bare(alloc)));
    let plans = with_plans(alloc, numbers);
    let parts = with_parts(alloc, plans);
    with_command(parts, Ok(Command::new(alloc, "audit")))
}

/// What `clap` reads in the words: none if it refuses them. It reads every command as it is meant, and it reads some
/// words that are no command, as `--bundle=8` for an option.
pub(crate) fn read_by_clap(alloc: Global, words: &[String]) -> Result<Option<Request<'_>>, NoMemory>
    ensures { IfOk result (λ read. (wanted : Asked) → IsCommand wanted (texts words.now)
        → option_map asked_of read ≡ Some wanted) }
{
    let command = program(alloc)?;
    match command.try_get_matches_from(words) {
        Ok(matches) => Ok(request_of(&matches)),
        Err(error) => refusal(&error),
    }
}

/// What an error of `clap` comes to: want of memory, or words that it refuses.
fn refusal<'a>(error: &Error) -> Result<Option<Request<'a>>, NoMemory>
    ensures none { IfOk result (λ read. read ≡ None) }
    ensures other { OnOk result (kind_of error.now ≢ ErrorKind.OutOfMemory) }
    ensures memory { OnErr result (kind_of error.now ≡ ErrorKind.OutOfMemory) }
{
    if error.kind() == ErrorKind::OutOfMemory {
        Err(NoMemory)
    } else {
        Ok(None)
    }
}
