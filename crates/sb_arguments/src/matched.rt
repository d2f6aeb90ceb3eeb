//! What the matches of `clap` say.

ghost use Rattle.std.specs.Prelude.{◌≡◌, ◌≤◌, ℕ, Bool, Some, codes};
ghost use Rattle.std.specs.Option.{option_map};
ghost use Rattle.clap.specs.Words.{first_of, found_of, one_of, rows_of, subcommand_rows_of};
ghost use Rattle.sb_arguments.specs.Readings.{AreRead, IsFlag, IsRead, IsReadAs, IsReading};
ghost use Rattle.sb_words.specs.Words.{Asked, asked_of};

use clap::ArgMatches;
use sb_words::{
    DEFAULT_BUNDLE, DEFAULT_PENDING, DEFAULT_WORKERS, MAX_BUNDLE, MAX_PENDING, MAX_RECORDS,
    MAX_SIZE, MAX_WORKERS, Options, Request, read_amount, read_count,
};

/// The text of an argument, if it has one.
fn text_of<'a>(matches: &ArgMatches<'a>, id: &str) -> Option<&'a str>
    ensures { option_map (λ s. s.now) result ≡ first_of id.now (rows_of (found_of matches.now)) }
{
    matches.get_str(id)
}

/// Whether an option without a value is given.
fn is_given(matches: &ArgMatches<'_>, id: &str) -> bool
    ensures { (b : Bool) → IsFlag b (one_of id.now (rows_of (found_of matches.now))) → result ≡ b }
{
    matches.get_flag(id)
}

/// The number of an option, 1 to `most`: `default` if the option is not given.
fn number_of(matches: &ArgMatches<'_>, id: &str, most: u32, default: u32) -> Option<u32>
    ensures { (n : ℕ) → 1 ≤ n → n ≤ most → IsRead n default (first_of id.now (rows_of (found_of matches.now)))
        → result ≡ Some n }
{
    match text_of(matches, id) {
        Some(text) => read_count(most, text),
        None => Some(default),
    }
}

/// The options of a command.
fn options_of(matches: &ArgMatches<'_>) -> Option<Options>
    ensures { (options : Options) → AreRead options (rows_of (found_of matches.now)) → result ≡ Some options }
{
    let workers = number_of(matches, "workers", MAX_WORKERS, DEFAULT_WORKERS)?;
    let bundle = number_of(matches, "bundle", MAX_BUNDLE, DEFAULT_BUNDLE)?;
    let pending = number_of(matches, "pending", MAX_PENDING, DEFAULT_PENDING)?;
    Some(Options {
        workers,
        bundle,
        pending,
        diary: is_given(matches, "diary"),
        taps: is_given(matches, "taps"),
    })
}

/// What the matches of `sum` ask for.
fn sum_of<'a>(matches: &ArgMatches<'a>) -> Option<Request<'a>>
    ensures { IsReading result (codes "sum") (rows_of (found_of matches.now)) }
{
    let argument = text_of(matches, "argument")?;
    let size = read_amount(MAX_SIZE, argument.as_bytes())?;
    let options = options_of(matches)?;
    Some(Request::Sum(size, options))
}

/// What the matches of `run` ask for.
fn run_of<'a>(matches: &ArgMatches<'a>) -> Option<Request<'a>>
    ensures { IsReading result (codes "run") (rows_of (found_of matches.now)) }
{
    let plan = text_of(matches, "argument")?;
    let options = options_of(matches)?;
    Some(Request::Run(plan, options))
}

/// What the matches of `slow` ask for.
fn slow_of<'a>(matches: &ArgMatches<'a>) -> Option<Request<'a>>
    ensures { IsReading result (codes "slow") (rows_of (found_of matches.now)) }
{
    let plan = text_of(matches, "argument")?;
    Some(Request::Slow(plan))
}

/// What the matches of `work` ask for.
fn work_of<'a>(matches: &ArgMatches<'a>) -> Option<Request<'a>>
    ensures { IsReading result (codes "work") (rows_of (found_of matches.now)) }
{
    let argument = text_of(matches, "argument")?;
    let records = read_amount(MAX_RECORDS, argument.as_bytes())?;
    let options = options_of(matches)?;
    Some(Request::Work(records, options))
}

/// What the matches of `watch` ask for.
fn watch_of<'a>(matches: &ArgMatches<'a>) -> Option<Request<'a>>
    ensures { IsReading result (codes "watch") (rows_of (found_of matches.now)) }
{
    let plan = text_of(matches, "argument")?;
    let key = text_of(matches, "second")?;
    let options = options_of(matches)?;
    Some(Request::Watch(plan, key, options))
}

/// What the matches of `feeds` ask for.
fn feeds_of<'a>(matches: &ArgMatches<'a>) -> Option<Request<'a>>
    ensures { IsReading result (codes "feeds") (rows_of (found_of matches.now)) }
{
    let plan = text_of(matches, "argument")?;
    let file_a = text_of(matches, "second")?;
    let file_b = text_of(matches, "third")?;
    let options = options_of(matches)?;
    Some(Request::Feeds(plan, file_a, file_b, options))
}

/// What the matches of `part` ask for.
fn part_of<'a>(matches: &ArgMatches<'a>) -> Option<Request<'a>>
    ensures { IsReading result (codes "part") (rows_of (found_of matches.now)) }
{
    let plan = text_of(matches, "argument")?;
    let options = options_of(matches)?;
    Some(Request::Part(plan, options))
}

/// What the matches of `save` ask for.
fn save_of<'a>(matches: &ArgMatches<'a>) -> Option<Request<'a>>
    ensures { IsReading result (codes "save") (rows_of (found_of matches.now)) }
{
    let plan = text_of(matches, "argument")?;
    Some(Request::Save(plan))
}

/// What the matches of `resume` ask for.
fn resume_of<'a>(matches: &ArgMatches<'a>) -> Option<Request<'a>>
    ensures { IsReading result (codes "resume") (rows_of (found_of matches.now)) }
{
    let plan = text_of(matches, "argument")?;
    let checkpoint = text_of(matches, "second")?;
    let options = options_of(matches)?;
    Some(Request::Resume(plan, checkpoint, options))
}

/// What a subcommand of this name and its matches ask for.
fn asked_by<'a>(name: &str, matches: &ArgMatches<'a>) -> Option<Request<'a>>
    ensures { IsReading result name.now (rows_of (found_of matches.now)) }
{
    if name == "sum" {
        return sum_of(matches);
    }
    if name == "run" {
        return run_of(matches);
    }
    if name == "slow" {
        return slow_of(matches);
    }
    if name == "work" {
        return work_of(matches);
    }
    if name == "watch" {
        return watch_of(matches);
    }
    if name == "feeds" {
        return feeds_of(matches);
    }
    if name == "part" {
        return part_of(matches);
    }
    if name == "save" {
        return save_of(matches);
    }
    if name == "resume" {
        return resume_of(matches);
    }
    Some(Request::Audit)
}

/// What the matches ask for.
pub(crate) fn request_of<'a>(matches: &ArgMatches<'a>) -> Option<Request<'a>>
    ensures { (wanted : Asked) → IsReadAs wanted (subcommand_rows_of matches.now)
        → option_map asked_of result ≡ Some wanted }
{
    let (name, inner) = matches.subcommand()?;
    asked_by(name, inner)
}
