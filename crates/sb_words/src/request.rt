//! The words of a command line, and what they ask for.

ghost use Rattle.std.specs.Prelude.{◌≡◌, ◌≤◌, ◌<◌, ◌^◌, ◌↔◌, ◌∷◌, [], ℕ, Some, None, IfSome, codes, decimal};
ghost use Rattle.std.specs.Option.{option_map};
ghost use Rattle.sb_words.specs.Texts.{texts};
ghost use Rattle.sb_words.specs.Words.{Asked, IsCommand, IsValid, asked_of};

use crate::options::{Options, read_options, read_sizes};
use crate::planned::read_planned;
use sb_generator::MAX_RECORDS;
use sb_window::{MAX_SIZE, read_number};

/// What words ask for.
#[derive(Clone, Copy, Debug, PartialEq, Eq)]
pub enum Request<'a> {
    /// The sums of stream a over windows of this size, 1 to 10^12.
    Sum(u64, Options),
    /// The rows of the plan in the file of this name.
    Run(&'a str, Options),
    /// The same rows, by the plain program.
    Slow(&'a str),
    /// What a diary text says.
    Audit,
    /// The summary of sums over so many records that are made, 1 to [`MAX_RECORDS`]. The options have no diary and no
    /// taps.
    Work(u64, Options),
    /// The last row of a key over the rows of a plan: the name of the plan's file, and the key. The options have no
    /// diary and no taps.
    Watch(&'a str, &'a str, Options),
    /// The rows of a plan over two files of lines: the names of the plan's file, of the file of stream a and of that of
    /// stream b.
    Feeds(&'a str, &'a str, &'a str, Options),
    /// The rows of a first part of an input, by the plan in the file of this name. The options have no diary and no
    /// taps.
    Part(&'a str, Options),
    /// The checkpoint of a first part of an input, by the plan in the file of this name.
    Save(&'a str),
    /// The rows of the rest of an input: the names of the plan's file and of the checkpoint's. The options have no
    /// diary and no taps.
    Resume(&'a str, &'a str, Options),
}

/// The command that the words are, if they are one.
pub fn command_of(words: &[String]) -> Option<Request<'_>>
    ensures exact { (wanted : Asked) → (option_map asked_of result ≡ Some wanted) ↔ IsCommand wanted (texts words.now) }
    ensures valid { IfSome result (λ request. IsValid (asked_of request)) }
{
    match words {
        [command] => read_word(command.as_str()),
        [command, argument, rest @ ..] => read_command(command.as_str(), argument.as_str(), rest),
        _ => None,
    }
}

/// What a command without an argument asks for.
fn read_word(command: &str) -> Option<Request<'_>>
    ensures exact { (wanted : Asked) → (option_map asked_of result ≡ Some wanted)
        ↔ IsCommand wanted (command.now ∷ []) }
    ensures valid { IfSome result (λ request. IsValid (asked_of request)) }
{
    if command == "audit" {
        Some(Request::Audit)
    } else {
        None
    }
}

/// What a command, its argument and the words behind them ask for.
fn read_command<'a>(command: &str, argument: &'a str, rest: &'a [String]) -> Option<Request<'a>>
    ensures exact { (wanted : Asked) → (option_map asked_of result ≡ Some wanted)
        ↔ IsCommand wanted (command.now ∷ argument.now ∷ texts rest.now) }
    ensures valid { IfSome result (λ request. IsValid (asked_of request)) }
{
    if command == "sum" {
        return read_sum(argument, rest);
    }
    if command == "work" {
        return read_work(argument, rest);
    }
    read_planned(command, argument, rest)
}

/// What the argument of `sum` and the words behind it ask for.
fn read_sum<'a>(argument: &str, rest: &[String]) -> Option<Request<'a>>
    ensures exact { (wanted : Asked) → (option_map asked_of result ≡ Some wanted)
        ↔ IsCommand wanted (codes "sum" ∷ argument.now ∷ texts rest.now) }
    ensures valid { IfSome result (λ request. IsValid (asked_of request)) }
{
    let size = read_amount(MAX_SIZE, argument.as_bytes())?;
    let options = read_options(rest)?;
    Some(Request::Sum(size, options))
}

/// What the argument of `work` and the words behind it ask for.
fn read_work<'a>(argument: &str, rest: &[String]) -> Option<Request<'a>>
    ensures exact { (wanted : Asked) → (option_map asked_of result ≡ Some wanted)
        ↔ IsCommand wanted (codes "work" ∷ argument.now ∷ texts rest.now) }
    ensures valid { IfSome result (λ request. IsValid (asked_of request)) }
{
    let records = read_amount(MAX_RECORDS, argument.as_bytes())?;
    let options = read_sizes(rest)?;
    Some(Request::Work(records, options))
}

/// The number, from 1 to `most`, that a text spells. The bound itself is below 10^19.
pub fn read_amount(most: u64, text: &[u8]) -> Option<u64>
    requires { most < 10 ^ 19 }
    ensures { (n : ℕ) → (result ≡ Some n) ↔ ((1 ≤ n) × (n ≤ most) × (text.now ≡ decimal n)) }
{
    let number = read_number(most, text)?;
    if number == 0 { None } else { Some(number) }
}
