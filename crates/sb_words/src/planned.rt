//! Commands over the plan in a file, and what they ask for.

ghost use Rattle.std.specs.Prelude.{◌≡◌, ◌≢◌, ◌↔◌, ◌∷◌, Some, IsTrue, IfSome, codes};
ghost use Rattle.std.specs.Option.{option_map};
ghost use Rattle.sb_words.specs.Texts.{texts};
ghost use Rattle.sb_words.specs.Words.{Asked, IsCommand, IsFileName, IsKeyWord, IsValid, asked_of};

use crate::options::{read_options, read_sizes};
use crate::request::Request;
use sb_window::Word;

/// What a command that has no number, its argument and the words behind them ask for.
pub(crate) fn read_planned<'a>(
    command: &str,
    argument: &'a str,
    rest: &'a [String],
) -> Option<Request<'a>>
    requires no_sum { command.now ≢ codes "sum" }
    requires no_work { command.now ≢ codes "work" }
    ensures exact { (wanted : Asked) → (option_map asked_of result ≡ Some wanted)
        ↔ IsCommand wanted (command.now ∷ argument.now ∷ texts rest.now) }
    ensures valid { IfSome result (λ request. IsValid (asked_of request)) }
{
    if !is_file_name(argument) {
        return None;
    }
    if command == "run" {
        return read_run(argument, rest);
    }
    if command == "slow" {
        return read_slow(argument, rest);
    }
    if command == "watch" {
        return read_watch(argument, rest);
    }
    if command == "feeds" {
        return read_feeds(argument, rest);
    }
    if command == "part" {
        return read_part(argument, rest);
    }
    if command == "save" {
        return read_save(argument, rest);
    }
    if command == "resume" {
        return read_resume(argument, rest);
    }
    None
}

/// What the plan of `run` and the words behind it ask for.
fn read_run<'a>(plan: &'a str, rest: &[String]) -> Option<Request<'a>>
    requires { IsFileName plan.now }
    ensures exact { (wanted : Asked) → (option_map asked_of result ≡ Some wanted)
        ↔ IsCommand wanted (codes "run" ∷ plan.now ∷ texts rest.now) }
    ensures valid { IfSome result (λ request. IsValid (asked_of request)) }
{
    let options = read_options(rest)?;
    Some(Request::Run(plan, options))
}

/// What the plan of `slow` and the words behind it ask for.
fn read_slow<'a>(plan: &'a str, rest: &[String]) -> Option<Request<'a>>
    requires { IsFileName plan.now }
    ensures exact { (wanted : Asked) → (option_map asked_of result ≡ Some wanted)
        ↔ IsCommand wanted (codes "slow" ∷ plan.now ∷ texts rest.now) }
    ensures valid { IfSome result (λ request. IsValid (asked_of request)) }
{
    if rest.is_empty() {
        Some(Request::Slow(plan))
    } else {
        None
    }
}

/// What the plan of `watch` and the words behind it ask for.
fn read_watch<'a>(plan: &'a str, rest: &'a [String]) -> Option<Request<'a>>
    requires { IsFileName plan.now }
    ensures exact { (wanted : Asked) → (option_map asked_of result ≡ Some wanted)
        ↔ IsCommand wanted (codes "watch" ∷ plan.now ∷ texts rest.now) }
    ensures valid { IfSome result (λ request. IsValid (asked_of request)) }
{
    let (first, others) = rest.split_first()?;
    let key = first.as_str();
    if !is_key_word(key) {
        return None;
    }
    let options = read_sizes(others)?;
    Some(Request::Watch(plan, key, options))
}

/// What the plan of `feeds` and the words behind it ask for.
fn read_feeds<'a>(plan: &'a str, rest: &'a [String]) -> Option<Request<'a>>
    requires { IsFileName plan.now }
    ensures exact { (wanted : Asked) → (option_map asked_of result ≡ Some wanted)
        ↔ IsCommand wanted (codes "feeds" ∷ plan.now ∷ texts rest.now) }
    ensures valid { IfSome result (λ request. IsValid (asked_of request)) }
{
    let (first, behind) = rest.split_first()?;
    let (second, others) = behind.split_first()?;
    let file_a = first.as_str();
    let file_b = second.as_str();
    if !is_file_name(file_a) || !is_file_name(file_b) {
        return None;
    }
    let options = read_options(others)?;
    Some(Request::Feeds(plan, file_a, file_b, options))
}

/// What the plan of `part` and the words behind it ask for.
fn read_part<'a>(plan: &'a str, rest: &[String]) -> Option<Request<'a>>
    requires { IsFileName plan.now }
    ensures exact { (wanted : Asked) → (option_map asked_of result ≡ Some wanted)
        ↔ IsCommand wanted (codes "part" ∷ plan.now ∷ texts rest.now) }
    ensures valid { IfSome result (λ request. IsValid (asked_of request)) }
{
    let options = read_sizes(rest)?;
    Some(Request::Part(plan, options))
}

/// What the plan of `save` and the words behind it ask for.
fn read_save<'a>(plan: &'a str, rest: &[String]) -> Option<Request<'a>>
    requires { IsFileName plan.now }
    ensures exact { (wanted : Asked) → (option_map asked_of result ≡ Some wanted)
        ↔ IsCommand wanted (codes "save" ∷ plan.now ∷ texts rest.now) }
    ensures valid { IfSome result (λ request. IsValid (asked_of request)) }
{
    if rest.is_empty() {
        Some(Request::Save(plan))
    } else {
        None
    }
}

/// What the plan of `resume` and the words behind it ask for.
fn read_resume<'a>(plan: &'a str, rest: &'a [String]) -> Option<Request<'a>>
    requires { IsFileName plan.now }
    ensures exact { (wanted : Asked) → (option_map asked_of result ≡ Some wanted)
        ↔ IsCommand wanted (codes "resume" ∷ plan.now ∷ texts rest.now) }
    ensures valid { IfSome result (λ request. IsValid (asked_of request)) }
{
    let (first, others) = rest.split_first()?;
    let checkpoint = first.as_str();
    if !is_file_name(checkpoint) {
        return None;
    }
    let options = read_sizes(others)?;
    Some(Request::Resume(plan, checkpoint, options))
}

/// Whether a word is the name of a file, and no option.
fn is_file_name(word: &str) -> bool
    ensures { IsTrue result ↔ IsFileName word.now }
{
    match word.as_bytes().first() {
        Some(byte) => *byte != b'-',
        None => false,
    }
}

/// Whether a word is one that a record may have as its key, and no option.
fn is_key_word(word: &str) -> bool
    ensures { IsTrue result ↔ IsKeyWord word.now }
{
    match word.as_bytes().first() {
        Some(byte) => *byte != b'-' && Word::new(word.as_bytes()).is_some(),
        None => false,
    }
}
