//! What the words of a command line ask for.

ghost use Rattle.std.specs.Prelude.{◌≡◌, ◌↔◌, Some, None, IfOk, IfSome};
ghost use Rattle.std.specs.Option.{option_map};
ghost use Rattle.sb_words.specs.Texts.{texts};
ghost use Rattle.sb_words.specs.Words.{Asked, IsCommand, IsNoCommand, IsValid, asked_of};

use crate::clapped::read_by_clap;
use sb_words::{NoMemory, Request, command_of};
use std::alloc::Global;

/// What the words ask for: none if they are no command. They are read with `clap`, and compared with the commands,
/// since `clap` reads more than these.
///
/// # Errors
///
/// [`NoMemory`] if `clap` runs out of memory, which it is asked for only where the words are a command.
pub fn read_words(alloc: Global, words: &[String]) -> Result<Option<Request<'_>>, NoMemory>
    ensures exact { IfOk result (λ answer. (wanted : Asked)
        → (option_map asked_of answer ≡ Some wanted) ↔ IsCommand wanted (texts words.now)) }
    ensures refused { IfOk result (λ answer. (answer ≡ None) ↔ IsNoCommand (texts words.now)) }
    ensures valid { IfOk result (λ answer. IfSome answer (λ request. IsValid (asked_of request))) }
    ensures outside { IsNoCommand (texts words.now) → result ≡ Ok None }
{
    match command_of(words) {
        Some(_) => {
            let read = read_by_clap(alloc, words)?;
            Ok(read)
        }
        None => Ok(None),
    }
}
