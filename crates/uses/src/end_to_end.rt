//! A source of one's own: two sources, one behind the other, as two logs that are read as one.

ghost use Rattle.std.specs.Prelude.{ℕ, ◌++◌, IfOk};
ghost use Rattle.sb_cli.specs.words.declared.options.Options.{Options};
ghost use Rattle.sb_cli.specs.words.Texts.{texts};
ghost use Rattle.sb_cli.specs.words.Words.{IsCommand};
ghost use Rattle.sb_cli.specs.words.Words.Asked.{Sum};
ghost use Rattle.uses.specs.Sums.{GivesSums};

use crate::in_memory::{Answer, answer_to_source};
use sb_outside::{MemSource, Source, SourceFault};
use std::alloc::AllocError;
use std::sync::Wait;
use std::thread::Threads;
use std::time::Clock;

/// All bytes of the first source, and then those of the second. If the first does not end in a line feed, its last line
/// goes on with the second.
#[derive(Drop)]
pub struct EndToEnd<S, T> {
    pub first: S,
    pub second: T,
}

impl<S: Source, T: Source> Source for EndToEnd<S, T> {
    ghost use Rattle.std.specs.Prelude.{◌+◌};
    ghost use Rattle.uses.specs.EndToEnd.{left_of_both};

    ghost left = { λ s. left_of_both (S.left s.first) (T.left s.second) };

    ghost faults = { λ s. S.faults s.first + T.faults s.second };

    fn read(&mut self, buf: &mut [u8]) -> Result<usize, SourceFault> {
        match self.first.read(buf)? {
            0 => self.second.read(buf),
            count => Ok(count),
        }
    }
}

/// What the program gives for words and two texts that are read as one: the same as for the two texts joined.
pub fn answer_to_both<W: AllocGlobal + Threads + Wait + Clock + Sync>(
    rt: &W,
    words: &[String],
    first: Vec<u8>,
    second: Vec<u8>,
) -> Result<Answer, AllocError>
    ensures { (size : ℕ) (options : Options) → IsCommand (Sum size options) (texts words.now)
        → IfOk result (GivesSums size (first.items ++ second.items)) }
{
    let alloc = rt.alloc();
    let mut input = EndToEnd {
        first: MemSource::new(first, Vec::new(alloc), Vec::new(alloc)),
        second: MemSource::new(second, Vec::new(alloc), Vec::new(alloc)),
    };
    answer_to_source(rt, words, &mut input)
}
