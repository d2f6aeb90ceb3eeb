//! The whole program over memory: words, an input, and the rows as bytes.

ghost use Rattle.std.specs.Prelude.{◌≡◌, ℕ, List, Some, IfOk};
ghost use Rattle.sb_cli.specs.words.declared.options.Options.{Options};
ghost use Rattle.sb_cli.specs.words.Texts.{texts};
ghost use Rattle.sb_cli.specs.words.Words.{IsCommand};
ghost use Rattle.sb_cli.specs.words.Words.Asked.{Sum};
ghost use Rattle.uses.specs.Sums.{GivesSums};

use sb_cli::{Status, streambox};
use sb_outside::{MemFolder, MemSink, MemSource, Source};
use std::alloc::AllocError;
use std::collections::BTreeMap;
use std::sync::Wait;
use std::thread::Threads;
use std::time::Clock;

/// What the program gave: how the run ended, and the text of the rows.
#[derive(Drop)]
pub struct Answer {
    pub status: Status,
    pub rows: Vec<u8>,
}

/// What the program gives for words and an input, without files. The contract speaks of the words `sum SIZE` with any
/// options.
pub fn answer_to_source<W: AllocGlobal + Threads + Wait + Clock + Sync, S: Source>(
    rt: &W,
    words: &[String],
    input: &mut S,
) -> Result<Answer, AllocError>
    ensures { (size : ℕ) (options : Options) (text : List ℕ)
        → IsCommand (Sum size options) (texts words.now)
        → S.left input.old ≡ Some text → IfOk result (GivesSums size text) }
{
    let alloc = rt.alloc();
    let mut out = MemSink::new(alloc, Vec::new(alloc), Vec::new(alloc));
    let mut notes = MemSink::new(alloc, Vec::new(alloc), Vec::new(alloc));
    let mut folder = MemFolder::new(alloc, BTreeMap::new(alloc), Vec::new(alloc));
    let mut taps = Vec::new(alloc);
    let status = streambox(
        rt,
        words,
        input,
        &mut out,
        &mut notes,
        &mut folder,
        &mut taps,
    );
    let rows = Vec::from_slice(alloc, out.taken())?;
    Ok(Answer { status, rows })
}

/// The same for a text.
pub fn answer_to_text<W: AllocGlobal + Threads + Wait + Clock + Sync>(
    rt: &W,
    words: &[String],
    text: Vec<u8>,
) -> Result<Answer, AllocError>
    ensures { (size : ℕ) (options : Options) → IsCommand (Sum size options) (texts words.now)
        → IfOk result (GivesSums size text.items) }
{
    let alloc = rt.alloc();
    let mut input = MemSource::new(text, Vec::new(alloc), Vec::new(alloc));
    answer_to_source(rt, words, &mut input)
}
