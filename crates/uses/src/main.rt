//! Four uses of StreamBox as a library, as a caller writes them.
//!
//! [`large_sums`] makes a plan by code and runs it over a list of items, [`in_memory`] calls the whole program without
//! files, [`end_to_end`] is a source of one's own, which the program reads as any other, and [`live_table`] shows the
//! rows of a run to threads that read beside it.
#![tactic(auto)]

ghost use Rattle.std.specs.Prelude.{◌≤◌};
ghost use Rattle.sb_cli.specs.base.records.Lines.{IsItemInRange};
ghost use Rattle.sb_cli.specs.base.records.declared.key.Keys.TheVariants.{Numbers};

use anyhow::Context;
use in_memory::Answer;
use sb_base::{Item, Key, MAX_KEY, MAX_TIME, Record, Stream};
use sb_cli::Sizes;
use std::alloc::{AllocError, Global};
use std::str;
use std::sync::Wait;
use std::thread::Threads;
use std::time::Clock;

mod end_to_end;
mod in_memory;
mod large_sums;
mod live_table;

/// How many records are made for the live table.
const RECORDS: u64 = 10_000;

/// The most records of a bundle there.
const BUNDLE: u32 = 64;

/// How many bundles fill a lane there.
const PENDING: u32 = 4;

/// A record of a stream, whose key is a number.
fn event(stream: Stream, time: u64, number: u64, value: i64) -> Item
    requires time { time ≤ MAX_TIME }
    requires key { number ≤ MAX_KEY }
    ensures { IsItemInRange Numbers result }
{
    let key = Key::Number(number);
    Item::Rec(stream, Record { time, key, value })
}

fn words_of(alloc: Global, words: &[&str]) -> Result<Vec<String>, AllocError> {
    let mut strings = Vec::new(alloc);
    for word in words {
        strings.push(String::from_str(alloc, word)?)?;
    }
    Ok(strings)
}

/// A row as the program writes it: the end of its window, its key and its value.
fn print_row(rt: &impl Print, row: &Record) -> anyhow::Result<()> {
    if let Key::Number(key) = row.key {
        println!(rt; "{},{key},{}", row.time.saturating_add(1), row.value)?;
    }
    Ok(())
}

/// The sums of values of at least 2, in windows of 10.
fn print_large_sums(rt: &impl Print, alloc: Global) -> anyhow::Result<()> {
    let items = [
        event(Stream::A, 3, 1, 5),
        event(Stream::A, 7, 1, 2),
        event(Stream::A, 8, 1, -2),
        event(Stream::A, 9, 2, 1),
        event(Stream::B, 4, 1, 100),
        event(Stream::A, 12, 1, 4),
    ];
    let rows = large_sums::large_sums(alloc, 2, 10, &items)
        .ok()
        .context("out of memory")?;
    println!(rt; "large sums")?;
    for row in &rows {
        print_row(rt, row)?;
    }
    Ok(())
}

fn print_answer(rt: &impl Print, title: &str, answer: &Answer) -> anyhow::Result<()> {
    println!(rt; "{title}: status {}", answer.status.code())?;
    print!(rt; "{}", str::from_utf8(&answer.rows)?)?;
    Ok(())
}

/// What two threads see of key 1 while one worker, and then eight, sum up records that are made, and its last row.
fn print_live_table<R: AllocGlobal + Print + Threads + Wait + Clock + Sync>(
    rt: &R,
) -> anyhow::Result<()> {
    for workers in [1, 8] {
        let sizes = Sizes {
            workers,
            bundle: BUNDLE,
            pending: PENDING,
            keeps_diaries: false,
        };
        let key = Key::Number(1);
        let told = live_table::sums_beside_readers(rt, 10, RECORDS, sizes, key)
            .ok()
            .context("out of memory")?;
        let (one, two) = told.readers;
        let times = if one.fell || two.fell {
            "a time fell"
        } else {
            "no time fell"
        };
        println!(rt; "live table, workers {workers}: {times}")?;
        if let Some(row) = told.last {
            print_row(rt, &row)?;
        }
    }
    Ok(())
}

fn main(rt: HostRuntime) -> anyhow::Result<()> {
    let alloc = rt.alloc();
    print_large_sums(&rt, alloc)?;

    let words = words_of(alloc, &["sum", "10"])?;
    let text = Vec::from_slice(alloc, b"r,a,3,1,5\nr,a,7,2,2\nw,a,10\nr,a,12,1,-4\n")?;
    print_answer(
        &rt,
        "one text",
        &in_memory::answer_to_text(&rt, &words, text)?,
    )?;

    let first = Vec::from_slice(alloc, b"r,a,3,1,5\n")?;
    let second = Vec::from_slice(alloc, b"r,a,7,1,2\nw,a,10\nr,a,12,1,4\n")?;
    let both = end_to_end::answer_to_both(&rt, &words, first, second)?;
    print_answer(&rt, "two texts", &both)?;

    print_live_table(&rt)
}
