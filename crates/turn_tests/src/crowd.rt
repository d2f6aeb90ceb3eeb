//! Eight threads at four turns and the shelf. What comes out is the same whatever their order.
ghost use Rattle.std.specs.Prelude.{◌≡◌, ◌+◌, ◌-◌, ◌<◌, ℕ, true};
ghost use Rattle.std.specs.Thread.{IsSync};
ghost use Rattle.sb_turn.specs.Passes.{IsPassOf, IsFree, IsFirst, IsSamePass, ShowsEmpty, node_count, seat_view};

use crate::numbers::Numbers;
use sb_turn::{Pass, Turns};
use std::alloc::Global;
use std::sync::Wait;
use std::sync::atomic::{AtomicU64, Ordering};
use std::test::Fail;
use std::thread::{Threads, join};

const NODES: u32 = 4;

const ROUNDS: u64 = 50;

type Two = (Pass<Numbers>, Pass<Numbers>);

// What the threads share: the turns, and how often each piece was claimed.
#[derive(Drop)]
struct Bench {
    turns: Turns<Numbers>,
    times: Vec<AtomicU64>,
}

fn count(bench: &Bench, piece: u64) {
    if let Some(times) = bench.times.get(piece as usize) {
        times.fetch_add(1, Ordering::SeqCst);
    }
}

// Adds one to the state of each node.
fn change_each<R: Wait>(rt: &R, turns: &Turns<Numbers>, pass: &mut Pass<Numbers>)
    requires pass { IsPassOf turns.now pass.old × IsFree pass.old }
    requires nodes { node_count turns.now ≡ 4 }
    ensures pass { IsSamePass pass.old pass.new × IsFree pass.new }
{
    for node in 0..NODES {
        let mut guard = turns.enter(rt, node, pass);
        guard.state = guard.state.wrapping_add(1);
        turns.leave(guard, pass, ());
    }
}

// Puts a piece on the shelf. Each time that it comes back, another piece is claimed first.
fn put_away<R: Wait>(rt: &R, bench: &Bench, pass: &mut Pass<Numbers>, piece: u64)
    requires pass { IsPassOf bench.now.turns pass.old × IsFree pass.old }
    ensures pass { IsSamePass pass.old pass.new × IsFree pass.new }
{
    let mut piece = piece;
    for _ in rt.forever() {
        match bench.turns.put(pass, piece) {
            None => return,
            Some(back) => piece = back,
        }
        if let Some(other) = bench.turns.claim(pass) {
            count(bench, other);
        }
    }
}

// The work of one thread, with pieces of its own from `first` on.
fn work<R: Wait>(rt: &R, bench: &Bench, mut pass: Pass<Numbers>, first: u64) -> Pass<Numbers>
    requires pass { IsPassOf bench.now.turns pass × IsFree pass }
    requires nodes { node_count bench.now.turns ≡ 4 }
    ensures pass { IsPassOf bench.now.turns result × IsFree result }
{
    for round in 0..ROUNDS {
        change_each(rt, &bench.turns, &mut pass);
        put_away(rt, bench, &mut pass, first.wrapping_add(round));
        if let Some(piece) = bench.turns.claim(&mut pass) {
            count(bench, piece);
        }
    }
    pass
}

fn two_work<R: Threads + Wait + Sync>(rt: &R, bench: &Bench, passes: Two, first: u64) -> Two
    requires one { IsPassOf bench.now.turns passes.0 × IsFree passes.0 }
    requires two { IsPassOf bench.now.turns passes.1 × IsFree passes.1 }
    requires nodes { node_count bench.now.turns ≡ 4 }
    ensures one { IsPassOf bench.now.turns result.0 × IsFree result.0 }
    ensures two { IsPassOf bench.now.turns result.1 × IsFree result.1 }
{
    let (one, two) = passes;
    join(
        rt,
        || -> Pass<Numbers>
            requires { IsPassOf bench.now.turns one × IsFree one × (node_count bench.now.turns ≡ 4) }
            ensures { IsPassOf bench.entry.now.turns result × IsFree result }
        { work(rt, bench, one, first) },
        || -> Pass<Numbers>
            requires { IsPassOf bench.now.turns two × IsFree two × (node_count bench.now.turns ≡ 4) }
            ensures { IsPassOf bench.entry.now.turns result × IsFree result }
        { work(rt, bench, two, first.wrapping_add(ROUNDS)) },
    )
}

fn four_work<R: Threads + Wait + Sync>(
    rt: &R,
    bench: &Bench,
    passes: (Two, Two),
    first: u64,
) -> (Two, Two)
    requires one { IsPassOf bench.now.turns passes.0.0 × IsFree passes.0.0 }
    requires two { IsPassOf bench.now.turns passes.0.1 × IsFree passes.0.1 }
    requires three { IsPassOf bench.now.turns passes.1.0 × IsFree passes.1.0 }
    requires four { IsPassOf bench.now.turns passes.1.1 × IsFree passes.1.1 }
    requires nodes { node_count bench.now.turns ≡ 4 }
    ensures one { IsPassOf bench.now.turns result.0.0 × IsFree result.0.0 }
    ensures two { IsPassOf bench.now.turns result.0.1 × IsFree result.0.1 }
    ensures three { IsPassOf bench.now.turns result.1.0 × IsFree result.1.0 }
    ensures four { IsPassOf bench.now.turns result.1.1 × IsFree result.1.1 }
{
    let (one, two) = passes;
    join(
        rt,
        || -> Two
            requires one { IsPassOf bench.now.turns one.0 × IsFree one.0 }
            requires two { IsPassOf bench.now.turns one.1 × IsFree one.1 }
            requires nodes { (node_count bench.now.turns ≡ 4) × IsSync R.row }
            ensures one { IsPassOf bench.entry.now.turns result.0 × IsFree result.0 }
            ensures two { IsPassOf bench.entry.now.turns result.1 × IsFree result.1 }
        { two_work(rt, bench, one, first) },
        || -> Two
            requires one { IsPassOf bench.now.turns two.0 × IsFree two.0 }
            requires two { IsPassOf bench.now.turns two.1 × IsFree two.1 }
            requires nodes { (node_count bench.now.turns ≡ 4) × IsSync R.row }
            ensures one { IsPassOf bench.entry.now.turns result.0 × IsFree result.0 }
            ensures two { IsPassOf bench.entry.now.turns result.1 × IsFree result.1 }
        { two_work(rt, bench, two, first.wrapping_add(2 * ROUNDS)) },
    )
}

// Eight passes, each in a thread of its own, and joined again.
fn eight_work<R: Threads + Wait + Sync>(rt: &R, bench: &Bench, pass: &mut Pass<Numbers>)
    requires pass { IsPassOf bench.now.turns pass.old × IsFirst pass.old × IsFree pass.old }
    requires nodes { node_count bench.now.turns ≡ 4 }
    ensures pass { IsSamePass pass.old pass.new × IsFree pass.new }
    ensures count { (seat_view pass.new).count ≡ (seat_view pass.old).count }
{
    let one = four_passes(bench, pass);
    let two = four_passes(bench, pass);
    let (one, two) = join(
        rt,
        || -> (Two, Two)
            requires one { IsPassOf bench.now.turns one.0.0 × IsFree one.0.0 }
            requires two { IsPassOf bench.now.turns one.0.1 × IsFree one.0.1 }
            requires three { IsPassOf bench.now.turns one.1.0 × IsFree one.1.0 }
            requires four { IsPassOf bench.now.turns one.1.1 × IsFree one.1.1 }
            requires nodes { (node_count bench.now.turns ≡ 4) × IsSync R.row }
            ensures one { IsPassOf bench.entry.now.turns result.0.0 × IsFree result.0.0 }
            ensures two { IsPassOf bench.entry.now.turns result.0.1 × IsFree result.0.1 }
            ensures three { IsPassOf bench.entry.now.turns result.1.0 × IsFree result.1.0 }
            ensures four { IsPassOf bench.entry.now.turns result.1.1 × IsFree result.1.1 }
        { four_work(rt, bench, one, 0) },
        || -> (Two, Two)
            requires one { IsPassOf bench.now.turns two.0.0 × IsFree two.0.0 }
            requires two { IsPassOf bench.now.turns two.0.1 × IsFree two.0.1 }
            requires three { IsPassOf bench.now.turns two.1.0 × IsFree two.1.0 }
            requires four { IsPassOf bench.now.turns two.1.1 × IsFree two.1.1 }
            requires nodes { (node_count bench.now.turns ≡ 4) × IsSync R.row }
            ensures one { IsPassOf bench.entry.now.turns result.0.0 × IsFree result.0.0 }
            ensures two { IsPassOf bench.entry.now.turns result.0.1 × IsFree result.0.1 }
            ensures three { IsPassOf bench.entry.now.turns result.1.0 × IsFree result.1.0 }
            ensures four { IsPassOf bench.entry.now.turns result.1.1 × IsFree result.1.1 }
        { four_work(rt, bench, two, 4 * ROUNDS) },
    );
    join_four(bench, pass, one);
    join_four(bench, pass, two);
}

fn four_passes(bench: &Bench, pass: &mut Pass<Numbers>) -> (Two, Two)
    requires pass { IsPassOf bench.now.turns pass.old × IsFirst pass.old × IsFree pass.old }
    ensures pass { IsSamePass pass.old pass.new × IsFree pass.new }
    ensures count { (seat_view pass.new).count ≡ (seat_view pass.old).count + 4 }
    ensures one { IsPassOf bench.now.turns result.0.0 × IsFree result.0.0 }
    ensures two { IsPassOf bench.now.turns result.0.1 × IsFree result.0.1 }
    ensures three { IsPassOf bench.now.turns result.1.0 × IsFree result.1.0 }
    ensures four { IsPassOf bench.now.turns result.1.1 × IsFree result.1.1 }
{
    let turns = &bench.turns;
    let one = (turns.split(pass), turns.split(pass));
    let two = (turns.split(pass), turns.split(pass));
    (one, two)
}

fn join_four(bench: &Bench, pass: &mut Pass<Numbers>, passes: (Two, Two))
    requires pass { IsPassOf bench.now.turns pass.old × IsFirst pass.old × IsFree pass.old }
    requires one { IsPassOf bench.now.turns passes.0.0 × IsFree passes.0.0 }
    requires two { IsPassOf bench.now.turns passes.0.1 × IsFree passes.0.1 }
    requires three { IsPassOf bench.now.turns passes.1.0 × IsFree passes.1.0 }
    requires four { IsPassOf bench.now.turns passes.1.1 × IsFree passes.1.1 }
    ensures pass { IsSamePass pass.old pass.new × IsFree pass.new }
    ensures count { (seat_view pass.new).count ≡ (seat_view pass.old).count - 4 }
{
    let ((one, two), (three, four)) = passes;
    bench.turns.join(pass, one);
    bench.turns.join(pass, two);
    bench.turns.join(pass, three);
    bench.turns.join(pass, four);
}

// Claims what still lies on the shelf.
fn claim_all(bench: &Bench, pass: &mut Pass<Numbers>) -> bool
    requires pass { IsPassOf bench.now.turns pass.old × IsFree pass.old }
    requires count { (seat_view pass.old).count ≡ 0 }
    ensures pass { IsSamePass pass.old pass.new × IsFree pass.new }
    ensures count { (seat_view pass.new).count ≡ 0 }
    ensures empty { result ≡ true → ShowsEmpty pass.new }
{
    for _ in 0..65 {
        match bench.turns.claim(pass) {
            None => return true,
            Some(piece) => count(bench, piece),
        }
    }
    false
}

// The states at the end, and how often each piece was claimed.
#[derive(Drop)]
struct Outcome {
    states: Vec<u64>,
    times: Vec<AtomicU64>,
}

fn run<R: Threads + Wait + Sync>(rt: &R, alloc: Global) -> Option<Outcome> {
    let states = vec![in alloc; 0u64, 0u64, 0u64, 0u64].ok()?;
    let mut times = Vec::new(alloc);
    for _ in 0..8 * ROUNDS {
        times.push(AtomicU64::new(0)).ok()?;
    }
    let (turns, mut pass) = Turns::<Numbers>::new(alloc, states, &()).ok()?;
    let bench = Bench { turns, times };
    eight_work(rt, &bench, &mut pass);
    if !claim_all(&bench, &mut pass) {
        return None;
    }
    let Bench { turns, times } = bench;
    let states = turns.close(pass);
    Some(Outcome { states, times })
}

#[test]
fn eight_threads_lose_no_piece(rt: HostRuntime) -> Result<(), Fail> {
    let Some(outcome) = run(&rt, rt.alloc()) else {
        panic!(rt; "there was memory, and the shelf was emptied")
    };
    assert!(rt; outcome.states.as_slice() == [8 * ROUNDS; 4].as_slice());
    assert!(rt; outcome.times.len() == (8 * ROUNDS) as usize);
    for times in outcome.times.iter() {
        assert!(rt; times.load(Ordering::SeqCst) == 1);
    }
    Ok(())
}
