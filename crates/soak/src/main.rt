// Long random runs on a tree and on a flat list at once: every answer must be the same.
#![tactic(auto)]

ghost use Rattle.std.specs.Prelude.{◌≡◌, []};

mod random;

use kinds::Thinnest;
use motion::Block;
use plan::Plan;
use plan::calls::{Answer, Call};
use plan::summaries::{Blocks, PlanKind};
use random::Random;
use rows::idle;
use sequences::Sequence;
use sequences::calls::{Answer as SequenceAnswer, apply};
use sequences::flat::FlatList;
use std::alloc::{AllocError, Global};
use tree::Tree;

const ROOM: usize = 200;

const CALLS: u32 = 60_000;

fn main(rt: HostRuntime) -> anyhow::Result<()> {
    soak(&rt)
}

fn soak(rt: &HostRuntime) -> anyhow::Result<()> {
    soak_readings(rt)?;
    soak_plans(rt)
}

fn soak_readings(rt: &HostRuntime) -> anyhow::Result<()> {
    let mut slots = [0u16; ROOM];
    let mut flat: FlatList<Thinnest> = FlatList::open(&mut slots);
    let mut rows = [idle::<Thinnest>(0); ROOM];
    let mut tree: Tree<Thinnest> = Tree::open(&mut rows);
    let mut random = Random::new(1);
    let mut differ = 0u32;
    let mut edits = 0u32;
    // A loop, since each call is drawn from what the last one left.
    for _ in 0..CALLS {
        let count = flat.count();
        let call = random.reading_call(count);
        let told = apply(&mut flat, call);
        if let SequenceAnswer::Edit(Ok(())) = told {
            edits = edits.saturating_add(1);
        }
        if told != apply(&mut tree, call) {
            differ = differ.saturating_add(1);
        }
    }
    println!(rt;
        "readings: {CALLS} calls on a tree and a flat list, {edits} edits accepted, {differ} answers differ"
    )?;
    Ok(())
}

fn soak_plans(rt: &HostRuntime) -> anyhow::Result<()> {
    let mut random = Random::new(2);
    let calls: Vec<Call> = (0..CALLS).map(|_| random.plan_call()).collect(rt.alloc())?;
    let block = Block::idle();
    let mut slots = [block; ROOM];
    let flat: FlatList<PlanKind> = FlatList::open(&mut slots);
    let one = run_plan(rt.alloc(), flat, calls.as_slice())?;
    let mut rows = [idle::<PlanKind>(block); ROOM];
    let tree: Tree<PlanKind> = Tree::open(&mut rows);
    let other = run_plan(rt.alloc(), tree, calls.as_slice())?;
    let edits = one.iter().filter(|a| **a == Answer::Edit(Ok(()))).count();
    let differ = one
        .iter()
        .zip(other.iter())
        .filter(|(a, b)| *a != *b)
        .count();
    println!(rt;
        "plans: {CALLS} calls over a tree and a flat list, {edits} edits accepted, {differ} answers differ"
    )?;
    Ok(())
}

// Over an empty sequence, as the opening of a plan asks.
fn run_plan<S: Blocks + Drop>(
    heap: Global,
    blocks: S,
    calls: &[Call],
) -> Result<Vec<Answer>, AllocError>
    requires { S.Sequence.list blocks ≡ [] }
{
    let mut plan = Plan::open(blocks);
    plan.run(heap, calls)
}
