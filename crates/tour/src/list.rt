// A run of a sequence's own calls, on readings that are summed up by two kinds at once.
use crate::answers::print_answers;
use kinds::{Both, Pair, Thinnest, Total};
use rows::idle;
use sequences::Sequence;
use sequences::calls::{Call, run};
use sequences::deep::Deep;
use sequences::flat::FlatList;
use tree::Tree;

const CALLS: [Call<u16>; 19] = [
    Call::Capacity,
    Call::Count,
    Call::RangeJoin(0, 0),
    Call::Insert(0, 310),
    Call::Insert(0, 290),
    Call::Insert(2, 305),
    Call::Insert(4, 300),
    Call::Insert(1, 280),
    Call::Insert(0, 300),
    Call::Count,
    Call::ElementAt(1),
    Call::ElementAt(4),
    Call::RangeJoin(0, 4),
    Call::Replace(1, 330),
    Call::Replace(4, 330),
    Call::RangeJoin(1, 3),
    Call::Delete(0),
    Call::Delete(3),
    Call::RangeJoin(0, 4),
];

// Runs the calls on any sequence of readings.
fn run_over<S: Sequence<Element = u16, Summary = Pair<u16, u32>>>(
    rt: &HostRuntime,
    readings: &mut S,
) -> anyhow::Result<()> {
    let answers = run(rt.alloc(), readings, &CALLS)?;
    print_answers(rt, &CALLS, &answers)
}

pub fn run_on_a_flat_list(rt: &HostRuntime) -> anyhow::Result<()> {
    println!(rt;
        "A sequence of readings: a flat list of 4 slots, each range told as its least reading and its sum"
    )?;
    let mut slots = [0u16; 4];
    let mut readings: FlatList<Both<Thinnest, Total>> = FlatList::open(&mut slots);
    run_over(rt, &mut readings)
}

pub fn run_on_a_tree(rt: &HostRuntime) -> anyhow::Result<()> {
    println!(rt; "The same calls on a tree of 4 rows")?;
    let mut rows = [idle::<Both<Thinnest, Total>>(0); 4];
    let mut readings: Tree<Both<Thinnest, Total>> = Tree::open(&mut rows);
    run_over(rt, &mut readings)?;
    let depth = readings.depth();
    println!(rt; "depth: {depth}")?;
    Ok(())
}
