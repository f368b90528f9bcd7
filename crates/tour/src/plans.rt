// The same plan, edited and asked while it stands, over a flat list and over a tree.
use crate::answers::print_answers;
use crate::passes::{FIRST, ORIGIN, SECOND, THIRD};
use motion::{Block, Move};
use panel::run_on_tree;
use plan::Plan;
use plan::calls::Call;
use plan::summaries::PlanKind;
use plan::theorems::{every_model, worked_examples};
use rows::idle;
use sequences::flat::FlatList;

const SHORT: Move = Move {
    target: [3000, 4100, 0],
    acceleration: 100,
    feed: 2000,
    corner: 500,
};

const TOO_FAR: Move = Move {
    target: [100_001, 0, 0],
    acceleration: 100,
    feed: 0,
    corner: 500,
};

const TOO_SLOW: Move = Move {
    target: [0, 0, 0],
    acceleration: 100,
    feed: 0,
    corner: 500,
};

const CALLS: [Call; 52] = [
    Call::Junction(0, 0),
    Call::Junction(0, 1),
    Call::Reach(0, 0),
    Call::Insert(0, FIRST),
    Call::Insert(1, THIRD),
    Call::Insert(1, SECOND),
    Call::Junction(0, 0),
    Call::Junction(1, 0),
    Call::Junction(2, 0),
    Call::Junction(3, 0),
    Call::Junction(0, 1_360_000),
    Call::Junction(1, 1_360_000),
    Call::Junction(0, 1_360_001),
    Call::Junction(3, 1_360_001),
    Call::Reach(0, 2),
    Call::Span(0, 3),
    Call::Reach(1, 1),
    // Each of the edits, and the speeds after it.
    Call::Delete(1),
    Call::Span(1, 2),
    Call::Junction(1, 0),
    Call::Junction(2, 0),
    Call::Insert(1, SECOND),
    Call::Replace(1, SHORT),
    Call::Span(1, 2),
    Call::Span(2, 3),
    Call::Junction(1, 0),
    Call::Junction(2, 0),
    Call::Replace(1, SECOND),
    Call::Override(1, 2, 25),
    Call::Junction(1, 0),
    Call::Junction(2, 0),
    Call::Override(0, 3, 100),
    Call::Start([3000, 0, 0]),
    Call::Span(0, 1),
    Call::Junction(1, 0),
    Call::Start(ORIGIN),
    // What is refused, and changes nothing.
    Call::Insert(9, TOO_FAR),
    Call::Insert(9, TOO_SLOW),
    Call::Insert(9, FIRST),
    Call::Insert(3, FIRST),
    Call::Insert(3, FIRST),
    Call::Replace(4, FIRST),
    Call::Delete(65535),
    Call::Override(0, 3, 9),
    Call::Override(3, 2, 50),
    Call::Override(4, 4, 50),
    Call::Start([0, 0, 10_001]),
    Call::Junction(5, 100_000_001),
    Call::Junction(5, 100_000_000),
    Call::Reach(0, 5),
    Call::Span(3, 2),
    Call::Span(0, 4),
];

pub fn plan_on_a_flat_list(rt: &HostRuntime) -> anyhow::Result<()> {
    println!(rt; "A plan over a flat list of 4 slots")?;
    // They do nothing when they run: each stands for the theorem that is its contract.
    every_model();
    worked_examples();
    let mut slots = [Block::new(ORIGIN, FIRST, 100); 4];
    let blocks: FlatList<PlanKind> = FlatList::open(&mut slots);
    let mut plan = Plan::open(blocks);
    let answers = plan.run(rt.alloc(), &CALLS)?;
    print_answers(rt, &CALLS, &answers)
}

pub fn plan_on_a_tree(rt: &HostRuntime) -> anyhow::Result<()> {
    println!(rt; "The same plan over a tree of 4 rows")?;
    let mut rows = [idle::<PlanKind>(Block::new(ORIGIN, FIRST, 100)); 4];
    let told = run_on_tree(rt.alloc(), &mut rows, &CALLS)?;
    print_answers(rt, &CALLS, &told.answers)?;
    let depth = told.depth;
    println!(rt; "depth: {depth}")?;
    Ok(())
}
