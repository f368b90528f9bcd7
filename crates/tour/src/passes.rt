// A plan of three moves: its figures, the caps of its junctions, and the speeds that both passes give.
use motion::passes::{Unplanned, junction_caps, plan_speeds};
use motion::theorems::{
    edits_by_parts, figures_bounded, passes_by_parts, reach_is_box, span_is_sum, worked_examples,
};
use motion::{Block, Move};

pub const ORIGIN: [i32; 3] = [0, 0, 0];

pub const FIRST: Move = Move {
    target: [3000, 4000, 0],
    acceleration: 100,
    feed: 2000,
    corner: 600,
};

pub const SECOND: Move = Move {
    target: [3000, 4900, 0],
    acceleration: 100,
    feed: 2000,
    corner: 500,
};

pub const THIRD: Move = Move {
    target: [9000, 4900, 0],
    acceleration: 100,
    feed: 1000,
    corner: 0,
};

fn blocks() -> [Block; 3] {
    let first = Block::new(ORIGIN, FIRST, 100);
    let second = Block::new(first.target(), SECOND, 100);
    let third = Block::new(second.target(), THIRD, 100);
    [first, second, third]
}

fn print_figures(rt: &HostRuntime, block: Block) -> anyhow::Result<()> {
    let length = block.length;
    let rise = block.rise();
    let own = block.own_cap();
    let corner = block.corner_cap();
    println!(rt; "length {length}, change {rise}, own cap {own}, corner cap {corner}")?;
    Ok(())
}

fn print_speeds(rt: &HostRuntime, blocks: &[Block], start: u32) -> anyhow::Result<()> {
    match plan_speeds(rt.alloc(), blocks, start) {
        Ok(speeds) => println!(rt; "speeds from {start}: {speeds:?}")?,
        Err(Unplanned::Blocked(junction)) => println!(rt;
            "no lawful profile from {start}: blocked at junction {junction}"
        )?,
        Err(Unplanned::Memory(error)) => return Err(error.into()),
    }
    Ok(())
}

// None of these calls does anything when it runs: each stands for the theorem that is its contract.
fn cite_theorems() {
    figures_bounded();
    passes_by_parts();
    edits_by_parts();
    reach_is_box();
    span_is_sum();
    worked_examples();
}

pub fn work_the_passes(rt: &HostRuntime) -> anyhow::Result<()> {
    println!(rt; "A plan of three moves by both passes, in squared speeds")?;
    cite_theorems();
    let blocks = blocks();
    for block in blocks {
        print_figures(rt, block)?;
    }
    let caps = junction_caps(rt.alloc(), &blocks)?;
    println!(rt; "caps: {caps:?}")?;
    for start in [0, 1_360_000, 1_360_001] {
        print_speeds(rt, &blocks, start)?;
    }
    Ok(())
}
