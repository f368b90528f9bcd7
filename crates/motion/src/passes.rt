// The two passes over a list of blocks: caps of junctions, then back from the end, then on from the start.
ghost use Rattle.std.specs.Prelude.{◌≡◌, suc, min, map, length, IfOk, vec_items};
ghost use Rattle.std.specs.List.{range_with_len};
ghost use Rattle.kinds.specs.Sums.{◌⊕◌};
ghost use Rattle.motion.specs.Figures.{own_cap};
ghost use Rattle.motion.specs.Profiles.{junction_caps, Caps, at, reverse_at, speeds_of, first_blocked, planned, Right, Passes, Prefixes};
ghost use Rattle.motion.specs.declared.passes.Unplanned.TheVariants.{Memory};
ghost use Rattle.motion.specs.Outcomes.{IfPlanned};
ghost use Rattle.motion.specs.Texts.{unplanned_text};

use crate::blocks::Block;
use crate::runs::{Run, RunDown};
use kinds::Kind;
use std::alloc::{AllocError, Global};
use std::error::Error;
use std::fmt;

// Why there are no speeds.
#[derive(Clone, Copy, PartialEq, Eq, Debug)]
pub enum Unplanned {
    // There is no lawful profile: the least junction up to which there is none.
    Blocked(usize),
    // No memory was left for the speeds.
    Memory(AllocError),
}

impl fmt::Display for Unplanned {
    ghost output = { unplanned_text };

    fn fmt<W: fmt::Write>(&self, f: &mut fmt::Formatter<W>) -> fmt::Result {
        match self {
            Unplanned::Blocked(junction) => write!(
                f,
                "no lawful profile up to junction {junction}"
            ),
            Unplanned::Memory(error) => write!(f, "{error}"),
        }
    }
}

impl Error for Unplanned {}

impl From<AllocError> for Unplanned {
    ghost from_gives = { λ error unplanned. unplanned ≡ Memory error };

    fn from(error: AllocError) -> Unplanned {
        Unplanned::Memory(error)
    }
}

// The cap of a junction, from what the block before it allows there and the block after it.
fn junction_cap(before: u32, next: &Block) -> u32
    ensures { result ≡ min before (own_cap next.now) }
{
    before.min(next.own_cap())
}

// One step of a pass: what the change along a block makes of a speed, under a bound.
fn next_speed(bound: u32, speed: u32, change: u32) -> u32
    ensures { result ≡ min bound (speed ⊕ change) }
{
    Run { cap: bound, change }.through(speed)
}

// The cap of each junction, of which there is one more than of blocks.
pub fn junction_caps(heap: Global, blocks: &[Block]) -> Result<Vec<u32>, AllocError>
    ensures value { IfOk result (λ v. v.items ≡ junction_caps blocks.now) }
    ensures cases { IfOk result (λ v. Caps blocks.now (at v.items)) }
{
    let mut caps = Vec::new(heap);
    let mut before = u32::MAX;
    for block in blocks {
        caps.push(junction_cap(before, block))?;
        before = block.own_cap().min(block.corner_cap());
    }
    caps.push(0)?;
    Ok(caps)
}

// From the caps of the junctions to the greatest speeds from which the rest of the blocks can come to rest.
fn reverse_pass(speeds: &mut [u32], blocks: &[Block])
    requires { speeds.old ≡ junction_caps blocks.now }
    ensures { speeds.new ≡ map (reverse_at blocks.now) (range_with_len 0 (suc (length blocks.now))) }
{
    // Written by index: tried with `iter_mut().zip(blocks)`, and the proof does not close, since no contract of the library
    // says what such an adapter leaves in the elements.
    for (j, block) in blocks.iter().enumerate().rev() {
        speeds[j] = next_speed(speeds[j], speeds[j + 1], block.fall());
    }
}

// From those to the speeds that are reached from the start.
fn forward_pass(speeds: &mut [u32], blocks: &[Block], start: u32)
    requires { speeds.old ≡ map (reverse_at blocks.now) (range_with_len 0 (suc (length blocks.now))) }
    ensures { speeds.new ≡ speeds_of blocks.now start }
{
    speeds[0] = start;
    // By index, for the reason in the reverse pass.
    for (j, block) in blocks.iter().enumerate() {
        speeds[j + 1] = next_speed(speeds[j + 1], speeds[j], block.rise());
    }
}

// Prefix by prefix, each by the run-down of its blocks.
fn first_blocked(blocks: &[Block], start: u32) -> usize
    ensures { result ≡ first_blocked blocks.now start }
{
    let mut run = RunDown::unit();
    for (m, block) in blocks.iter().enumerate() {
        if start > run.through(block.own_cap()) {
            return m;
        }
        run = RunDown::join(run, RunDown::of(block));
    }
    blocks.len()
}

// Both passes, from the caps of the junctions to the speeds. The speeds go beside the blocks, since there is one junction more
// than there are blocks; a struct of these and the start would be made in `plan_speeds` only, which is no plainer.
fn both_passes(speeds: &mut [u32], blocks: &[Block], start: u32) -> Result<(), Unplanned>
    requires { speeds.old ≡ junction_caps blocks.now }
    ensures { IfPlanned (λ _. speeds.new) result (λ outcome. outcome ≡ planned blocks.now start) }
{
    reverse_pass(speeds, blocks);
    if start > speeds[0] {
        return Err(Unplanned::Blocked(first_blocked(blocks, start)));
    }
    forward_pass(speeds, blocks, start);
    Ok(())
}

// The greatest lawful profile with a start, by the reverse pass and the forward pass: the squared speed at each junction.
#[tactic(auto, using(crate::proofs::Lawfulness::passes, crate::proofs::Blocking::prefixes, crate::proofs::Blocking::planned_then_right))]
pub fn plan_speeds(heap: Global, blocks: &[Block], start: u32) -> Result<Vec<u32>, Unplanned>
    ensures value { IfPlanned vec_items result (λ outcome. outcome ≡ planned blocks.now start) }
    ensures right { IfPlanned vec_items result (Right blocks.now start) }
    ensures passes { Passes blocks.now }
    ensures prefixes { Prefixes blocks.now }
{
    let mut speeds = junction_caps(heap, blocks)?;
    both_passes(&mut speeds, blocks, start)?;
    Ok(speeds)
}
