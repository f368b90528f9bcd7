// The questions of a plan: each is answered from a few summaries of ranges, and alters nothing.
ghost use Rattle.std.specs.Prelude.{◌≡◌, ◌≤◌, length};
ghost use Rattle.kinds.specs.Rules.{summary};
ghost use Rattle.motion.specs.ByParts.{run_down_to};
ghost use Rattle.motion.specs.Profiles.{Starts, first_blocked, own_at};
ghost use Rattle.plan.specs.Meaning.{model_of};
ghost use Rattle.plan.specs.Models.{blocks_of, no_range, plan_rule, junction_told, reach_told, span_told};
ghost use Rattle.plan.specs.Promises.{JunctionRight, ReachRight, SpanRight};
ghost use Rattle.sequences.specs.Lists.{ranged};
ghost use Rattle.std.specs.List.{between};

use crate::edits::check_range;
use crate::summaries::{Blocks, Summary};
use crate::{NO_RANGE, Plan};
use motion::{Block, Extent};
use refusals::Refusal;

// The greatest squared speed that a question may start from.
const MOST_START: u32 = 100_000_000;

// Over the sequence, as in the edits: a method would have to show at each return what the type says.

// What a range of blocks comes to. The sequence knows which ranges there are.
fn sum_up<S: Blocks>(blocks: &mut S, i: u16, j: u16) -> Result<Summary, Refusal>
    ensures value { result ≡ ranged no_range (S.Sequence.list blocks.old) i j (summary plan_rule (between i j (S.Sequence.list blocks.old))) }
    ensures same { blocks.new ≡ blocks.old }
{
    blocks.range_join(i, j).map_err(|_| NO_RANGE)
}

// The own cap of block `i`, or 0 past the last.
fn own_cap<S: Blocks>(blocks: &mut S, i: u16) -> u32
    ensures value { result ≡ own_at (S.Sequence.list blocks.old) i }
    ensures same { blocks.new ≡ blocks.old }
{
    blocks.element_at(i).map_or(0, Block::own_cap)
}

// The greatest start of a lawful profile up to junction `m`.
fn greatest_start<S: Blocks>(blocks: &mut S, m: u16) -> u32
    requires { m ≤ length (S.Sequence.list blocks.old) }
    ensures value { result ≡ run_down_to (S.Sequence.list blocks.old) m }
    ensures same { blocks.new ≡ blocks.old }
{
    let Ok(before) = sum_up(blocks, 0, m) else {
        unreachable()
    };
    before.first.second.through(own_cap(blocks, m))
}

// The least junction up to which no lawful profile starts at `s`, where none does up to the last. A loop,
// since a question takes &mut self: what it leaves as it was has to be carried through the search.
fn first_blocked<S: Blocks>(blocks: &mut S, count: u16, s: u32) -> u16
    requires { count ≡ length (S.Sequence.list blocks.old) }
    ensures value { (Starts (S.Sequence.list blocks.old) (length (S.Sequence.list blocks.old)) s → ⊥) → result ≡ first_blocked (S.Sequence.list blocks.old) s }
    ensures same { blocks.new ≡ blocks.old }
{
    let mut low = 0;
    let mut high = count;
    while low < high {
        let middle = low + (high - low) / 2;
        if s <= greatest_start(blocks, middle) {
            low = middle + 1;
        } else {
            high = middle;
        }
    }
    low
}

impl<S: Blocks> Plan<S> {
    // The squared speed at junction `j` for a start at `s`: that of the greatest lawful profile.
    pub fn junction(&mut self, j: u16, s: u32) -> Result<u32, Refusal>
        ensures value { result ≡ junction_told (model_of S.Sequence.list S.Sequence.room self.old) j s }
        ensures right { JunctionRight (blocks_of (model_of S.Sequence.list S.Sequence.room self.old)) j s result }
        ensures same { self.new ≡ self.old }
    {
        if s > MOST_START {
            return Err(Refusal::Speed);
        }
        let count = self.blocks.count();
        // Before any summary, since a flat list walks a range to sum it up.
        if j > count {
            return Err(NO_RANGE);
        }
        let whole = sum_up(&mut self.blocks, 0, count)?.first.second;
        if s > whole.through(0) {
            return Err(Refusal::Blocked(first_blocked(&mut self.blocks, count, s)));
        }
        let before = sum_up(&mut self.blocks, 0, j)?.first.first;
        let after = sum_up(&mut self.blocks, j, count)?.first.second;
        Ok(before.through(s).min(after.through(0)))
    }

    // The box of the targets of a range, or none where the range is empty.
    pub fn reach(&mut self, i: u16, j: u16) -> Result<Option<Extent>, Refusal>
        ensures value { result ≡ reach_told (model_of S.Sequence.list S.Sequence.room self.old) i j }
        ensures right { ReachRight (blocks_of (model_of S.Sequence.list S.Sequence.room self.old)) i j result }
        ensures same { self.new ≡ self.old }
    {
        // Told by the count alone, since a tree walks down to where an empty range would be.
        if i == j {
            check_range(&mut self.blocks, i, j)?;
            return Ok(None);
        }
        let told = sum_up(&mut self.blocks, i, j);
        told.map(|summary| Some(summary.second.first))
    }

    // The length of a range.
    pub fn span(&mut self, i: u16, j: u16) -> Result<u32, Refusal>
        ensures value { result ≡ span_told (model_of S.Sequence.list S.Sequence.room self.old) i j }
        ensures right { SpanRight (blocks_of (model_of S.Sequence.list S.Sequence.room self.old)) i j result }
        ensures same { self.new ≡ self.old }
    {
        sum_up(&mut self.blocks, i, j).map(|summary| summary.second.second)
    }
}
