// The edits of a plan: each alters one block or a range of blocks, and lets the block after it begin where it now must.
ghost use Rattle.std.specs.Prelude.{◌≡◌, suc, ◌<◌, ◌≤◌, length, Ok, Err};
ghost use Rattle.motion.specs.Figures.{at_percent};
ghost use Rattle.motion.specs.declared.blocks.Block.{Block};
ghost use Rattle.motion.specs.Laid.{begun_again};
ghost use Rattle.motion.specs.Ranges.{check_position, ValidMove};
ghost use Rattle.plan.specs.Keeping.{begin_answer, block_answer};
ghost use Rattle.plan.specs.Meaning.{start_of, model_of};
ghost use Rattle.plan.specs.Models.{insert_told, insert_model, replace_told, replace_model, delete_told, delete_model, override_told, override_model, start_model, altered, changed_in, no_range};
ghost use Rattle.sequences.specs.Lists.{ranged};
ghost use Rattle.refusals.specs.declared.Refusal.{Refusal};

use crate::summaries::Blocks;
use crate::{NO_RANGE, Plan};
use motion::moves::check_position;
use motion::{Block, Move};
use refusals::Refusal;

// The override of a move that was just put in, and the least and the greatest that can be set.
const FULL_PERCENT: u8 = 100;

const LEAST_PERCENT: u8 = 10;

const MOST_PERCENT: u8 = 200;

// The functions above the methods are over the sequence: a method would have to show at each return what the type says. Each
// edit says that the room stays, and each question that all does, as the calls of a sequence do.

// Lets block `i`, if there is one, be what `change` makes of it.
fn alter<S: Blocks, F: FnOnce(Block) -> Block>(blocks: &mut S, i: u16, change: F)
    requires { F.IsAlwaysCallable change }
    ensures after { (f : Block → Block) → ((b c : Block) → F.post change b c → c ≡ f b) → S.Sequence.list blocks.new ≡ altered f (S.Sequence.list blocks.old) i }
    ensures room { S.Sequence.room blocks.new ≡ S.Sequence.room blocks.old }
{
    if let Ok(block) = blocks.element_at(i) {
        let _ = blocks.replace(i, change(block));
    }
}

// Lets block `i`, if there is one, begin somewhere else.
fn begin_again<S: Blocks>(blocks: &mut S, i: u16, begin: [i32; 3])
    ensures after { S.Sequence.list blocks.new ≡ begun_again (S.Sequence.list blocks.old) i begin }
    ensures room { S.Sequence.room blocks.new ≡ S.Sequence.room blocks.old }
{
    alter(blocks, i, |block| block.begun_at(begin));
}

// Lets the block after block `i`, if there is one, begin somewhere else.
fn begin_next<S: Blocks>(blocks: &mut S, i: u16, begin: [i32; 3])
    requires { i < length (S.Sequence.list blocks.old) }
    ensures after { S.Sequence.list blocks.new ≡ begun_again (S.Sequence.list blocks.old) (suc i) begin }
    ensures room { S.Sequence.room blocks.new ≡ S.Sequence.room blocks.old }
{
    if i < blocks.count() - 1 {
        begin_again(blocks, i + 1, begin);
    }
}

// Sets the override of each block from `i` up to but without `j`.
fn override_range<S: Blocks>(blocks: &mut S, i: u16, j: u16, percent: u8)
    requires order { i ≤ j }
    requires within { j ≤ length (S.Sequence.list blocks.old) }
    ensures after { S.Sequence.list blocks.new ≡ changed_in (λ b. at_percent b percent) (S.Sequence.list blocks.old) i j }
    ensures room { S.Sequence.room blocks.new ≡ S.Sequence.room blocks.old }
{
    // By place: by a rule of the project a sequence's calls take a place, and it lends no element to an iterator.
    for k in i..j {
        alter(blocks, k, |block| block.at_percent(percent));
    }
}

// Where block `i` begins, or would begin, behind a start.
fn begin_of<S: Blocks>(start: [i32; 3], blocks: &mut S, i: u16) -> Result<[i32; 3], Refusal>
    ensures value { result ≡ begin_answer start (S.Sequence.list blocks.old) i }
    ensures same { blocks.new ≡ blocks.old }
{
    match i.checked_sub(1) {
        None => Ok(start),
        Some(before) => blocks.element_at(before).map(Block::target),
    }
}

// The block that a move makes at place `i`, at full override.
fn block_at<S: Blocks>(start: [i32; 3], blocks: &mut S, i: u16, m: Move) -> Result<Block, Refusal>
    ensures value { result ≡ block_answer start (S.Sequence.list blocks.old) i m }
    ensures valid { (block : Block) → result ≡ Ok block → ValidMove m }
    ensures places { length m.target ≡ 3 }
    ensures same { blocks.new ≡ blocks.old }
{
    m.check()?;
    let begin = begin_of(start, blocks, i)?;
    Ok(Block::new(begin, m, FULL_PERCENT))
}

// Refuses a range that there is not, by the plan's own refusal. One comparison, as in the sequences: a function for all of them
// would be no shorter at a call.
pub(crate) fn check_range<S: Blocks>(blocks: &mut S, i: u16, j: u16) -> Result<(), Refusal>
    ensures value { result ≡ ranged no_range (S.Sequence.list blocks.old) i j tt }
    ensures same { blocks.new ≡ blocks.old }
{
    if i > j || j > blocks.count() {
        return Err(NO_RANGE);
    }
    Ok(())
}

impl<S: Blocks> Plan<S> {
    // Where the first block begins.
    fn begin(&self) -> [i32; 3]
        ensures { result ≡ start_of self.now }
    {
        [self.start_x, self.start_y, self.start_z]
    }

    // Puts a move before block `i`, or last, at full override.
    pub fn insert(&mut self, i: u16, m: Move) -> Result<(), Refusal>
        ensures value { result ≡ insert_told (model_of S.Sequence.list S.Sequence.room self.old) i m }
        ensures after { model_of S.Sequence.list S.Sequence.room self.new ≡ insert_model (model_of S.Sequence.list S.Sequence.room self.old) i m }
        ensures refused { (why : Refusal) → result ≡ Err why → self.new ≡ self.old }
    {
        let block = block_at(self.begin(), &mut self.blocks, i, m)?;
        self.blocks.insert(i, block)?;
        begin_next(&mut self.blocks, i, m.target);
        Ok(())
    }

    // Puts a move in the place of block `i`, at full override. One function for both would take the sequence's call as a
    // closure, which is longer than the call.
    pub fn replace(&mut self, i: u16, m: Move) -> Result<(), Refusal>
        ensures value { result ≡ replace_told (model_of S.Sequence.list S.Sequence.room self.old) i m }
        ensures after { model_of S.Sequence.list S.Sequence.room self.new ≡ replace_model (model_of S.Sequence.list S.Sequence.room self.old) i m }
        ensures refused { (why : Refusal) → result ≡ Err why → self.new ≡ self.old }
    {
        let block = block_at(self.begin(), &mut self.blocks, i, m)?;
        self.blocks.replace(i, block)?;
        begin_next(&mut self.blocks, i, m.target);
        Ok(())
    }

    // Takes block `i` out.
    pub fn delete(&mut self, i: u16) -> Result<(), Refusal>
        ensures value { result ≡ delete_told (model_of S.Sequence.list S.Sequence.room self.old) i }
        ensures after { model_of S.Sequence.list S.Sequence.room self.new ≡ delete_model (model_of S.Sequence.list S.Sequence.room self.old) i }
        ensures refused { (why : Refusal) → result ≡ Err why → self.new ≡ self.old }
    {
        let begin = begin_of(self.begin(), &mut self.blocks, i)?;
        self.blocks.delete(i)?;
        begin_again(&mut self.blocks, i, begin);
        Ok(())
    }

    // Moves the start.
    pub fn start(&mut self, position: [i32; 3]) -> Result<(), Refusal>
        ensures value { result ≡ check_position position }
        ensures after { model_of S.Sequence.list S.Sequence.room self.new ≡ start_model (model_of S.Sequence.list S.Sequence.room self.old) position }
        ensures refused { (why : Refusal) → result ≡ Err why → self.new ≡ self.old }
    {
        check_position(position)?;
        [self.start_x, self.start_y, self.start_z] = position;
        begin_again(&mut self.blocks, 0, position);
        Ok(())
    }

    // Sets the override of each block of a range; an empty range is accepted.
    pub fn set_override(&mut self, i: u16, j: u16, percent: u8) -> Result<(), Refusal>
        ensures value { result ≡ override_told (model_of S.Sequence.list S.Sequence.room self.old) i j percent }
        ensures after { model_of S.Sequence.list S.Sequence.room self.new ≡ override_model (model_of S.Sequence.list S.Sequence.room self.old) i j percent }
        ensures refused { (why : Refusal) → result ≡ Err why → self.new ≡ self.old }
    {
        if !(LEAST_PERCENT..=MOST_PERCENT).contains(&percent) {
            return Err(Refusal::Override);
        }
        check_range(&mut self.blocks, i, j)?;
        override_range(&mut self.blocks, i, j, percent);
        Ok(())
    }
}
