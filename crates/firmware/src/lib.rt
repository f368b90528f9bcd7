// The library behind a few functions on numbers and bytes, for firmware and for tests in other languages. Nothing here
// allocates, and no call leaves anything behind: a plan lives on the stack of the call that makes it. C hands over a seed, a
// size, a mix and a count one by one.
#![tactic(auto)]

ghost use Rattle.std.specs.Prelude.{◌≡◌, length};
ghost use Rattle.firmware.specs.Digests.{digest_of, DeepAs};
ghost use Rattle.firmware.specs.Jobs.{verdict_code, Ran};
ghost use Rattle.firmware.specs.Seeded.{calls_of, mix_of};
ghost use Rattle.job.specs.Verdicts.{verdict_of};
ghost use Rattle.plan.specs.Calls.{answers, after_all};
ghost use Rattle.plan.specs.Models.{opened};

use motion::Block;
use plan::summaries::{PlanKind, Summary};
use rows::{Row, idle};
use sequences::flat::FlatList;
use tree::Tree;
use workload::{Workload, depth_over, digest_over};

mod jobs;
pub mod seeded;
pub mod workload;

// Numbers of refusals stand above 32 bits, and what they name below.
const NUMBERS: u64 = 4_294_967_296;

// The rows of a plan that runs a job.
const JOB_ROWS: usize = 256;

const MOST_ROWS: usize = 4096;

const MOST_SLOTS: usize = 256;

// What a row holds before its first use.
fn idle_row() -> Row<Block, Summary> {
    idle::<PlanKind>(Block::idle())
}

// The verdict on a job.
#[unsafe(no_mangle)]
pub extern "C" fn jigsorrel_verdict(job: &[u8]) -> u64
    ensures { result ≡ verdict_code (verdict_of job.now) }
{
    jobs::verdict_of(job)
}

// Runs a job on a new plan over a tree of 256 rows. Rows live on the stack of the function that opens a tree over them, so each
// exported function opens its own.
#[unsafe(no_mangle)]
pub extern "C" fn jigsorrel_run_job(job: &[u8], text: &mut [u8]) -> u64
    ensures { Ran (opened 256) job.now text.old text.new result }
{
    let mut rows = [idle_row(); JOB_ROWS];
    let blocks: Tree<PlanKind> = Tree::open(&mut rows);
    jobs::run_over(blocks, job, text)
}

// The digest of what seeded calls are answered by a plan over a tree of 4,096 rows.
#[unsafe(no_mangle)]
pub extern "C" fn jigsorrel_calls_on_tree(seed: u64, size: u16, mix: u8, count: u32) -> u64
    ensures { result ≡ digest_of (answers (opened 4096) (calls_of seed size (mix_of mix) count)) }
{
    let mut rows = [idle_row(); MOST_ROWS];
    let blocks: Tree<PlanKind> = Tree::open(&mut rows);
    digest_over(blocks, Workload::new(seed, size, mix, count))
}

// The depth that the same calls leave the tree at.
#[unsafe(no_mangle)]
pub extern "C" fn jigsorrel_depth_after(seed: u64, size: u16, mix: u8, count: u32) -> u8
    ensures { DeepAs result (length (after_all (opened 4096) (calls_of seed size (mix_of mix) count)).entries) }
{
    let mut rows = [idle_row(); MOST_ROWS];
    let blocks: Tree<PlanKind> = Tree::open(&mut rows);
    depth_over(blocks, Workload::new(seed, size, mix, count))
}

// The same over a flat list of 256 slots. C takes no type parameter, so each sequence has a function and a name.
#[unsafe(no_mangle)]
pub extern "C" fn jigsorrel_calls_on_list(seed: u64, size: u16, mix: u8, count: u32) -> u64
    ensures { result ≡ digest_of (answers (opened 256) (calls_of seed size (mix_of mix) count)) }
{
    let mut slots = [Block::idle(); MOST_SLOTS];
    let blocks: FlatList<PlanKind> = FlatList::open(&mut slots);
    digest_over(blocks, Workload::new(seed, size, mix, count))
}
