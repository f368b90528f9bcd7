// Whole jobs on a plan of their own.
ghost use Rattle.std.specs.Prelude.{◌≡◌, ◌<◌, ◌≤◌, [], length};
ghost use Rattle.firmware.specs.Jobs.{fault_code, verdict_code, Ran};
ghost use Rattle.job.specs.Verdicts.{verdict_of};
ghost use Rattle.plan.specs.Models.{opened};

use crate::NUMBERS;
use job::running::run_into;
use job::whole::verdict;
use plan::Plan;
use plan::summaries::Blocks;
use refusals::{Named, Refusal};

// What C is answered, which takes no `Option`, where the buffer is too short: no text is as long.
const SHORT: u64 = u64::MAX;

// A number, since C takes no enum of ours: that of a refusal above 32 bits, and the offset below. The digest's code of a refusal is
// another definition (`workload::refusal_code`).
fn fault_code(why: Refusal) -> u64
    ensures { result ≡ fault_code why }
{
    let number = u64::from(why.number()) * NUMBERS;
    match why.named() {
        Some(Named::Offset(offset)) => number + u64::from(offset),
        Some(Named::Junction(_)) | None => number,
    }
}

// The verdict on a job: 0, or the number of its fault above 32 bits for the offset.
pub(crate) fn verdict_of(job: &[u8]) -> u64
    ensures { result ≡ verdict_code (verdict_of job.now) }
{
    match verdict(job) {
        Ok(()) => 0,
        Err(why) => fault_code(why),
    }
}

// Runs a job on a new plan over any sequence that is still empty, as its opening asks, and writes its text at the front of a buffer.
pub(crate) fn run_over<S: Blocks + Drop>(blocks: S, job: &[u8], text: &mut [u8]) -> u64
    requires { S.Sequence.list blocks ≡ [] }
    ensures { Ran (opened (S.Sequence.room blocks)) job.now text.old text.new result }
{
    let mut plan = Plan::open(blocks);
    match run_into(&mut plan, job, text) {
        // Widened by `as`, which reads better than a conversion that could fail.
        Some(written) => written as u64,
        None => SHORT,
    }
}
