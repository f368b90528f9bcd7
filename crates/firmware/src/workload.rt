// Seeded calls on a plan, for comparison with another program and for benchmarks.
ghost use Rattle.std.specs.Prelude.{◌≡◌, [], length};
ghost use Rattle.firmware.specs.Digests.{refusal_code, coordinate_code, with_coordinate, with_bounds, extent_code, code_of, digested_by, digest_of, workload, work_calls, DeepAs};
ghost use Rattle.firmware.specs.Seeded.{mix_of};
ghost use Rattle.plan.specs.Calls.{answers, after_all};
ghost use Rattle.plan.specs.Meaning.{model_of};
ghost use Rattle.plan.specs.Models.{opened};

use crate::NUMBERS;
use crate::seeded::{Draws, Mix};
use motion::{Bounds, Extent};
use plan::Plan;
use plan::calls::Answer;
use plan::summaries::Blocks;
use refusals::{Named, Refusal};
use sequences::deep::Deep;

// Seeded calls, by how many blocks they fill a plan with and what comes then.
#[derive(Clone, Copy)]
pub struct Workload {
    pub seed: u64,
    pub size: u16,
    pub mix: Mix,
    pub count: u32,
}

impl Workload {
    // The byte says what comes once the plan is filled.
    pub fn new(seed: u64, size: u16, mix: u8, count: u32) -> Workload
        ensures { result ≡ workload seed size (mix_of mix) count }
    {
        Workload {
            seed,
            size,
            mix: Mix::from(mix),
            count,
        }
    }
}

const REFUSED: u64 = 1_099_511_627_776;

const DIGEST_FACTOR: u64 = 1_099_511_628_211;

// A number, since C takes no enum of ours. A definition of its own beside a fault's code: a verdict names no junction and an answer of
// a plan no offset, and each leaves the other's name out.
fn refusal_code(why: Refusal) -> u64
    ensures { result ≡ refusal_code why }
{
    let number = REFUSED + u64::from(why.number()) * NUMBERS;
    match why.named() {
        Some(Named::Junction(junction)) => number + u64::from(junction),
        Some(Named::Offset(_)) | None => number,
    }
}

fn coordinate_code(c: i32) -> u64
    ensures { result ≡ coordinate_code c }
{
    u64::from(c.abs_diff(i32::MIN))
}

fn with_coordinate(code: u64, c: i32) -> u64
    ensures { result ≡ with_coordinate code c }
{
    code.wrapping_mul(31).wrapping_add(coordinate_code(c))
}

fn with_bounds(code: u64, bounds: Bounds) -> u64
    ensures { result ≡ with_bounds code bounds }
{
    with_coordinate(with_coordinate(code, bounds.least), bounds.greatest)
}

fn extent_code(extent: Extent) -> u64
    ensures { result ≡ extent_code extent }
{
    let Extent { x, y, z } = extent;
    let along_x = with_coordinate(coordinate_code(x.least), x.greatest);
    with_bounds(with_bounds(along_x, y), z)
}

// An answer as a number, since C takes no enum of ours, and a program in another language makes the digest too.
fn code_of(answer: Answer) -> u64
    ensures { result ≡ code_of answer }
{
    match answer {
        Answer::Edit(Ok(())) => 0,
        Answer::Speed(Ok(n)) | Answer::Length(Ok(n)) => u64::from(n),
        Answer::Extent(Ok(None)) => 1,
        Answer::Extent(Ok(Some(extent))) => extent_code(extent),
        Answer::Edit(Err(why))
        | Answer::Speed(Err(why))
        | Answer::Length(Err(why))
        | Answer::Extent(Err(why)) => refusal_code(why),
    }
}

#[tactic(auto, unfolding(crate::specs::Digests::digested_by))]
fn digested(digest: u64, answer: Answer) -> u64
    ensures { result ≡ digested_by digest answer }
{
    digest
        .wrapping_mul(DIGEST_FACTOR)
        .wrapping_add(code_of(answer))
}

fn digest_calls<S: Blocks>(plan: &mut Plan<S>, work: Workload) -> u64
    ensures value { result ≡ digest_of (answers (model_of S.Sequence.list S.Sequence.room plan.old) (work_calls work)) }
    ensures after { model_of S.Sequence.list S.Sequence.room plan.new ≡ after_all (model_of S.Sequence.list S.Sequence.room plan.old) (work_calls work) }
{
    let mut digest = 0;
    // By the number of each call, from which it is drawn: a fold by a closure that changes the plan would leave nothing that is
    // known of it.
    for call in 0..work.count {
        let draws = Draws {
            seed: work.seed,
            size: work.size,
            call,
        };
        digest = digested(digest, plan.apply(draws.drawn_call(work.mix)));
    }
    digest
}

// Over an empty sequence, as the opening of a plan asks.
pub(crate) fn digest_over<S: Blocks + Drop>(blocks: S, work: Workload) -> u64
    requires { S.Sequence.list blocks ≡ [] }
    ensures { result ≡ digest_of (answers (opened (S.Sequence.room blocks)) (work_calls work)) }
{
    let mut plan = Plan::open(blocks);
    digest_calls(&mut plan, work)
}

// Over an empty sequence, as the opening of a plan asks.
pub(crate) fn depth_over<S: Blocks + Deep + Drop>(blocks: S, work: Workload) -> u8
    requires { S.Sequence.list blocks ≡ [] }
    ensures { DeepAs result (length (after_all (opened (S.Sequence.room blocks)) (work_calls work)).entries) }
{
    let mut plan = Plan::open(blocks);
    let _ = digest_calls(&mut plan, work);
    plan.depth()
}
