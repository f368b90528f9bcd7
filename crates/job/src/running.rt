// Whole jobs on a plan, and the text that they come to.
ghost use Rattle.std.specs.Prelude.{◌≡◌, ℕ, ◌+◌, ◌*◌, ◌<◌, ◌≤◌, true, false, [], ◌++◌, length, take, is_some, is_ok, IfOk, Some, Ok, Err, vec_len, vec_capacity, nat_le};
ghost use Rattle.job.specs.Lines.{refused_line};
ghost use Rattle.job.specs.Outputs.{lines_of, placed_calls, model_after, job_output, job_model};
ghost use Rattle.job.specs.Texts.{text_room, Short, Wrote};
ghost use Rattle.job.specs.Verdicts.{verdict_of};
ghost use Rattle.plan.specs.Meaning.{model_of};
ghost use Rattle.plan.specs.Models.{opened};
ghost use Rattle.refusals.specs.declared.Refusal.{Refusal};

use crate::lines::{LINE_ROOM, put_answer};
use crate::reading::Reader;
use crate::whole::verdict;
use plan::Plan;
use plan::calls::Answer;
use plan::summaries::Blocks;
use refusals::Refusal;
use std::alloc::{AllocError, Global};

// A line has at most 64 bytes, and its field at least four.
const LINE_SHARE: usize = 16;

// The bytes that the text of a job fits into, whatever it says.
fn text_room(job: &[u8]) -> usize
    ensures { result ≡ text_room (length job.now) }
{
    job.len().saturating_mul(LINE_SHARE).max(LINE_ROOM)
}

// The functions below hand on the plan, the job and the text as they are: a struct of three borrows would serve one call.

// Runs an accepted job, none of whose steps is refused, and answers how long its text is at the front of a buffer.
fn run_fields<S: Blocks>(plan: &mut Plan<S>, job: &[u8], text: &mut [u8]) -> usize
    requires whole { verdict_of job.now ≡ Ok tt }
    requires room { length job.now * 16 ≤ length text.old }
    ensures value { Wrote (lines_of (model_of S.Sequence.list S.Sequence.room plan.old) (placed_calls job.now)) result text.old text.new }
    ensures after { model_of S.Sequence.list S.Sequence.room plan.new ≡ model_after (model_of S.Sequence.list S.Sequence.room plan.old) (placed_calls job.now) }
{
    let mut reader = Reader::new(job);
    let mut at = 0;
    while let Ok(Some(written)) = reader.step(plan, &mut text[at..]) {
        at += written;
    }
    at
}

// Runs a whole job on a plan and writes its text at the front of a buffer that has room for it, as `run_into` does.
fn run_within<S: Blocks>(plan: &mut Plan<S>, job: &[u8], text: &mut [u8]) -> usize
    requires { text_room (length job.now) ≤ length text.old }
    ensures value { Wrote (job_output (model_of S.Sequence.list S.Sequence.room plan.old) job.now) result text.old text.new }
    ensures after { model_of S.Sequence.list S.Sequence.room plan.new ≡ job_model (model_of S.Sequence.list S.Sequence.room plan.old) job.now }
    ensures refused { (why : Refusal) → verdict_of job.now ≡ Err why → plan.new ≡ plan.old }
{
    match verdict(job) {
        Ok(()) => run_fields(plan, job, text),
        Err(why) => put_answer(text, Answer::Edit(Err(why)), 0),
    }
}

// Runs a whole job on a plan and writes its text at the front of a buffer, for a panel without a heap: a line for each field, or the one line of a job
// that the verdict refuses, of which nothing is run. Answers how long the text is, or none where the buffer has less than
// 16 bytes for each of the job's, or less than 64; then nothing is altered.
pub fn run_into<S: Blocks>(plan: &mut Plan<S>, job: &[u8], text: &mut [u8]) -> Option<usize>
    ensures told { is_some result ≡ nat_le (text_room (length job.now)) (length text.old) }
    ensures short { length text.old < text_room (length job.now) → Short result (plan.new ≡ plan.old) (text.new ≡ text.old) }
    ensures value { text_room (length job.now) ≤ length text.old → (n : ℕ) × (result ≡ Some n) × Wrote (job_output (model_of S.Sequence.list S.Sequence.room plan.old) job.now) n text.old text.new }
    ensures after { text_room (length job.now) ≤ length text.old → model_of S.Sequence.list S.Sequence.room plan.new ≡ job_model (model_of S.Sequence.list S.Sequence.room plan.old) job.now }
    ensures refused { (why : Refusal) → verdict_of job.now ≡ Err why → plan.new ≡ plan.old }
{
    if text.len() < text_room(job) {
        return None;
    }
    Some(run_within(plan, job, text))
}

// Adds the first bytes of a line to a text that has room for them.
fn append(text: &mut Vec<u8>, line: &[u8], written: usize)
    requires within { written ≤ length line.now }
    requires room { vec_len text.old + written ≤ vec_capacity text.old }
    ensures items { text.new.items ≡ text.old.items ++ take written line.now }
    ensures len { vec_len text.new ≡ vec_len text.old + written }
    ensures capacity { vec_capacity text.old ≤ vec_capacity text.new }
{
    let _ = text.extend_from_slice(&line[..written]);
}

// Runs an accepted job as `run_fields` does, and adds its lines to an empty text. A loop of its own: the text as a slice would
// have to be written whole before the first line, sixteen bytes for each of the job's, of which most lines need few.
fn add_fields<S: Blocks>(plan: &mut Plan<S>, job: &[u8], text: &mut Vec<u8>)
    requires whole { verdict_of job.now ≡ Ok tt }
    requires items { text.old.items ≡ [] }
    requires len { vec_len text.old ≡ 0 }
    requires room { length job.now * 16 ≤ vec_capacity text.old }
    ensures lines { text.new.items ≡ lines_of (model_of S.Sequence.list S.Sequence.room plan.old) (placed_calls job.now) }
    ensures after { model_of S.Sequence.list S.Sequence.room plan.new ≡ model_after (model_of S.Sequence.list S.Sequence.room plan.old) (placed_calls job.now) }
{
    let mut reader = Reader::new(job);
    let mut line = [0u8; LINE_ROOM];
    while let Ok(Some(written)) = reader.step(plan, &mut line) {
        append(text, &line, written);
    }
}

// The one line of a job that the verdict refuses, in as much memory as a line may take, however long the job is.
fn refused_text(heap: Global, why: Refusal) -> Result<Vec<u8>, AllocError>
    ensures { IfOk result (λ v. v.items ≡ refused_line why 0) }
{
    let mut text = vec![in heap; 0u8; LINE_ROOM]?;
    let written = put_answer(&mut text, Answer::Edit(Err(why)), 0);
    text.truncate(written);
    Ok(text)
}

// Runs a whole job on a plan, and answers what it prints: a line for each field, or the one line of a job that the
// verdict refuses, of which nothing is run. Where there is no memory for the text, the plan is left as it was.
pub fn run<S: Blocks>(heap: Global, plan: &mut Plan<S>, job: &[u8]) -> Result<Vec<u8>, AllocError>
    ensures value { IfOk result (λ v. v.items ≡ job_output (model_of S.Sequence.list S.Sequence.room plan.old) job.now) }
    ensures after { is_ok result ≡ true → model_of S.Sequence.list S.Sequence.room plan.new ≡ job_model (model_of S.Sequence.list S.Sequence.room plan.old) job.now }
    ensures refused { is_ok result ≡ false → plan.new ≡ plan.old }
{
    if let Err(why) = verdict(job) {
        return refused_text(heap, why);
    }
    let Some(room) = job.len().checked_mul(LINE_SHARE) else {
        return Err(AllocError);
    };
    let mut text = Vec::with_capacity(heap, room)?;
    add_fields(plan, job, &mut text);
    Ok(text)
}

// Runs a whole job on a new plan over any sequence of blocks that is still empty, as the opening of a plan asks.
pub fn run_over<S: Blocks + Drop>(
    heap: Global,
    blocks: S,
    job: &[u8],
) -> Result<Vec<u8>, AllocError>
    requires { S.Sequence.list blocks ≡ [] }
    ensures { IfOk result (λ v. v.items ≡ job_output (opened (S.Sequence.room blocks)) job.now) }
{
    let mut plan = Plan::open(blocks);
    run(heap, &mut plan, job)
}
