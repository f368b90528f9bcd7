// Runs the job on standard input on a plan over a tree of 256 rows, and prints a line for each of its fields.
#![tactic(auto)]

ghost use Rattle.std.specs.Prelude.{◌≡◌, ◌≤◌, min, length, IfOk};
ghost use Rattle.job.specs.Outputs.{job_output};
ghost use Rattle.plan.specs.Models.{opened};

use job::running::run_over;
use motion::Block;
use plan::summaries::{PlanKind, Summary};
use rows::{Row, idle};
use std::alloc::{AllocError, Global};
use std::io;
use std::io::{Read, Write};
use tree::Tree;

// The most bytes of the input that are read.
const MOST: usize = 32_768;

const ROWS: usize = 256;

// Reads until the buffer is full or the input ends, and answers how much came. Into a buffer of its own and no `Vec`, so that
// reading never wants memory: a job that is refused needs that of its one line alone.
fn fill<R: Read>(input: &mut R, buffer: &mut [u8]) -> io::Result<usize>
    ensures { IfOk result (λ count. count ≤ length buffer.new) }
{
    let mut count = 0;
    while count < buffer.len() {
        let more = input.read(&mut buffer[count..])?;
        if more == 0 {
            break;
        }
        count += more;
    }
    Ok(count)
}

// What the job prints, on a new plan over a tree of the rows.
fn output(heap: Global, rows: &mut [Row<Block, Summary>], job: &[u8]) -> Result<Vec<u8>, AllocError>
    ensures { IfOk result (λ text. text.items ≡ job_output (opened (min (length rows.old) 4096)) job.now) }
{
    let blocks: Tree<PlanKind> = Tree::open(rows);
    run_over(heap, blocks, job)
}

fn run_input(rt: &HostRuntime) -> anyhow::Result<()> {
    let mut bytes = [0u8; MOST];
    let count = fill(&mut rt.stdin(), &mut bytes)?;
    let mut rows = [idle::<PlanKind>(Block::idle()); ROWS];
    let text = output(rt.alloc(), &mut rows, &bytes[..count])?;
    rt.stdout().write_all(&text)?;
    Ok(())
}

fn main(rt: HostRuntime) -> anyhow::Result<()> {
    run_input(&rt)
}
