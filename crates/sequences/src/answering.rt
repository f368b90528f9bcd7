// Whatever answers calls one at a time, and runs of its calls.
ghost use Rattle.std.specs.Prelude.{◌≡◌, false, is_ok, IfOk};
ghost use Rattle.sequences.specs.Runs.{Ran};

use std::alloc::{AllocError, Global};

// `step` says what a call may answer, and what it leaves.
pub trait Answering {
    type Call: Copy;

    type Answer;

    ghost step: { Self → Self.Call → Self.Answer → Self → Type 0 };

    fn make(&mut self, call: Self::Call) -> Self::Answer
        ensures { step self.old call result self.new };
}

// Makes the calls one after the other, and collects what they answer. Where there is no memory for the answers, it
// makes none of them.
pub fn make_all<M: Answering>(
    heap: Global,
    machine: &mut M,
    calls: &[M::Call],
) -> Result<Vec<M::Answer>, AllocError>
    ensures ran { IfOk result (λ v. Ran M.Answering.step machine.old calls.now v.items machine.new) }
    ensures refused { is_ok result ≡ false → machine.new ≡ machine.old }
{
    let mut answers = Vec::with_capacity(heap, calls.len())?;
    for call in calls {
        answers.push_reserved(machine.make(*call));
    }
    Ok(answers)
}
