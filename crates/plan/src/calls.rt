// The calls of a plan as values, and runs of them.
ghost use Rattle.std.specs.Prelude.{◌≡◌, true, false, Some, is_ok, IfOk};
ghost use Rattle.plan.specs.Calls.{answer, after, answers, after_all, Right, AllRight, Unaltering};
ghost use Rattle.plan.specs.Meaning.{model_of};
ghost use Rattle.plan.specs.Texts.{call_text, answer_text};
ghost use Rattle.sequences.specs.Runs.{Step};

use crate::Plan;
use crate::summaries::Blocks;
use motion::{Extent, Move};
use refusals::Refusal;
use sequences::answering::{Answering, make_all};
use std::alloc::{AllocError, Global};
use std::fmt;

#[derive(Clone, Copy)]
pub enum Call {
    Insert(u16, Move),
    Replace(u16, Move),
    Delete(u16),
    // A range and a percentage.
    Override(u16, u16, u8),
    Start([i32; 3]),
    // A junction and the squared speed at the start.
    Junction(u16, u32),
    Reach(u16, u16),
    Span(u16, u16),
}

impl fmt::Display for Call {
    ghost output = { λ call. Some (call_text call) };

    fn fmt<W: fmt::Write>(&self, f: &mut fmt::Formatter<W>) -> fmt::Result {
        match *self {
            Call::Insert(i, m) => write!(f, "insert at {i} to {m}"),
            Call::Replace(i, m) => write!(f, "replace {i} by {m}"),
            Call::Delete(i) => write!(f, "delete {i}"),
            Call::Override(i, j, percent) => write!(
                f,
                "override from {i} to {j} at {percent} percent"
            ),
            // By a rule of the project a position is an array, which has no `Display` of ours.
            Call::Start(position) => {
                let [x, y, z] = position;
                write!(f, "start at ({x}, {y}, {z})")
            }
            Call::Junction(j, s) => write!(f, "junction {j} from {s}"),
            Call::Reach(i, j) => write!(f, "reach from {i} to {j}"),
            Call::Span(i, j) => write!(f, "span from {i} to {j}"),
        }
    }
}

#[derive(Clone, Copy, PartialEq, Eq)]
pub enum Answer {
    Edit(Result<(), Refusal>),
    Speed(Result<u32, Refusal>),
    Extent(Result<Option<Extent>, Refusal>),
    Length(Result<u32, Refusal>),
}

impl fmt::Display for Answer {
    ghost output = { λ answer. Some (answer_text answer) };

    fn fmt<W: fmt::Write>(&self, f: &mut fmt::Formatter<W>) -> fmt::Result {
        match self {
            Answer::Edit(Ok(())) => f.write_str("ok"),
            Answer::Speed(Ok(number)) | Answer::Length(Ok(number)) => write!(f, "{number}"),
            Answer::Extent(Ok(None)) => f.write_str("none"),
            Answer::Extent(Ok(Some(extent))) => write!(f, "{extent}"),
            Answer::Edit(Err(why))
            | Answer::Speed(Err(why))
            | Answer::Extent(Err(why))
            | Answer::Length(Err(why)) => write!(f, "refused {why}"),
        }
    }
}

impl<S: Blocks> Plan<S> {
    // Makes one call.
    pub fn apply(&mut self, call: Call) -> Answer
        ensures value { result ≡ answer (model_of S.Sequence.list S.Sequence.room self.old) call }
        ensures after { model_of S.Sequence.list S.Sequence.room self.new ≡ after (model_of S.Sequence.list S.Sequence.room self.old) call }
        ensures right { Right (model_of S.Sequence.list S.Sequence.room self.old) call result }
        ensures same { Unaltering call result → self.new ≡ self.old }
    {
        match call {
            Call::Insert(i, m) => Answer::Edit(self.insert(i, m)),
            Call::Replace(i, m) => Answer::Edit(self.replace(i, m)),
            Call::Delete(i) => Answer::Edit(self.delete(i)),
            Call::Override(i, j, percent) => Answer::Edit(self.set_override(i, j, percent)),
            Call::Start(position) => Answer::Edit(self.start(position)),
            Call::Junction(j, s) => Answer::Speed(self.junction(j, s)),
            Call::Reach(i, j) => Answer::Extent(self.reach(i, j)),
            Call::Span(i, j) => Answer::Length(self.span(i, j)),
        }
    }

    // Makes the calls one after the other, and collects what they answer. Where there is no memory for the answers,
    // it makes none of them.
    pub fn run(&mut self, heap: Global, calls: &[Call]) -> Result<Vec<Answer>, AllocError>
        ensures value { IfOk result (λ v. v.items ≡ answers (model_of S.Sequence.list S.Sequence.room self.old) calls.now) }
        ensures right { IfOk result (λ v. AllRight (model_of S.Sequence.list S.Sequence.room self.old) calls.now v.items) }
        ensures after { is_ok result ≡ true → model_of S.Sequence.list S.Sequence.room self.new ≡ after_all (model_of S.Sequence.list S.Sequence.room self.old) calls.now }
        ensures refused { is_ok result ≡ false → self.new ≡ self.old }
    {
        make_all(heap, self, calls)
    }
}

impl<S: Blocks> Answering for Plan<S> {
    type Call = Call;

    type Answer = Answer;

    ghost step = { Step (model_of S.Sequence.list S.Sequence.room) answer after Unaltering };

    fn make(&mut self, call: Call) -> Answer {
        self.apply(call)
    }
}
