// The calls of a survey as values, and runs of them.
ghost use Rattle.std.specs.Prelude.{◌≡◌, true, false, Some, is_ok, IfOk};
ghost use Rattle.sequences.specs.Runs.{Listed};
ghost use Rattle.survey.specs.Calls.{answer, after, answers, after_all, Right, AllRight, Unaltering};
ghost use Rattle.survey.specs.Texts.{call_text, answer_text};

use crate::{Readings, Spot, Survey};
use refusals::Refusal;
use sequences::answering::{Answering, make_all};
use std::alloc::{AllocError, Global};
use std::fmt;

#[derive(Clone, Copy)]
pub enum Call {
    // A place and a reading.
    Note(u16, u16),
    Strike(u16),
    Thinnest(u16, u16),
}

impl fmt::Display for Call {
    ghost output = { λ call. Some (call_text call) };

    fn fmt<W: fmt::Write>(&self, f: &mut fmt::Formatter<W>) -> fmt::Result {
        match self {
            Call::Note(i, reading) => write!(f, "note {reading} at {i}"),
            Call::Strike(i) => write!(f, "strike {i}"),
            Call::Thinnest(i, j) => write!(f, "thinnest from {i} to {j}"),
        }
    }
}

#[derive(Clone, Copy)]
pub enum Answer {
    Edit(Result<(), Refusal>),
    Thinnest(Result<Option<Spot>, Refusal>),
}

impl fmt::Display for Answer {
    ghost output = { λ answer. Some (answer_text answer) };

    fn fmt<W: fmt::Write>(&self, f: &mut fmt::Formatter<W>) -> fmt::Result {
        match self {
            Answer::Edit(Ok(())) => f.write_str("ok"),
            Answer::Thinnest(Ok(None)) => f.write_str("none"),
            Answer::Thinnest(Ok(Some(Spot { reading, place }))) => write!(
                f,
                "{reading} at {place}"
            ),
            Answer::Edit(Err(why)) | Answer::Thinnest(Err(why)) => write!(f, "refused {why}"),
        }
    }
}

impl<S: Readings> Survey<S> {
    // Makes one call.
    pub fn apply(&mut self, call: Call) -> Answer
        ensures value { result ≡ answer (S.Sequence.room self.old.readings) (S.Sequence.list self.old.readings) call }
        ensures right { Right (S.Sequence.room self.old.readings) (S.Sequence.list self.old.readings) call result }
        ensures after { S.Sequence.list self.new.readings ≡ after (S.Sequence.room self.old.readings) (S.Sequence.list self.old.readings) call }
        ensures room { S.Sequence.room self.new.readings ≡ S.Sequence.room self.old.readings }
        ensures same { Unaltering call result → self.new ≡ self.old }
    {
        match call {
            Call::Note(i, reading) => Answer::Edit(self.note(i, reading)),
            Call::Strike(i) => Answer::Edit(self.strike(i)),
            Call::Thinnest(i, j) => Answer::Thinnest(self.thinnest(i, j)),
        }
    }

    // Makes the calls one after the other, and collects what they answer. Where there is no memory for the answers,
    // it makes none of them.
    pub fn run(&mut self, heap: Global, calls: &[Call]) -> Result<Vec<Answer>, AllocError>
        ensures value { IfOk result (λ v. v.items ≡ answers (S.Sequence.room self.old.readings) (S.Sequence.list self.old.readings) calls.now) }
        ensures right { IfOk result (λ v. AllRight (S.Sequence.room self.old.readings) (S.Sequence.list self.old.readings) calls.now v.items) }
        ensures after { is_ok result ≡ true → S.Sequence.list self.new.readings ≡ after_all (S.Sequence.room self.old.readings) (S.Sequence.list self.old.readings) calls.now }
        ensures room { S.Sequence.room self.new.readings ≡ S.Sequence.room self.old.readings }
        ensures refused { is_ok result ≡ false → self.new ≡ self.old }
    {
        make_all(heap, self, calls)
    }
}

impl<S: Readings> Answering for Survey<S> {
    type Call = Call;

    type Answer = Answer;

    // What the rules let a call answer and leave, and what its answer means.
    ghost step = { λ p call told q. Listed (λ s. S.Sequence.room s.readings) (λ s. S.Sequence.list s.readings) answer after Unaltering p call told q × Right (S.Sequence.room p.readings) (S.Sequence.list p.readings) call told };

    fn make(&mut self, call: Call) -> Answer {
        self.apply(call)
    }
}
