// The calls of a sequence as values, and runs of them over any sequence.
ghost use Rattle.std.specs.Prelude.{◌≡◌, true, false, List, is_ok, IfOk};
ghost use Rattle.refusals.specs.declared.Refusal.{Refusal};
ghost use Rattle.sequences.specs.Calls.{answer, after, answers, after_all, Unaltering};
ghost use Rattle.sequences.specs.Runs.{Listed};
ghost use Rattle.sequences.specs.Texts.{call_text, answer_text};

use crate::Sequence;
use crate::answering::{Answering, make_all};
use kinds::Kind;
use refusals::Refusal;
use std::alloc::{AllocError, Global};
use std::fmt;

#[derive(Clone, Copy)]
pub enum Call<E> {
    Count,
    Capacity,
    ElementAt(u16),
    RangeJoin(u16, u16),
    Insert(u16, E),
    Delete(u16),
    Replace(u16, E),
}

impl<E: fmt::Display> fmt::Display for Call<E> {
    ghost output = { call_text E.output };

    fn fmt<W: fmt::Write>(&self, f: &mut fmt::Formatter<W>) -> fmt::Result {
        match self {
            Call::Count => f.write_str("count"),
            Call::Capacity => f.write_str("capacity"),
            Call::ElementAt(i) => write!(f, "element at {i}"),
            Call::RangeJoin(i, j) => write!(f, "range join from {i} to {j}"),
            Call::Insert(i, element) => write!(f, "insert {element} at {i}"),
            Call::Delete(i) => write!(f, "delete {i}"),
            Call::Replace(i, element) => write!(f, "replace {i} by {element}"),
        }
    }
}

#[derive(Clone, Copy, PartialEq, Eq)]
pub enum Answer<E, S> {
    Number(u16),
    Element(Result<E, Refusal>),
    Summary(Result<S, Refusal>),
    Edit(Result<(), Refusal>),
}

impl<E: fmt::Display, S: fmt::Display> fmt::Display for Answer<E, S> {
    ghost output = { answer_text E.output S.output };

    fn fmt<W: fmt::Write>(&self, f: &mut fmt::Formatter<W>) -> fmt::Result {
        match self {
            Answer::Number(n) => write!(f, "{n}"),
            Answer::Element(Ok(element)) => write!(f, "{element}"),
            Answer::Summary(Ok(summary)) => write!(f, "{summary}"),
            Answer::Edit(Ok(())) => f.write_str("ok"),
            Answer::Element(Err(why)) | Answer::Summary(Err(why)) | Answer::Edit(Err(why)) => {
                write!(f, "refused {why}")
            }
        }
    }
}

// Makes one call.
pub fn apply<S: Sequence>(
    sequence: &mut S,
    call: Call<S::Element>,
) -> Answer<S::Element, S::Summary>
    ensures value { result ≡ answer S.Kind.Kind.rule (S.Sequence.room sequence.old) (S.Sequence.list sequence.old) call }
    ensures after { S.Sequence.list sequence.new ≡ after (S.Sequence.room sequence.old) (S.Sequence.list sequence.old) call }
    ensures room { S.Sequence.room sequence.new ≡ S.Sequence.room sequence.old }
    ensures same { Unaltering call result → sequence.new ≡ sequence.old }
{
    match call {
        Call::Count => Answer::Number(sequence.count()),
        Call::Capacity => Answer::Number(sequence.capacity()),
        Call::ElementAt(i) => Answer::Element(sequence.element_at(i)),
        Call::RangeJoin(i, j) => Answer::Summary(sequence.range_join(i, j)),
        Call::Insert(i, element) => Answer::Edit(sequence.insert(i, element)),
        Call::Delete(i) => Answer::Edit(sequence.delete(i)),
        Call::Replace(i, element) => Answer::Edit(sequence.replace(i, element)),
    }
}

impl<S: Sequence> Answering for S {
    type Call = Call<S::Element>;

    type Answer = Answer<S::Element, S::Summary>;

    ghost step = { Listed S.Sequence.room S.Sequence.list (answer S.Kind.Kind.rule) after Unaltering };

    fn make(&mut self, call: Call<S::Element>) -> Answer<S::Element, S::Summary> {
        apply(self, call)
    }
}

// Makes the calls one after the other, and collects what they answer. Where there is no memory for the answers, it
// makes none of them.
pub fn run<S: Sequence>(
    heap: Global,
    sequence: &mut S,
    calls: &[Call<S::Element>],
) -> Result<Vec<Answer<S::Element, S::Summary>>, AllocError>
    ensures value { IfOk result (λ v. v.items ≡ answers S.Kind.Kind.rule (S.Sequence.room sequence.old) (S.Sequence.list sequence.old) calls.now) }
    ensures after { is_ok result ≡ true → S.Sequence.list sequence.new ≡ after_all (S.Sequence.room sequence.old) (S.Sequence.list sequence.old) calls.now }
    ensures room { S.Sequence.room sequence.new ≡ S.Sequence.room sequence.old }
    ensures refused { is_ok result ≡ false → sequence.new ≡ sequence.old }
{
    make_all(heap, sequence, calls)
}
