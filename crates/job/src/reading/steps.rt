// Runs a job field by field, with a line for each.
ghost use Rattle.std.specs.Prelude.{◌≡◌, length};
ghost use Rattle.job.specs.Steps.{step_refusal, refusal_of, step_place, Stepped, Unmoved, Bounded};
ghost use Rattle.plan.specs.Meaning.{model_of};

use super::Reader;
use crate::fields::{Field, offset};
use crate::lines::{LINE_ROOM, put_answer};
use crate::whole::checked_at;
use plan::Plan;
use plan::summaries::Blocks;
use refusals::Refusal;

impl<'a> Reader<'a> {
    // A reader at the job's first field.
    pub fn new(job: &'a [u8]) -> Reader<'a>
        ensures job { result.job.now ≡ job.now }
        ensures place { result.place ≡ 0 }
    {
        Reader { job, place: 0 }
    }

    // Runs the field at the reader's place on the plan, writes its line and answers the line's length, or none where the
    // job is over.
    pub fn step<S: Blocks>(
        &mut self,
        plan: &mut Plan<S>,
        line: &mut [u8],
    ) -> Result<Option<usize>, Refusal>
        ensures job { self.new.job.now ≡ self.old.job.now }
        ensures place { self.new.place ≡ step_place (length line.old) self.old.job.now self.old.place }
        ensures refusal { refusal_of result ≡ step_refusal (length line.old) self.old.job.now self.old.place }
        ensures unmoved { Unmoved result (self.new ≡ self.old) (plan.new ≡ plan.old) (line.new ≡ line.old) }
        ensures model { Stepped (model_of S.Sequence.list S.Sequence.room plan.old) self.old.job.now self.old.place result line.old line.new (model_of S.Sequence.list S.Sequence.room plan.new) }
        ensures bound { Bounded result self.old.place self.new.place }
    {
        if line.len() < LINE_ROOM {
            return Err(Refusal::Buffer);
        }
        let at = self.place;
        let found = checked_at(self.job, at)?;
        match found.field {
            Field::Call(call) => {
                let answer = plan.apply(call);
                let written = put_answer(line, answer, offset(at));
                self.place = found.next;
                Ok(Some(written))
            }
            Field::End(_) => Ok(None),
        }
    }
}
