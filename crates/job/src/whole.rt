// A whole job: well-formed fields up to an end field with the right byte, and nothing after it.
ghost use Rattle.std.specs.Prelude.{◌≡◌, ◌+◌, ◌≤◌, length, IfOk};
ghost use Rattle.job.specs.Encoding.{Encoding};
ghost use Rattle.job.specs.Judgements.{Judged};
ghost use Rattle.job.specs.Verdicts.{xor_of, checked_at, verdict_of};

use crate::fields::{Field, Found, field_at, offset};
use refusals::Refusal;

fn xor_of(bytes: &[u8]) -> u8
    ensures { result ≡ xor_of bytes.now }
{
    bytes.iter().fold(0, |total, byte| total ^ byte)
}

// The field that starts at `at`; an end field is right and the last. A place goes with the job, as in `field_at`.
pub(crate) fn checked_at(job: &[u8], at: usize) -> Result<Found, Refusal>
    requires { at ≤ length job.now }
    ensures value { result ≡ checked_at job.now at }
    ensures bound { IfOk result (λ found. (at + 4 ≤ found.next) × (found.next ≤ length job.now)) }
{
    let found = field_at(job, at)?;
    if let Field::End(byte) = found.field {
        if byte != xor_of(&job[..at]) {
            return Err(Refusal::EndByte(offset(at)));
        }
        if found.next < job.len() {
            return Err(Refusal::Trailing(offset(found.next)));
        }
    }
    Ok(found)
}

// Accepts a complete job, or refuses it at its first fault.
pub fn verdict(job: &[u8]) -> Result<(), Refusal>
    ensures value { result ≡ verdict_of job.now }
    ensures judged { Judged job.now result }
    ensures encoded { Encoding job.now result }
{
    let mut at = 0;
    while let Found {
        field: Field::Call(_),
        next,
    } = checked_at(job, at)?
    {
        at = next;
    }
    Ok(())
}
