// The plan: moves along the ice over any sequence of blocks, and the speeds at their junctions.
#![tactic(auto)]

ghost use Rattle.std.specs.Prelude.{◌≡◌, []};
ghost use Rattle.plan.specs.Models.{place, opened};

use self::summaries::Blocks;
use refusals::{Layer, Refusal};
use sequences::Sequence;

pub mod calls;
pub mod depth;
pub mod edits;
pub mod questions;
pub mod summaries;
pub mod theorems;

// A range or a junction that there is not.
const NO_RANGE: Refusal = Refusal::NoPlace(Layer::Plan);

// The start stays plain fields, as the places in a block are: a position is an array only where it is passed. The blocks
// lie from the start on, which is what the kind of a plan calls sound: it is `Lie` (specs/Keeping.antt). So start, room and
// blocks have one model, of which the contracts speak (specs/Meaning.antt). An `impl Model` with that model is no plainer: what
// `lie` says would be hidden from callers, and a clause of every edit.
#[derive(Drop)]
pub struct Plan<S: Sequence> {
    start_x: i32,
    start_y: i32,
    start_z: i32,
    blocks: S,
    pub ghost lie: { (S.Kind.sound (place start_x start_y start_z) (S.Sequence.list blocks)).holds } by { (S.Kind.sound (place start_x start_y start_z) (S.Sequence.list blocks)).once },
}

impl<S: Blocks> Plan<S> {
    ghost use Rattle.plan.specs.Meaning.{model_of};

    // A plan with no block, at the origin. The code that joins the two hands in an empty sequence, by a rule of the project.
    pub fn open(blocks: S) -> Plan<S>
        requires { S.Sequence.list blocks ≡ [] }
        ensures same { result.blocks ≡ blocks }
        ensures model { model_of S.Sequence.list S.Sequence.room result ≡ opened (S.Sequence.room blocks) }
    {
        Plan {
            start_x: 0,
            start_y: 0,
            start_z: 0,
            blocks,
        }
    }
}
