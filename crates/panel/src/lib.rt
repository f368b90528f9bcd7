// The large panel: a plan over a balanced tree of rows that the caller lends, from its opening.
#![tactic(auto)]

ghost use Rattle.std.specs.Prelude.{◌≡◌, ◌-◌, ◌^◌, ◌≤◌, min, [], length, IfOk};
ghost use Rattle.panel.specs.Standing.{Standing};
ghost use Rattle.panel.specs.Whole.{Whole};
ghost use Rattle.plan.specs.Calls.{after_all};
ghost use Rattle.plan.specs.Models.{opened, blocks_of};

use motion::Block;
use plan::Plan;
use plan::calls::{Answer, Call};
use plan::summaries::{Blocks, PlanKind, Summary};
use rows::Row;
use sequences::deep::Deep;
use std::alloc::{AllocError, Global};
use tree::Tree;

// What a run of calls told, and the depth of the tree at its end.
#[derive(Drop)]
pub struct Told {
    pub answers: Vec<Answer>,
    pub depth: u8,
}

// Opens a plan over any sequence that is a tree, and empty, as the opening asks; and makes the calls.
fn run_deep<S: Blocks + Deep + Drop>(
    heap: Global,
    blocks: S,
    calls: &[Call],
) -> Result<Told, AllocError>
    requires { S.Sequence.list blocks ≡ [] }
    ensures whole { IfOk result (λ t. Whole (opened (S.Sequence.room blocks)) calls.now t) }
    ensures stands { IfOk result (λ t. ((q : S) × S.Deep.stands q × (S.Sequence.list q ≡ blocks_of (after_all (opened (S.Sequence.room blocks)) calls.now)) × (S.Deep.levels q ≡ t.depth))) }
{
    let mut plan = Plan::open(blocks);
    let answers = plan.run(heap, calls)?;
    let depth = plan.depth();
    Ok(Told { answers, depth })
}

// Makes the calls on a plan that is opened over the rows: what is told is right, and the tree is balanced.
pub fn run_on_tree(
    heap: Global,
    rows: &mut [Row<Block, Summary>],
    calls: &[Call],
) -> Result<Told, AllocError>
    ensures whole { IfOk result (λ t. Whole (opened (min (length rows.old) 4096)) calls.now t) }
    ensures stands { IfOk result (λ t. Standing (blocks_of (after_all (opened (min (length rows.old) 4096)) calls.now)) t.depth) }
{
    let blocks: Tree<PlanKind> = Tree::open(rows);
    run_deep(heap, blocks, calls)
}
