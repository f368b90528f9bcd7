// The depth of a plan over a balanced tree.
ghost use Rattle.std.specs.Prelude.{◌≡◌, ◌-◌, ◌^◌, ◌≤◌, length};
ghost use Rattle.kinds.specs.Balance.{fewest};

use crate::Plan;
use sequences::Sequence;
use sequences::deep::Deep;

impl<S: Deep> Plan<S> {
    // The depth of the tree below, or 0 where the plan is empty.
    pub fn depth(&mut self) -> u8
        ensures value { result ≡ S.Deep.levels self.old.blocks }
        ensures least { fewest result ≤ length (S.Sequence.list self.old.blocks) }
        ensures most { length (S.Sequence.list self.old.blocks) ≤ 2 ^ result - 1 }
        ensures stands { S.Deep.stands self.old.blocks }
        ensures same { self.new ≡ self.old }
    {
        self.blocks.depth()
    }
}
