// Sequences that are kept as a balanced tree.
ghost use Rattle.std.specs.Prelude.{◌≡◌, ℕ, ◌-◌, ◌^◌, ◌≤◌, length};
ghost use Rattle.kinds.specs.Balance.{fewest};

use crate::Sequence;

// `levels` is the depth of the tree, and `stands` says what its rows are: a balanced tree of the list.
pub trait Deep: Sequence {
    ghost levels: { Self → ℕ };

    ghost stands: { Self → Type 0 };

    // The depth of the top, or 0 where the list is empty.
    fn depth(&mut self) -> u8
        ensures value { result ≡ levels self.old }
        ensures least { fewest result ≤ length (Self.Sequence.list self.old) }
        ensures most { length (Self.Sequence.list self.old) ≤ 2 ^ result - 1 }
        ensures stands { stands self.old }
        ensures same { self.new ≡ self.old };
}
