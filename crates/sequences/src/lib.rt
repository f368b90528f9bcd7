// Sequences: lists with a fixed capacity that can be edited and summed up at any place.
#![tactic(auto)]

ghost use Rattle.std.specs.Prelude.{◌≡◌, ℕ, ◌≤◌, List, length, Err};
ghost use Rattle.refusals.specs.declared.Refusal.{Refusal};
ghost use Rattle.sequences.specs.Lists.{insert_answer, insert_list, place_answer, delete_list, replace_list, element_answer, range_answer};

use kinds::Kind;
use refusals::{Layer, Refusal};

pub mod answering;
pub mod calls;
pub mod deep;
pub mod flat;

// A place or a range that a sequence has not.
pub const NO_PLACE: Refusal = Refusal::NoPlace(Layer::Sequence);

// A sequence means its `list` and its `room`, the number of elements that it can hold, which never alters. Whatever it
// stores besides, as summaries, its own type keeps right.
// No call asks anything of its caller. By a rule of the project questions take `&mut self`, and each call says for itself
// what stays; an edit says so of the room, and a pair of room and list in each clause would be no plainer. A range is two places, as the calls are named, for a `Range` is no `Copy` and a call as a value is one.
pub trait Sequence {
    type Element: Copy;

    type Summary: Copy;

    type Kind: Kind<Element = Self::Element, Summary = Self::Summary>;

    ghost list: { Self → List Self.Element };

    ghost room: { Self → ℕ };

    fn count(&mut self) -> u16
        ensures value { result ≡ length (list self.old) }
        ensures within { result ≤ room self.old }
        ensures same { self.new ≡ self.old };

    fn capacity(&mut self) -> u16
        ensures value { result ≡ room self.old }
        ensures same { self.new ≡ self.old };

    fn element_at(&mut self, i: u16) -> Result<Self::Element, Refusal>
        ensures value { result ≡ element_answer (list self.old) i }
        ensures same { self.new ≡ self.old };

    // What the elements from `i` up to but without `j` come to.
    fn range_join(&mut self, i: u16, j: u16) -> Result<Self::Summary, Refusal>
        ensures value { result ≡ range_answer Self.Kind.Kind.rule (list self.old) i j }
        ensures same { self.new ≡ self.old };

    // Puts an element before element `i`, or last where `i` is the count.
    fn insert(&mut self, i: u16, element: Self::Element) -> Result<(), Refusal>
        ensures value { result ≡ insert_answer (list self.old) (room self.old) i }
        ensures after { list self.new ≡ insert_list (list self.old) (room self.old) i element }
        ensures room { room self.new ≡ room self.old }
        ensures refused { (why : Refusal) → result ≡ Err why → self.new ≡ self.old };

    fn delete(&mut self, i: u16) -> Result<(), Refusal>
        ensures value { result ≡ place_answer (list self.old) i }
        ensures after { list self.new ≡ delete_list (list self.old) i }
        ensures room { room self.new ≡ room self.old }
        ensures refused { (why : Refusal) → result ≡ Err why → self.new ≡ self.old };

    fn replace(&mut self, i: u16, element: Self::Element) -> Result<(), Refusal>
        ensures value { result ≡ place_answer (list self.old) i }
        ensures after { list self.new ≡ replace_list (list self.old) i element }
        ensures room { room self.new ≡ room self.old }
        ensures refused { (why : Refusal) → result ≡ Err why → self.new ≡ self.old };
}
