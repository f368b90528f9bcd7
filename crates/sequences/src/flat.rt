// The flat list: elements side by side in lent slots, for a panel with few of them.
ghost use Rattle.std.specs.Prelude.{◌≡◌, ◌+◌, ◌-◌, ◌<◌, ◌≤◌, min, [], length, take, slice_index_or, slice_set};
ghost use Rattle.kinds.specs.Rules.{summary};
ghost use Rattle.std.specs.List.{insert, remove, between};

use crate::{NO_PLACE, Sequence};
use kinds::{Kind, fold};
use refusals::Refusal;

// The most elements that a flat list holds, however many slots there are.
const MOST: usize = 256;

// A list in the first `used` of the slots. They are lent by a caller without a heap, so no `Vec` stands here. It stores no
// summary: a range is folded when it is asked for.
#[derive(Drop)]
pub struct FlatList<'a, K: Kind> {
    slots: &'a mut [K::Element],
    used: u16,
    ghost within: { used ≤ min (length slots.now) 256 },
}

impl<'a, K: Kind> FlatList<'a, K> {
    // An empty list over the slots, which are left as they are.
    pub fn open(slots: &'a mut [K::Element]) -> FlatList<'a, K>
        ensures list { take result.used result.slots.now ≡ [] }
        ensures slots { result.slots.now ≡ slots.old }
    {
        FlatList { slots, used: 0 }
    }

    // Cut by `as`: it is bounded just before, and `try_from` would need an error that cannot come.
    fn room(&self) -> u16
        ensures { result ≡ min (length self.now.slots.now) 256 }
    {
        self.slots.len().min(MOST) as u16
    }

    // A question of a sequence takes `&mut self`, which lends no slots for reading: it asks this.
    fn range(&self, i: u16, j: u16) -> K::Summary
        requires order { i ≤ j }
        requires within { j ≤ self.now.used }
        ensures { result ≡ summary K.Kind.rule (between i j self.now.slots.now) }
    {
        fold::<K>(&self.slots[i as usize..j as usize])
    }
}

// Each implementation finds what the rules refuse by a count and a room of its own: one comparison each, so a function for them
// would be no shorter at a call. A place as an index is widened by `as`, which reads better there than `usize::from`.
impl<'a, K: Kind> Sequence for FlatList<'a, K> {
    type Element = K::Element;

    type Summary = K::Summary;

    type Kind = K;

    ghost list = { λ s. take s.used s.slots.now };

    ghost room = { λ s. min (length s.slots.now) 256 };

    fn count(&mut self) -> u16 {
        self.used
    }

    fn capacity(&mut self) -> u16 {
        self.room()
    }

    fn element_at(&mut self, i: u16) -> Result<K::Element, Refusal> {
        if i >= self.used {
            return Err(NO_PLACE);
        }
        Ok(self.slots[i as usize])
    }

    fn range_join(&mut self, i: u16, j: u16) -> Result<K::Summary, Refusal> {
        if i > j || j > self.used {
            return Err(NO_PLACE);
        }
        Ok(self.range(i, j))
    }

    fn insert(&mut self, i: u16, element: K::Element) -> Result<(), Refusal> {
        let used = self.used;
        if i > used {
            return Err(NO_PLACE);
        }
        if used == self.room() {
            return Err(Refusal::Full);
        }
        self.slots
            .copy_within(i as usize..used as usize, i as usize + 1);
        self.slots[i as usize] = element;
        self.used = used + 1;
        Ok(())
    }

    fn delete(&mut self, i: u16) -> Result<(), Refusal> {
        let used = self.used;
        if i >= used {
            return Err(NO_PLACE);
        }
        self.slots
            .copy_within(i as usize + 1..used as usize, i as usize);
        self.used = used - 1;
        Ok(())
    }

    fn replace(&mut self, i: u16, element: K::Element) -> Result<(), Refusal> {
        if i >= self.used {
            return Err(NO_PLACE);
        }
        let place = i as usize;
        self.slots[place] = element;
        Ok(())
    }
}
