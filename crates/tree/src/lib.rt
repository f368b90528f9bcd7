// The balanced tree: a sequence over rows that the caller lends.
#![tactic(auto)]

ghost use Rattle.std.specs.Prelude.{◌≡◌, ◌≤◌, [], length};
ghost use Rattle.kinds.specs.Rules.{summary};
ghost use Rattle.rows.specs.Layouts.{Sound, Stands, shape_of, list_of, room_of};
ghost use Rattle.rows.specs.Shape.{depth_of};
ghost use Rattle.std.specs.List.{slice_get, between};

use kinds::Kind;
use refusals::Refusal;
use rows::{
    Heads, MOST, Row, count_of, delete_element, depth_of, element_at, insert_element,
    range_summary, replace,
};
use sequences::deep::Deep;
use sequences::{NO_PLACE, Sequence};

// A list as a balanced tree of rows. Its type says that the rows lie as `Sound` has it, summaries and all, so every call
// keeps that.
#[derive(Drop)]
pub struct Tree<'a, K: Kind> {
    rows: &'a mut [Row<K::Element, K::Summary>],
    heads: Heads,
    ghost sound: { ∥ Sound K.Kind.rule rows.now heads ∥₁ },
}

impl<'a, K: Kind> Tree<'a, K> {
    // An empty tree over the rows, which are left as they are.
    pub fn open(rows: &'a mut [Row<K::Element, K::Summary>]) -> Tree<'a, K>
        ensures list { list_of result.rows.now result.heads.top ≡ [] }
        ensures rows { result.rows.now ≡ rows.old }
    {
        Tree {
            rows,
            heads: Heads {
                top: None,
                free: None,
                used: 0,
            },
        }
    }

    // Cut by `as`: it is bounded just before, and `try_from` would need an error that cannot come.
    fn room(&self) -> u16
        ensures { result ≡ room_of self.now.rows.now }
    {
        self.rows.len().min(MOST) as u16
    }

    // The questions of a sequence take `&mut self`, and ask these: tried straight from the field there, and the functions of
    // `rows` get no proof.
    fn len(&self) -> u16
        ensures value { result ≡ length (list_of self.now.rows.now self.now.heads.top) }
        ensures within { result ≤ room_of self.now.rows.now }
    {
        count_of::<K>(self.rows, self.heads.top)
    }

    fn levels(&self) -> u8
        ensures { result ≡ depth_of (shape_of self.now.rows.now self.now.heads.top) }
    {
        depth_of::<K>(self.rows, self.heads.top)
    }

    fn get(&self, i: u16) -> Option<K::Element>
        ensures { result ≡ slice_get (list_of self.now.rows.now self.now.heads.top) i }
    {
        element_at::<K>(self.rows, self.heads.top, i)
    }

    fn range(&self, i: u16, j: u16) -> K::Summary
        requires order { i ≤ j }
        requires within { j ≤ length (list_of self.now.rows.now self.now.heads.top) }
        ensures { result ≡ summary K.Kind.rule (between i j (list_of self.now.rows.now self.now.heads.top)) }
    {
        range_summary::<K>(self.rows, self.heads.top, i, j)
    }
}

// Each implementation finds what the rules refuse by a count and a room of its own: one comparison each, so a function for them
// would be no shorter at a call.
impl<'a, K: Kind> Sequence for Tree<'a, K> {
    type Element = K::Element;

    type Summary = K::Summary;

    type Kind = K;

    ghost list = { λ s. list_of s.rows.now s.heads.top };

    ghost room = { λ s. room_of s.rows.now };

    fn count(&mut self) -> u16 {
        self.len()
    }

    fn capacity(&mut self) -> u16 {
        self.room()
    }

    fn element_at(&mut self, i: u16) -> Result<K::Element, Refusal> {
        self.get(i).ok_or(NO_PLACE)
    }

    fn range_join(&mut self, i: u16, j: u16) -> Result<K::Summary, Refusal> {
        if i > j || j > self.len() {
            return Err(NO_PLACE);
        }
        Ok(self.range(i, j))
    }

    fn insert(&mut self, i: u16, element: K::Element) -> Result<(), Refusal> {
        let count = self.len();
        if i > count {
            return Err(NO_PLACE);
        }
        if count == self.room() {
            return Err(Refusal::Full);
        }
        self.heads = insert_element::<K>(self.rows, self.heads, i, element);
        Ok(())
    }

    fn delete(&mut self, i: u16) -> Result<(), Refusal> {
        if i >= self.len() {
            return Err(NO_PLACE);
        }
        self.heads = delete_element::<K>(self.rows, self.heads, i);
        Ok(())
    }

    fn replace(&mut self, i: u16, element: K::Element) -> Result<(), Refusal> {
        if i >= self.len() {
            return Err(NO_PLACE);
        }
        replace::<K>(self.rows, self.heads.top, i, element);
        Ok(())
    }
}

impl<'a, K: Kind> Deep for Tree<'a, K> {
    ghost levels = { λ s. depth_of (shape_of s.rows.now s.heads.top) };

    ghost stands = { λ s. Stands K.Kind.rule s.rows.now s.heads.top (list_of s.rows.now s.heads.top) (depth_of (shape_of s.rows.now s.heads.top)) };

    fn depth(&mut self) -> u8 {
        self.levels()
    }
}
