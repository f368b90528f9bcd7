// Rotations: a row is put over two sides, and the tree that comes of it is balanced.
ghost use Rattle.std.specs.Prelude.{◌≡◌, ◌<◌, length, Some};
ghost use Rattle.rows.specs.Edits.{Sides, Refreshed, Rebalance, TooDeep, Rebalanced};
ghost use Rattle.rows.specs.Hands.{left_by, right_by};
ghost use Rattle.rows.specs.Shape.{Shape, Rooted};

use crate::{Row, depth_of, refresh, row_at};
use kinds::Kind;

// One of the two sides of a row.
#[derive(Clone, Copy)]
pub enum Hand {
    Left,
    Right,
}

impl Hand {
    // What is on the left and what is on the right, of what is on this hand and what is on the other; or the other way
    // round.
    pub fn order(self, near: Option<u16>, far: Option<u16>) -> (Option<u16>, Option<u16>)
        ensures { result ≡ (left_by self near far, right_by self near far) }
    {
        match self {
            Hand::Left => (near, far),
            Hand::Right => (far, near),
        }
    }
}

// Writes the row at `place` over a side on the hand and a side on the other.
pub fn refresh_by<K: Kind>(
    rows: &mut [Row<K::Element, K::Summary>],
    hand: Hand,
    place: u16,
    element: K::Element,
    near: Option<u16>,
    far: Option<u16>,
)
    requires within { place < length rows.old }
    requires sides { Sides rows.old near far }
    ensures { (u v : Shape K.Element K.Summary) → Rooted rows.old near u → Rooted rows.old far v → Refreshed K.Kind.rule rows.old place element (left_by hand u v) (right_by hand u v) rows.new }
{
    let (left, right) = hand.order(near, far);
    refresh::<K>(rows, place, element, left, right);
}

// Puts the row at `place` over the tree at `deep`, which is on the hand and deeper by two, and the other side. The top of
// that tree, or the inner row below it where the inner side is the deeper one, becomes the top.
pub fn rotate<K: Kind>(
    rows: &mut [Row<K::Element, K::Summary>],
    hand: Hand,
    place: u16,
    element: K::Element,
    deep: u16,
    other: Option<u16>,
) -> u16
    requires { (t : Shape K.Element K.Summary) × (r : Shape K.Element K.Summary) × TooDeep rows.old place (Some deep) other t r }
    ensures { (t r : Shape K.Element K.Summary) → TooDeep rows.old place (Some deep) other t r → Rebalanced K.Kind.rule rows.old rows.new place element result (left_by hand t r) (right_by hand t r) }
{
    let row = row_at(rows, deep);
    let (outer, inner) = hand.order(row.left, row.right);
    if depth_of::<K>(rows, outer) >= depth_of::<K>(rows, inner) {
        refresh_by::<K>(rows, hand, place, element, inner, other);
        refresh_by::<K>(rows, hand, deep, row.element, outer, Some(place));
        return deep;
    }
    let Some(middle) = inner else { unreachable() };
    let top = row_at(rows, middle);
    let (near, far) = hand.order(top.left, top.right);
    refresh_by::<K>(rows, hand, place, element, far, other);
    refresh_by::<K>(rows, hand, deep, row.element, outer, near);
    refresh_by::<K>(rows, hand, middle, top.element, Some(deep), Some(place));
    middle
}

// Puts the row at `place` over two sides whose depths differ by at most two, and tells the top of the tree.
pub fn rebalance<K: Kind>(
    rows: &mut [Row<K::Element, K::Summary>],
    place: u16,
    element: K::Element,
    left: Option<u16>,
    right: Option<u16>,
) -> u16
    requires { (l : Shape K.Element K.Summary) × (r : Shape K.Element K.Summary) × Rebalance rows.old place left right l r }
    ensures { (l r : Shape K.Element K.Summary) → Rebalance rows.old place left right l r → Rebalanced K.Kind.rule rows.old rows.new place element result l r }
{
    let left_depth = depth_of::<K>(rows, left);
    let right_depth = depth_of::<K>(rows, right);
    if left_depth >= right_depth + 2 {
        let Some(deep) = left else { unreachable() };
        rotate::<K>(rows, Hand::Left, place, element, deep, right)
    } else if right_depth >= left_depth + 2 {
        let Some(deep) = right else { unreachable() };
        rotate::<K>(rows, Hand::Right, place, element, deep, left)
    } else {
        refresh::<K>(rows, place, element, left, right);
        place
    }
}
