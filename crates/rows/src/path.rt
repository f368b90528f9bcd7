// Edits and questions at a place of the list: each walks down from the top, and an edit refreshes the rows on its way
// back. The arms to the left and to the right are written out: they differ in the place that they pass on, besides the hand,
// so one by the hand is no plainer.
ghost use Rattle.std.specs.Prelude.{◌≡◌, ℕ, ◌≤◌, ◌++◌, Some};
ghost use Rattle.kinds.specs.Rules.{summary};
ghost use Rattle.rows.specs.Edits.{Insert, Inserted, Whole, Taken, RemovedFirst, Remove, Removed, Replaced};
ghost use Rattle.rows.specs.Shape.{Shape, Cell, node, count_of, elements, Rooted, Told};
ghost use Rattle.std.specs.List.{slice_get, between};

use crate::balance::rebalance;
use crate::{Row, count_of, refresh, row_at};
use kinds::Kind;

// Puts the row `fresh` at the place `i` of the list of the tree at `top`, and tells the new top.
pub fn insert<K: Kind>(
    rows: &mut [Row<K::Element, K::Summary>],
    top: Option<u16>,
    i: u16,
    fresh: u16,
    element: K::Element,
) -> u16
    requires { (t : Shape K.Element K.Summary) × Insert rows.old top i fresh t }
    ensures { (t : Shape K.Element K.Summary) → Insert rows.old top i fresh t → Inserted K.Kind.rule rows.old rows.new i fresh element result t }
{
    let Some(place) = top else {
        refresh::<K>(rows, fresh, element, None, None);
        return fresh;
    };
    let row = row_at(rows, place);
    let before = count_of::<K>(rows, row.left);
    if i <= before {
        let left = insert::<K>(rows, row.left, i, fresh, element);
        rebalance::<K>(rows, place, row.element, Some(left), row.right)
    } else {
        let right = insert::<K>(rows, row.right, i - before - 1, fresh, element);
        rebalance::<K>(rows, place, row.element, row.left, Some(right))
    }
}

// The first row of a tree, and what is left of the tree without it. No plainer as `remove` at 0: that and the making of one
// tree of two would call each other.
#[derive(Clone, Copy)]
pub struct First<E> {
    pub place: u16,
    pub element: E,
    pub rest: Option<u16>,
}

pub fn remove_first<K: Kind>(
    rows: &mut [Row<K::Element, K::Summary>],
    place: u16,
) -> First<K::Element>
    requires { (t : Shape K.Element K.Summary) × Whole rows.old (Some place) t }
    ensures { (t : Shape K.Element K.Summary) → Whole rows.old (Some place) t → RemovedFirst K.Kind.rule rows.old rows.new result.place result.element result.rest t }
{
    let row = row_at(rows, place);
    let Some(below) = row.left else {
        return First {
            place,
            element: row.element,
            rest: row.right,
        };
    };
    let first = remove_first::<K>(rows, below);
    let top = rebalance::<K>(rows, place, row.element, first.rest, row.right);
    First {
        rest: Some(top),
        ..first
    }
}

// Makes one tree of the two sides of a row that is taken out: the row after it comes to stand over them.
pub fn merge_sides<K: Kind>(
    rows: &mut [Row<K::Element, K::Summary>],
    left: Option<u16>,
    right: Option<u16>,
) -> Option<u16>
    requires { (p : ℕ) × (x : Cell K.Element K.Summary) × (l : Shape K.Element K.Summary) × (r : Shape K.Element K.Summary) × Whole rows.old (Some p) (node p x l r) × Rooted rows.old left l × Rooted rows.old right r }
    ensures { (p : ℕ) (x : Cell K.Element K.Summary) (l r : Shape K.Element K.Summary) → Whole rows.old (Some p) (node p x l r) → Rooted rows.old left l → Rooted rows.old right r → Taken K.Kind.rule rows.old rows.new result p (elements l ++ elements r) (node p x l r) }
{
    let Some(below) = right else { return left };
    let next = remove_first::<K>(rows, below);
    let top = rebalance::<K>(rows, next.place, next.element, left, next.rest);
    Some(top)
}

// A row that was taken out of a tree, and what is left of the tree.
#[derive(Clone, Copy)]
pub struct Out {
    pub place: u16,
    pub rest: Option<u16>,
}

// Takes the row at the place `i` of the list out of the tree whose top row is at `place`.
pub fn remove<K: Kind>(rows: &mut [Row<K::Element, K::Summary>], place: u16, i: u16) -> Out
    requires { (t : Shape K.Element K.Summary) × Remove rows.old (Some place) i t }
    ensures { (t : Shape K.Element K.Summary) → Remove rows.old (Some place) i t → Removed K.Kind.rule rows.old rows.new result.place i result.rest t }
{
    let row = row_at(rows, place);
    let before = count_of::<K>(rows, row.left);
    if i < before {
        let Some(below) = row.left else { unreachable() };
        let out = remove::<K>(rows, below, i);
        let top = rebalance::<K>(rows, place, row.element, out.rest, row.right);
        Out {
            rest: Some(top),
            ..out
        }
    } else if i > before {
        let Some(below) = row.right else {
            unreachable()
        };
        let out = remove::<K>(rows, below, i - before - 1);
        let top = rebalance::<K>(rows, place, row.element, row.left, out.rest);
        Out {
            rest: Some(top),
            ..out
        }
    } else {
        let rest = merge_sides::<K>(rows, row.left, row.right);
        Out { place, rest }
    }
}

// Exchanges the element at the place `i` of the list.
pub fn replace<K: Kind>(
    rows: &mut [Row<K::Element, K::Summary>],
    side: Option<u16>,
    i: u16,
    element: K::Element,
)
    requires { (t : Shape K.Element K.Summary) × Whole rows.old side t }
    ensures { (t : Shape K.Element K.Summary) → Whole rows.old side t → Replaced K.Kind.rule rows.old rows.new i element side t }
{
    let Some(place) = side else { return };
    let row = row_at(rows, place);
    let before = count_of::<K>(rows, row.left);
    if i < before {
        replace::<K>(rows, row.left, i, element);
        refresh::<K>(rows, place, row.element, row.left, row.right);
    } else if i > before {
        replace::<K>(rows, row.right, i - before - 1, element);
        refresh::<K>(rows, place, row.element, row.left, row.right);
    } else {
        refresh::<K>(rows, place, element, row.left, row.right);
    }
}

// The element at the place `i` of the list, if there is one.
pub fn element_at<K: Kind>(
    rows: &[Row<K::Element, K::Summary>],
    side: Option<u16>,
    i: u16,
) -> Option<K::Element>
    requires { (t : Shape K.Element K.Summary) × Rooted rows.now side t }
    ensures { (t : Shape K.Element K.Summary) → Rooted rows.now side t → result ≡ slice_get (elements t) i }
{
    let row = row_at(rows, side?);
    let before = count_of::<K>(rows, row.left);
    if i < before {
        return element_at::<K>(rows, row.left, i);
    }
    if i > before {
        return element_at::<K>(rows, row.right, i - before - 1);
    }
    Some(row.element)
}

// What the elements from `i` up to but without `j` come to. A row whose elements are all asked for tells its own
// summary, so that at most two paths are walked.
pub fn range_summary<K: Kind>(
    rows: &[Row<K::Element, K::Summary>],
    side: Option<u16>,
    i: u16,
    j: u16,
) -> K::Summary
    requires { (t : Shape K.Element K.Summary) × Rooted rows.now side t × (i ≤ j) × (j ≤ count_of t) }
    ensures { (t : Shape K.Element K.Summary) → Rooted rows.now side t → i ≤ j → j ≤ count_of t → Told K.Kind.rule t → result ≡ summary K.Kind.rule (between i j (elements t)) }
{
    let Some(place) = side else { return K::unit() };
    let row = row_at(rows, place);
    if i == 0 && j == row.count {
        return row.summary;
    }
    let before = count_of::<K>(rows, row.left);
    if j <= before {
        return range_summary::<K>(rows, row.left, i, j);
    }
    if i > before {
        return range_summary::<K>(rows, row.right, i - before - 1, j - before - 1);
    }
    let front = range_summary::<K>(rows, row.left, i, before);
    let back = range_summary::<K>(rows, row.right, 0, j - before - 1);
    K::join(front, K::join(K::of(&row.element), back))
}
