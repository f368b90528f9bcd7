// Rows of a balanced tree in a caller's slice, and the functions that read and write them.
#![tactic(auto)]

ghost use Rattle.std.specs.Prelude.{◌≡◌, ◌<◌, length, slice_index_or, slice_set};
ghost use Rattle.rows.specs.Edits.{Sides, Refreshed};
ghost use Rattle.rows.specs.Shape.{Shape, top_of, count_of, depth_of, stored, idle_row, Rooted};

use kinds::Kind;

mod balance;
mod free_list;
mod path;
mod whole;

pub use path::{element_at, range_summary, replace};
pub use whole::{delete_element, insert_element};

// The most rows that a tree uses, however many there are.
pub const MOST: usize = 4096;

// One element of a tree, over the rows to its left and right, which it names by place: all lie in a slice that a caller
// without a heap lends. The summary, the depth and the count are those of all rows from it down.
#[derive(Clone, Copy)]
pub struct Row<E, S> {
    pub element: E,
    pub summary: S,
    pub left: Option<u16>,
    pub right: Option<u16>,
    pub depth: u8,
    pub count: u16,
}

// Where a tree and its free list begin, and how many rows were ever used.
#[derive(Clone, Copy)]
pub struct Heads {
    pub top: Option<u16>,
    pub free: Option<u16>,
    pub used: u16,
}

// A row that no tree uses yet.
pub fn idle<K: Kind>(element: K::Element) -> Row<K::Element, K::Summary>
    ensures { result ≡ idle_row K.Kind.rule element }
{
    Row {
        element,
        summary: K::unit(),
        left: None,
        right: None,
        depth: 0,
        count: 0,
    }
}

// The row that a side leads to. The caller's rows are written one by one, so no type can hold that a tree lies among
// them, or that a place is one of theirs, and each function asks for it; a struct for those that only read would be made
// anew at each call. A place as an index is widened by `as`, which reads better there than `usize::from`.
fn row_of<E: Copy, S: Copy>(rows: &[Row<E, S>], side: Option<u16>) -> Option<Row<E, S>>
    requires { (t : Shape E S) × Rooted rows.now side t }
    ensures { (t : Shape E S) → Rooted rows.now side t → result ≡ top_of t }
{
    Some(row_at(rows, side?))
}

// The number of rows from a side down.
pub fn count_of<K: Kind>(rows: &[Row<K::Element, K::Summary>], side: Option<u16>) -> u16
    requires { (t : Shape K.Element K.Summary) × Rooted rows.now side t }
    ensures { (t : Shape K.Element K.Summary) → Rooted rows.now side t → result ≡ count_of t }
{
    row_of(rows, side).map_or(0, |row| row.count)
}

pub fn depth_of<K: Kind>(rows: &[Row<K::Element, K::Summary>], side: Option<u16>) -> u8
    requires { (t : Shape K.Element K.Summary) × Rooted rows.now side t }
    ensures { (t : Shape K.Element K.Summary) → Rooted rows.now side t → result ≡ depth_of t }
{
    row_of(rows, side).map_or(0, |row| row.depth)
}

fn summary_of<K: Kind>(rows: &[Row<K::Element, K::Summary>], side: Option<u16>) -> K::Summary
    requires { (t : Shape K.Element K.Summary) × Rooted rows.now side t }
    ensures { (t : Shape K.Element K.Summary) → Rooted rows.now side t → result ≡ stored K.Kind.rule t }
{
    row_of(rows, side).map_or(K::unit(), |row| row.summary)
}

fn row_at<E: Copy, S: Copy>(rows: &[Row<E, S>], place: u16) -> Row<E, S>
    requires { place < length rows.now }
    ensures { (d : Row E S) → result ≡ slice_index_or rows.now place d }
{
    rows[place as usize]
}

fn put<E: Copy, S: Copy>(rows: &mut [Row<E, S>], place: u16, row: Row<E, S>)
    requires { place < length rows.old }
    ensures { rows.new ≡ slice_set rows.old place row }
{
    rows[place as usize] = row;
}

// Writes the row at `place` over two sides, with its summary, depth and count worked out anew from theirs. The place, the
// element and the sides are no struct: most calls would make one only to hand it on.
fn refresh<K: Kind>(
    rows: &mut [Row<K::Element, K::Summary>],
    place: u16,
    element: K::Element,
    left: Option<u16>,
    right: Option<u16>,
)
    requires within { place < length rows.old }
    requires sides { Sides rows.old left right }
    ensures { (l r : Shape K.Element K.Summary) → Rooted rows.old left l → Rooted rows.old right r → Refreshed K.Kind.rule rows.old place element l r rows.new }
{
    let after = K::join(K::of(&element), summary_of::<K>(rows, right));
    let summary = K::join(summary_of::<K>(rows, left), after);
    let depth = depth_of::<K>(rows, left).max(depth_of::<K>(rows, right)) + 1;
    let count = count_of::<K>(rows, left) + count_of::<K>(rows, right) + 1;
    put(
        rows,
        place,
        Row {
            element,
            summary,
            left,
            right,
            depth,
            count,
        },
    );
}
