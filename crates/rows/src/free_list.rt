// The free list: rows that were given back are used again before any other. It is linked by place, since all lie in a slice
// that a caller without a heap lends.
ghost use Rattle.std.specs.Prelude.{◌≡◌, ℕ, ◌<◌, ◌≤◌, min, List, ◌∷◌, length, Some, MatchOption, ◌≢◌, slice_index_or};
ghost use Rattle.rows.specs.FreeList.{FreeList, among, FreeTaken};

use crate::{MOST, Row, put, row_at};

// A row to use, and the free list without it. `Heads` would bring a top, of which the free list knows nothing.
#[derive(Clone, Copy)]
pub struct Fresh {
    pub place: u16,
    pub free: Option<u16>,
    pub used: u16,
}

// Finds a row that was given back, or else the first that was never used.
pub fn take_free<E: Copy, S: Copy>(
    rows: &[Row<E, S>],
    free: Option<u16>,
    used: u16,
) -> Option<Fresh>
    requires { (fs : List ℕ) × FreeList rows.now free fs }
    ensures { (fs : List ℕ) → FreeList rows.now free fs → MatchOption result ((length fs ≡ 0) × (min (length rows.now) 4096 ≤ used)) (λ f. FreeTaken rows.now used fs f) }
{
    if let Some(place) = free {
        let row = row_at(rows, place);
        return Some(Fresh {
            place,
            free: row.left,
            used,
        });
    }
    let room = rows.len().min(MOST);
    if used as usize >= room {
        return None;
    }
    Some(Fresh {
        place: used,
        free,
        used: used + 1,
    })
}

// Puts a row at the head of the free list.
pub fn release<E: Copy, S: Copy>(rows: &mut [Row<E, S>], place: u16, free: Option<u16>)
    requires { place < length rows.old }
    ensures free_list { (fs : List ℕ) → among place fs ≡ 0 → FreeList rows.old free fs → FreeList rows.new (Some place) (place ∷ fs) }
    ensures kept { (k : ℕ) (d : Row E S) → (k ≢ place) → slice_index_or rows.new k d ≡ slice_index_or rows.old k d }
    ensures long { length rows.old ≡ length rows.new }
{
    let row = row_at(rows, place);
    put(
        rows,
        place,
        Row {
            left: free,
            right: None,
            depth: 0,
            count: 0,
            ..row
        },
    );
}
