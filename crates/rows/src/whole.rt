// Edits of a whole tree, which take a row from the free list or give one back.
ghost use Rattle.rows.specs.Layouts.{HasRoom, HasElement, Edited, list_of};
ghost use Rattle.std.specs.List.{insert, remove};

use crate::free_list::{release, take_free};
use crate::path::{insert, remove};
use crate::{Heads, Row};
use kinds::Kind;

// Puts an element before the place `i` of the list.
pub fn insert_element<K: Kind>(
    rows: &mut [Row<K::Element, K::Summary>],
    heads: Heads,
    i: u16,
    element: K::Element,
) -> Heads
    requires { HasRoom rows.old heads i }
    ensures { Edited K.Kind.rule rows.old rows.new heads result (insert (list_of rows.old heads.top) i element) }
{
    let Some(fresh) = take_free(rows, heads.free, heads.used) else {
        unreachable()
    };
    let top = insert::<K>(rows, heads.top, i, fresh.place, element);
    Heads {
        top: Some(top),
        free: fresh.free,
        used: fresh.used,
    }
}

// Takes the element at the place `i` out of the list.
pub fn delete_element<K: Kind>(
    rows: &mut [Row<K::Element, K::Summary>],
    heads: Heads,
    i: u16,
) -> Heads
    requires { HasElement rows.old heads i }
    ensures { Edited K.Kind.rule rows.old rows.new heads result (remove (list_of rows.old heads.top) i) }
{
    let Some(top) = heads.top else { unreachable() };
    let out = remove::<K>(rows, top, i);
    release(rows, out.place, heads.free);
    Heads {
        top: out.rest,
        free: Some(out.place),
        ..heads
    }
}
