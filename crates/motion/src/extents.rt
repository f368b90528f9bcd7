// The box of the targets of blocks, and their length.
ghost use Rattle.std.specs.Prelude.{◌≡◌, Some};
ghost use Rattle.motion.specs.Extents.{bounds_rule, reach_rule, fits_extent, reach_laws};
ghost use Rattle.motion.specs.Texts.{bounds_text, extent_text};

use crate::blocks::Block;
use kinds::{Kind, Measure, Sum};
use std::fmt;

// The least and the greatest of some coordinates; of none, by the rules of the kind, the least is above the greatest.
#[derive(Clone, Copy, PartialEq, Eq, Debug)]
pub struct Bounds {
    pub least: i32,
    pub greatest: i32,
}

impl Bounds {
    pub fn none() -> Bounds
        ensures { result ≡ bounds_rule.unit }
    {
        Bounds {
            least: i32::MAX,
            greatest: i32::MIN,
        }
    }

    pub fn at(coordinate: i32) -> Bounds
        ensures { result ≡ bounds_rule.one coordinate }
    {
        Bounds {
            least: coordinate,
            greatest: coordinate,
        }
    }

    pub fn join(self, other: Bounds) -> Bounds
        ensures { result ≡ bounds_rule.join self other }
    {
        Bounds {
            least: self.least.min(other.least),
            greatest: self.greatest.max(other.greatest),
        }
    }
}

impl fmt::Display for Bounds {
    ghost output = { λ bounds. Some (bounds_text bounds) };

    fn fmt<W: fmt::Write>(&self, f: &mut fmt::Formatter<W>) -> fmt::Result {
        let Bounds { least, greatest } = *self;
        write!(f, "{least} to {greatest}")
    }
}

// The bounds of the target coordinates along each axis.
#[derive(Clone, Copy, PartialEq, Eq, Debug)]
pub struct Extent {
    pub x: Bounds,
    pub y: Bounds,
    pub z: Bounds,
}

impl fmt::Display for Extent {
    ghost output = { λ extent. Some (extent_text extent) };

    fn fmt<W: fmt::Write>(&self, f: &mut fmt::Formatter<W>) -> fmt::Result {
        let Extent { x, y, z } = *self;
        write!(f, "x {x}, y {y}, z {z}")
    }
}

// The box of the targets of blocks.
pub struct Reach;

impl Kind for Reach {
    type Element = Block;

    type Summary = Extent;

    ghost rule = { reach_rule };

    ghost valid = { fits_extent };

    ghost laws = { reach_laws };

    fn of(element: &Block) -> Extent {
        Extent {
            x: Bounds::at(element.x),
            y: Bounds::at(element.y),
            z: Bounds::at(element.z),
        }
    }

    fn unit() -> Extent {
        Extent {
            x: Bounds::none(),
            y: Bounds::none(),
            z: Bounds::none(),
        }
    }

    fn join(a: Extent, b: Extent) -> Extent {
        Extent {
            x: a.x.join(b.x),
            y: a.y.join(b.y),
            z: a.z.join(b.z),
        }
    }
}

// The length of a block.
pub struct Length;

impl Measure for Length {
    type Element = Block;

    ghost measure = { λ block. block.length };

    fn measure(element: &Block) -> u32 {
        element.length
    }
}

// The length of blocks, as far as 32 bits go.
pub type Span = Sum<Length>;
