// Motion along straight blocks: their figures, their lawful profiles, and the summaries from which speeds are told.
#![tactic(auto)]

pub mod blocks;
pub mod extents;
pub mod moves;
pub mod passes;
pub mod runs;
pub mod theorems;

pub use self::blocks::Block;
pub use self::extents::{Bounds, Extent, Length, Reach, Span};
pub use self::moves::Move;
pub use self::runs::{Run, RunDown, RunUp};
