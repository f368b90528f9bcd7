// What a plan asks of its sequence: run-up and run-down for speeds, reach and span for people.
ghost use Rattle.kinds.specs.Models.{both_laws, valid_both, fits32};
ghost use Rattle.motion.specs.Extents.{fits_extent, reach_laws, span_laws};
ghost use Rattle.motion.specs.Runs.{fits_run, run_up_laws, run_down_laws};
ghost use Rattle.plan.specs.Keeping.{lying};
ghost use Rattle.plan.specs.Models.{plan_rule};

use kinds::{Both, Kind, Pair};
use motion::{Block, Extent, Reach, Run, RunDown, RunUp, Span};
use sequences::Sequence;

// Of a range: its run-up and its run-down, its reach and its span.
pub type Summary = Pair<Pair<Run, Run>, Pair<Extent, u32>>;

type Sides = Both<Both<RunUp, RunDown>, Both<Reach, Span>>;

// The four kinds side by side. A struct with an impl of its own: where a bound names the nested type itself, no call of
// the bound's methods gets a proof yet.
pub struct PlanKind {}

impl Kind for PlanKind {
    type Element = Block;

    type Summary = Summary;

    ghost rule = { plan_rule };

    ghost valid = { valid_both (valid_both fits_run fits_run) (valid_both fits_extent fits32) };

    ghost laws = { both_laws (both_laws run_up_laws run_down_laws) (both_laws reach_laws span_laws) };

    ghost sound = { lying };

    fn of(element: &Block) -> Summary {
        Sides::of(element)
    }

    fn unit() -> Summary {
        Sides::unit()
    }

    fn join(a: Summary, b: Summary) -> Summary {
        Sides::join(a, b)
    }
}

// Whatever holds the blocks of a plan, with these summaries of their ranges.
pub trait Blocks: Sequence<Element = Block, Summary = Summary, Kind = PlanKind> {}

impl<S: Sequence<Element = Block, Summary = Summary, Kind = PlanKind>> Blocks for S {}
