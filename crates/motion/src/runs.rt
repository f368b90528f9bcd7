// Run-up and run-down, the two kinds of summary from which speeds are told.
ghost use Rattle.std.specs.Prelude.{◌≡◌};
ghost use Rattle.motion.specs.Runs.{no_run, through, followed, fits_run, run_up_rule, run_up_laws, run_down_rule, run_down_laws};

use crate::blocks::Block;
use kinds::{Kind, saturating_sum};

// What a range of blocks does to a squared speed: the most that it lets through, and the most that it adds.
#[derive(Clone, Copy, PartialEq, Eq, Debug)]
pub struct Run {
    pub cap: u32,
    pub change: u32,
}

impl Run {
    // Of no blocks: each speed passes as it is.
    pub fn none() -> Run
        ensures { result ≡ no_run }
    {
        Run {
            cap: u32::MAX,
            change: 0,
        }
    }

    // The greatest speed at the other end of the range, for a speed at this one.
    pub fn through(self, speed: u32) -> u32
        ensures { result ≡ through self speed }
    {
        self.cap.min(saturating_sum(speed, self.change))
    }

    // The run of one range and then of another, which begins where the speed leaves the first.
    pub fn then(self, next: Run) -> Run
        ensures { result ≡ followed self next }
    {
        Run {
            cap: next.through(self.cap),
            change: saturating_sum(self.change, next.change),
        }
    }
}

// From the start of a range to its end.
pub struct RunUp;

impl Kind for RunUp {
    type Element = Block;

    type Summary = Run;

    ghost rule = { run_up_rule };

    ghost valid = { fits_run };

    ghost laws = { run_up_laws };

    fn of(element: &Block) -> Run {
        Run {
            cap: element.own_cap().min(element.corner_cap()),
            change: element.rise(),
        }
    }

    fn unit() -> Run {
        Run::none()
    }

    fn join(a: Run, b: Run) -> Run {
        a.then(b)
    }
}

// From the end of a range to its start.
pub struct RunDown;

impl Kind for RunDown {
    type Element = Block;

    type Summary = Run;

    ghost rule = { run_down_rule };

    ghost valid = { fits_run };

    ghost laws = { run_down_laws };

    fn of(element: &Block) -> Run {
        let fall = element.fall();
        Run {
            cap: element
                .own_cap()
                .min(saturating_sum(element.corner_cap(), fall)),
            change: fall,
        }
    }

    fn unit() -> Run {
        Run::none()
    }

    fn join(a: Run, b: Run) -> Run {
        b.then(a)
    }
}
