// Positions and moves, and the ranges that they keep to.
ghost use Rattle.std.specs.Prelude.{◌≡◌, ◌↔◌, Some, Ok};
ghost use Rattle.motion.specs.Ranges.{position_fits, check_position, ValidPosition, rates_fit, check_move, ValidMove};
ghost use Rattle.motion.specs.Texts.{move_text};

use refusals::Refusal;
use std::fmt;

// The greatest coordinates either way: x and y in millimetres, z in hundredths of one.
const MOST_XY: u32 = 100_000;

const MOST_Z: u32 = 10_000;

const MOST_ACCELERATION: u16 = 2_000;

const MOST_FEED: u16 = 5_000;

const MOST_CORNER: u16 = 10_000;

// The target is x, y, z; acceleration is in mm/s², feed and corner in mm/s.
// A position is an array of three numbers by value, by a rule of the project.
#[derive(Clone, Copy, PartialEq, Eq, Debug)]
pub struct Move {
    pub target: [i32; 3],
    pub acceleration: u16,
    pub feed: u16,
    pub corner: u16,
}

fn position_fits(p: [i32; 3]) -> bool
    ensures { result ≡ position_fits p }
{
    let [x, y, z] = p;
    x.unsigned_abs() <= MOST_XY && y.unsigned_abs() <= MOST_XY && z.unsigned_abs() <= MOST_Z
}

pub fn check_position(p: [i32; 3]) -> Result<(), Refusal>
    ensures value { result ≡ check_position p }
    ensures valid { result ≡ Ok tt ↔ ValidPosition p }
{
    if position_fits(p) {
        Ok(())
    } else {
        Err(Refusal::Coordinate)
    }
}

impl Move {
    // A move that goes nowhere, for rows and slots before their first use.
    pub const IDLE: Move = Move {
        target: [0, 0, 0],
        acceleration: 1,
        feed: 1,
        corner: 0,
    };

    pub fn check(self) -> Result<(), Refusal>
        ensures value { result ≡ check_move self }
        ensures valid { result ≡ Ok tt ↔ ValidMove self }
    {
        check_position(self.target)?;
        if self.rates_fit() {
            Ok(())
        } else {
            Err(Refusal::Rate)
        }
    }

    fn rates_fit(self) -> bool
        ensures { result ≡ rates_fit self }
    {
        (1..=MOST_ACCELERATION).contains(&self.acceleration)
            && (1..=MOST_FEED).contains(&self.feed)
            && self.corner <= MOST_CORNER
    }
}

// By a rule of the project a position is an array, which has no `Display` of ours.
impl fmt::Display for Move {
    ghost output = { λ move. Some (move_text move) };

    fn fmt<W: fmt::Write>(&self, f: &mut fmt::Formatter<W>) -> fmt::Result {
        let Move {
            target,
            acceleration,
            feed,
            corner,
        } = *self;
        let [x, y, z] = target;
        write!(f, "({x}, {y}, {z}) a {acceleration} f {feed} r {corner}")
    }
}
