// Blocks: moves with where they begin, their override and their length, and the figures that planning needs.
ghost use Rattle.std.specs.Prelude.{◌≡◌, ◌+◌, ◌*◌, ◌<◌, ◌≤◌, min};
ghost use Rattle.kinds.specs.Sums.{top};
ghost use Rattle.motion.specs.Ranges.{ValidPosition};
ghost use Rattle.motion.specs.Roots.{WholeRoot};
ghost use Rattle.motion.specs.Figures.{square_of, apart, length_of, origin, idle_move, block_of, begun_at, at_percent, target_of, change_of, rise_of, fall_of, feed_of, own_cap, corner_cap};

use crate::moves::Move;

// Plain numbers and no arrays: of an array in a list of blocks it is not known that it has three. The length is computed once,
// when the block is made.
#[derive(Clone, Copy, PartialEq, Eq, Debug)]
pub struct Block {
    pub begin_x: i32,
    pub begin_y: i32,
    pub begin_z: i32,
    pub x: i32,
    pub y: i32,
    pub z: i32,
    pub acceleration: u16,
    pub feed: u16,
    pub corner: u16,
    pub percent: u8,
    pub length: u32,
}

// The square of the distance in x and y, as far as 64 bits go.
fn square_between(p: [i32; 3], q: [i32; 3]) -> u64
    ensures { result ≡ square_of (apart p q 0) (apart p q 1) }
{
    let dx = u64::from(q[0].abs_diff(p[0]));
    let dy = u64::from(q[1].abs_diff(p[1]));
    (dx * dx).saturating_add(dy * dy)
}

// A number near the root of n: three of Newton's steps from the nearest power of two, the first of them by a shift. It
// promises nothing, since whatever it answers is checked.
fn near_root(n: u64) -> u32 {
    let power = (64 - n.leading_zeros()) / 2;
    let first = (n >> power).saturating_add(1 << power) / 2;
    let second = first.saturating_add(n / first.max(1)) / 2;
    let third = second.saturating_add(n / second.max(1)) / 2;
    let root = if third.saturating_mul(third) > n {
        third.saturating_sub(1)
    } else {
        third
    };
    u32::try_from(root).unwrap_or(u32::MAX)
}

// The greatest whole number whose square is at most n. A search by halves, for where the number nearby is not it, takes
// several times as long.
fn whole_root(n: u64) -> u32
    ensures fits { result * result ≤ n }
    ensures next { n < (result + 1) * (result + 1) }
{
    let near = near_root(n);
    let root = u64::from(near);
    let square = root * root;
    if square <= n && n - square <= 2 * root {
        return near;
    }
    // Cut by `as`: the root of 64 bits has 32, and `try_from` would need an error that cannot come.
    n.isqrt() as u32
}

// The length of a straight, of x and y alone: the greatest whole number whose square is at most that of the distance.
pub fn length_between(p: [i32; 3], q: [i32; 3]) -> u32
    ensures value { result ≡ length_of p q }
    ensures greatest { WholeRoot (square_of (apart p q 0) (apart p q 1)) result }
    ensures valid { ValidPosition p → ValidPosition q → WholeRoot (apart p q 0 * apart p q 0 + apart p q 1 * apart p q 1) result }
{
    whole_root(square_between(p, q))
}

// As far as 32 bits go.
fn squared(speed: u32) -> u32
    ensures { result ≡ min (speed * speed) top }
{
    speed.saturating_mul(speed)
}

impl Block {
    // What rows and slots hold before their first use: a move that goes nowhere, at full override.
    pub fn idle() -> Block
        ensures { result ≡ block_of origin idle_move 100 }
    {
        Block::new([0, 0, 0], Move::IDLE, 100)
    }

    pub fn new(begin: [i32; 3], m: Move, percent: u8) -> Block
        ensures { result ≡ block_of begin m percent }
    {
        let [begin_x, begin_y, begin_z] = begin;
        let [x, y, z] = m.target;
        Block {
            begin_x,
            begin_y,
            begin_z,
            x,
            y,
            z,
            acceleration: m.acceleration,
            feed: m.feed,
            corner: m.corner,
            percent,
            length: length_between(begin, m.target),
        }
    }

    // The same move from another position.
    pub fn begun_at(self, begin: [i32; 3]) -> Block
        ensures { result ≡ begun_at self begin }
    {
        let [begin_x, begin_y, begin_z] = begin;
        Block {
            begin_x,
            begin_y,
            begin_z,
            length: length_between(begin, self.target()),
            ..self
        }
    }

    pub fn at_percent(self, percent: u8) -> Block
        ensures { result ≡ at_percent self percent }
    {
        Block { percent, ..self }
    }

    pub fn target(self) -> [i32; 3]
        ensures { result ≡ target_of self }
    {
        [self.x, self.y, self.z]
    }

    // What the squared speed may rise by along the block.
    pub fn rise(self) -> u32
        ensures { result ≡ rise_of self }
    {
        self.change()
    }

    // What the squared speed may fall by along the block. A figure of its own by the rules, so one name for both is no plainer.
    pub fn fall(self) -> u32
        ensures { result ≡ fall_of self }
    {
        self.change()
    }

    fn change(self) -> u32
        ensures { result ≡ change_of self }
    {
        (2 * u32::from(self.acceleration)).saturating_mul(self.length)
    }

    // The feed at the block's override, at least 1.
    fn overridden_feed(self) -> u32
        ensures { result ≡ feed_of self }
    {
        (u32::from(self.feed) * u32::from(self.percent) / 100).max(1)
    }

    // The greatest squared speed on the block.
    pub fn own_cap(self) -> u32
        ensures { result ≡ own_cap self }
    {
        squared(self.overridden_feed())
    }

    // The greatest squared speed at the corner at its end.
    pub fn corner_cap(self) -> u32
        ensures { result ≡ corner_cap self }
    {
        squared(u32::from(self.corner))
    }
}
