// Calls drawn from a seeded generator.
use motion::Move;
use plan::calls::Call as PlanCall;
use sequences::calls::Call;

#[derive(Drop)]
pub struct Random(u64);

// Numbers are cut by `as`: each is bounded just before, and `try_from` would need an error that cannot come.
impl Random {
    pub fn new(seed: u64) -> Random {
        Random(seed)
    }

    // The upper half of a 64-bit linear congruential generator.
    fn next(&mut self) -> u32 {
        self.0 = self
            .0
            .wrapping_mul(6364136223846793005)
            .wrapping_add(1442695040888963407);
        (self.0 >> 32) as u32
    }

    fn below(&mut self, n: u32) -> u32 {
        if n == 0 { 0 } else { self.next() % n }
    }

    fn small(&mut self, n: u16) -> u16 {
        (self.below(u32::from(n)) & 0xffff) as u16
    }

    // Places up to two past the end, so that some calls are refused.
    pub fn reading_call(&mut self, count: u16) -> Call<u16> {
        let near = count.saturating_add(2);
        let i = self.small(near);
        let j = self.small(near);
        match self.below(9) {
            0 => Call::Count,
            1 => Call::ElementAt(i),
            2 => Call::RangeJoin(i.min(j), i.max(j)),
            3 => Call::RangeJoin(i, j),
            4 | 5 => Call::Delete(i),
            6 => Call::Replace(i, self.small(2001)),
            _ => Call::Insert(i, self.small(2001)),
        }
    }

    fn coordinate(&mut self, most: i32) -> i32 {
        (self.below(20_001) & 0x7fff) as i32 % most.max(1)
    }

    fn random_move(&mut self) -> Move {
        let x = self.coordinate(5000);
        let y = self.coordinate(5000);
        let z = self.coordinate(100);
        Move {
            target: [x, y, z],
            acceleration: self.small(2002),
            feed: self.small(5003),
            corner: self.small(3000),
        }
    }

    pub fn plan_call(&mut self) -> PlanCall {
        let i = self.small(60);
        let j = self.small(60);
        match self.below(12) {
            0 | 1 | 2 | 3 => PlanCall::Insert(i, self.random_move()),
            4 => PlanCall::Replace(i, self.random_move()),
            5 | 6 => PlanCall::Delete(i),
            7 => PlanCall::Override(i.min(j), i.max(j), (self.below(220) & 0xff) as u8),
            8 => PlanCall::Start([self.coordinate(5000), 0, 0]),
            9 => PlanCall::Reach(i, j),
            10 => PlanCall::Span(i.min(j), i.max(j)),
            _ => PlanCall::Junction(i, self.below(3_000_000)),
        }
    }
}
