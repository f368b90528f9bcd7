// Calls of a plan drawn from a seed, so that a program in another language can draw the same ones.
ghost use Rattle.std.specs.Prelude.{◌≡◌};
ghost use Rattle.firmware.specs.Seeded.{drawn, drawn_below, drawn_place, mix_of, move_at, asking_call, filling_call, replacing_call, shifting_call, overriding_call, everything_call, call_at};

use motion::Move;
use plan::calls::Call;

// What is done once a plan is filled. C takes no enum of ours and names it by a byte, and each draws its calls in its own way.
#[derive(Clone, Copy)]
pub enum Mix {
    // Every call, also with places and rates that are refused.
    Everything,
    // Replacements, each with a question.
    Replacing,
    // Deletions and insertions in turn, each with a question.
    Shifting,
    // Overrides of up to 64 blocks, each with a question.
    Overriding,
}

impl From<u8> for Mix {
    ghost from_gives = { λ byte mix. mix ≡ mix_of byte };

    fn from(byte: u8) -> Mix {
        match byte {
            1 => Mix::Replacing,
            2 => Mix::Shifting,
            3 => Mix::Overriding,
            _ => Mix::Everything,
        }
    }
}

// The draws for one call of a seed, after as many that fill a plan.
#[derive(Clone, Copy)]
pub struct Draws {
    pub seed: u64,
    pub size: u16,
    pub call: u32,
}

const CALL_STRIDE: u64 = 0x9e37_79b9_7f4a_7c15;

const SALT_STRIDE: u64 = 0xd1b5_4a32_d192_ed03;

const FACTOR: u64 = 6364136223846793005;

const SUMMAND: u64 = 1442695040888963407;

const HALF: u64 = 4_294_967_296;

// Numbers are cut by `as`: each is bounded just before, and `try_from` would need an error that cannot come.
impl Draws {
    // A step of a congruential generator from a point of its own for each call and salt, its halves multiplied.
    #[tactic(auto, unfolding(crate::specs::Seeded::drawn))]
    fn at(self, salt: u8) -> u32
        ensures { result ≡ drawn self salt }
    {
        let point = self
            .seed
            .wrapping_add(u64::from(self.call).wrapping_mul(CALL_STRIDE))
            .wrapping_add(u64::from(salt).wrapping_mul(SALT_STRIDE));
        let step = point.wrapping_mul(FACTOR).wrapping_add(SUMMAND);
        let product = (step / HALF) * (step % HALF);
        (product / 65_536 % HALF) as u32
    }

    fn below(self, salt: u8, n: u32) -> u32
        ensures { result ≡ drawn_below self salt n }
    {
        self.at(salt) % n.max(1)
    }

    fn place(self, salt: u8, n: u32) -> u16
        ensures { result ≡ drawn_place self salt n }
    {
        (self.below(salt, n) % 65_536) as u16
    }

    #[tactic(auto, unfolding(crate::specs::Seeded::move_at))]
    fn random_move(self) -> Move
        ensures { result ≡ move_at self }
    {
        Move {
            target: [
                i32::from(self.place(1, 10_001)),
                i32::from(self.place(2, 10_001)),
                i32::from(self.place(3, 201)),
            ],
            acceleration: self.place(4, 2002),
            feed: self.place(5, 5000).saturating_add(1),
            corner: self.place(6, 3001),
        }
    }

    // A place among those of a filled plan.
    fn filled_place(self, salt: u8) -> u16
        ensures { result ≡ drawn_place self salt self.size }
    {
        self.place(salt, u32::from(self.size))
    }

    // The question between edits.
    fn asking(self) -> Call
        ensures { result ≡ asking_call self }
    {
        Call::Junction(self.filled_place(9), 0)
    }

    // Puts in one move more, anywhere.
    fn filling(self) -> Call
        ensures { result ≡ filling_call self }
    {
        Call::Insert(
            self.place(8, self.call.saturating_add(1)),
            self.random_move(),
        )
    }

    fn replacing(self) -> Call
        ensures { result ≡ replacing_call self }
    {
        if self.call % 2 == 0 {
            Call::Replace(self.filled_place(8), self.random_move())
        } else {
            self.asking()
        }
    }

    fn shifting(self) -> Call
        ensures { result ≡ shifting_call self }
    {
        match self.call % 4 {
            0 => Call::Delete(self.filled_place(8)),
            2 => Call::Insert(self.filled_place(8), self.random_move()),
            _ => self.asking(),
        }
    }

    fn overriding(self) -> Call
        ensures { result ≡ overriding_call self }
    {
        if self.call % 2 == 0 {
            let i = self.filled_place(8);
            let percent = self.below(10, 191) % 191 + 10;
            Call::Override(i, i.saturating_add(64).min(self.size), percent as u8)
        } else {
            self.asking()
        }
    }

    // Places up to two past the end, so that some calls are refused.
    fn everything(self) -> Call
        ensures { result ≡ everything_call self }
    {
        let near = u32::from(self.size) + 2;
        let i = self.place(8, near);
        let j = self.place(9, near);
        match self.below(0, 12) {
            0 | 1 => Call::Insert(i, self.random_move()),
            2 => Call::Replace(i, self.random_move()),
            3 | 4 => Call::Delete(i),
            5 => Call::Override(i.min(j), i.max(j), (self.below(10, 220) % 220) as u8),
            6 => Call::Start(self.random_move().target),
            7 => Call::Reach(i, j),
            8 => Call::Span(i.min(j), i.max(j)),
            _ => Call::Junction(i, self.below(7, 4_000_000)),
        }
    }

    // The call that is drawn: the first ones fill a plan.
    pub fn drawn_call(self, mix: Mix) -> Call
        ensures { result ≡ call_at self mix }
    {
        if self.call < u32::from(self.size) {
            return self.filling();
        }
        // A mix is a byte of C, and no closure that could be handed over.
        match mix {
            Mix::Everything => self.everything(),
            Mix::Replacing => self.replacing(),
            Mix::Shifting => self.shifting(),
            Mix::Overriding => self.overriding(),
        }
    }
}
