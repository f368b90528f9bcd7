// The ice survey: readings along the rink in tenths of a millimetre, and where the ice is thinnest.
#![tactic(auto)]

ghost use Rattle.std.specs.Prelude.{◌≡◌, ℕ, ◌<◌, ◌≤◌, [], length, Some, None, Ok, Err};
ghost use Rattle.kinds.specs.Models.{thinnest as thinnest-rule};
ghost use Rattle.kinds.specs.Rules.{summary};
ghost use Rattle.refusals.specs.declared.Refusal.{Refusal};
ghost use Rattle.sequences.specs.Lists.{place_answer, delete_list, ranged};
ghost use Rattle.std.specs.List.{between};
ghost use Rattle.survey.specs.Readings.{IsThinnest, no_range, note_answer, note_list, spot_at, thinnest_answer};

pub mod calls;

use kinds::Thinnest;
use refusals::{Layer, Refusal};
use sequences::Sequence;

// The greatest reading that is taken, in tenths of a millimetre.
const THICKEST: u16 = 2000;

// A range that there is not.
const NO_RANGE: Refusal = Refusal::NoPlace(Layer::Survey);

// A reading and the place where it stands.
#[derive(Clone, Copy, PartialEq, Eq, Debug)]
pub struct Spot {
    pub reading: u16,
    pub place: u16,
}

// Whatever holds readings, with the least of each range.
pub trait Readings: Sequence<Element = u16, Summary = u16, Kind = Thinnest> {}

impl<S: Sequence<Element = u16, Summary = u16, Kind = Thinnest>> Readings for S {}

// No reading of a survey passes the greatest, which is what the kind `Thinnest` calls sound. Its edits say that the room stays, as
// those of a sequence do: a pair of room and readings in each clause would be no plainer.
#[derive(Drop)]
pub struct Survey<S: Sequence> {
    readings: S,
    ghost sound: { (S.Kind.sound [] (S.Sequence.list readings)).holds } by { (S.Kind.sound [] (S.Sequence.list readings)).once },
}

impl<S: Readings> Survey<S> {
    // The code that joins the two hands in an empty sequence, by a rule of the project.
    pub fn open(readings: S) -> Survey<S>
        requires { S.Sequence.list readings ≡ [] }
        ensures same { result.readings ≡ readings }
    {
        Survey { readings }
    }

    // Puts a reading before the one at `i`, or last.
    pub fn note(&mut self, i: u16, reading: u16) -> Result<(), Refusal>
        ensures value { result ≡ note_answer (S.Sequence.list self.old.readings) (S.Sequence.room self.old.readings) i reading }
        ensures after { S.Sequence.list self.new.readings ≡ note_list (S.Sequence.list self.old.readings) (S.Sequence.room self.old.readings) i reading }
        ensures room { S.Sequence.room self.new.readings ≡ S.Sequence.room self.old.readings }
        ensures refused { (why : Refusal) → result ≡ Err why → self.new ≡ self.old }
    {
        if reading > THICKEST {
            return Err(Refusal::Reading);
        }
        self.readings.insert(i, reading)
    }

    // Takes the reading at `i` out.
    pub fn strike(&mut self, i: u16) -> Result<(), Refusal>
        ensures value { result ≡ place_answer (S.Sequence.list self.old.readings) i }
        ensures after { S.Sequence.list self.new.readings ≡ delete_list (S.Sequence.list self.old.readings) i }
        ensures room { S.Sequence.room self.new.readings ≡ S.Sequence.room self.old.readings }
        ensures refused { (why : Refusal) → result ≡ Err why → self.new ≡ self.old }
    {
        self.readings.delete(i)
    }

    // The least reading from `i` up to but without `j`. The sequence knows which ranges there are.
    fn least(&mut self, i: u16, j: u16) -> Result<u16, Refusal>
        ensures value { result ≡ ranged no_range (S.Sequence.list self.old.readings) i j (summary thinnest-rule (between i j (S.Sequence.list self.old.readings))) }
        ensures same { self.new ≡ self.old }
    {
        self.readings.range_join(i, j).map_err(|_| NO_RANGE)
    }

    // The first place of the range at which its least reading stands. The search is a loop of its own: a question takes
    // `&mut self`, so as a closure it would have to carry its state through a search that takes the test.
    fn first_place(&mut self, i: u16, j: u16, reading: u16) -> u16
        requires order { i < j }
        requires within { j ≤ length (S.Sequence.list self.old.readings) }
        ensures value { reading ≡ summary thinnest-rule (between i j (S.Sequence.list self.old.readings)) → IsThinnest (S.Sequence.list self.old.readings) i j (spot_at reading result) }
        ensures same { self.new ≡ self.old }
    {
        let mut low = i;
        let mut high = j;
        while high - low > 1 {
            let middle = low + (high - low) / 2;
            if self.least(low, middle) == Ok(reading) {
                high = middle;
            } else {
                low = middle;
            }
        }
        low
    }

    // The least reading of a range and its first place, or none where the range is empty.
    pub fn thinnest(&mut self, i: u16, j: u16) -> Result<Option<Spot>, Refusal>
        ensures value { result ≡ thinnest_answer (S.Sequence.list self.old.readings) i j }
        ensures spot { (spot : Spot) → result ≡ Ok (Some spot) → IsThinnest (S.Sequence.list self.old.readings) i j spot }
        ensures same { self.new ≡ self.old }
    {
        // Told by the count alone, since a tree walks down to where an empty range would be.
        if i == j {
            if j > self.readings.count() {
                return Err(NO_RANGE);
            }
            return Ok(None);
        }
        let reading = self.least(i, j)?;
        let place = self.first_place(i, j, reading);
        Ok(Some(Spot { reading, place }))
    }
}
