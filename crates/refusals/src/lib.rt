// Why a call is refused, by the number and the layer that every panel knows it by.
#![tactic(auto)]

ghost use Rattle.std.specs.Prelude.{◌≡◌, Some};
ghost use Rattle.refusals.specs.Table.{number_of, layer_of, name_of, named_of, reason_of, words_of};

use std::fmt;

// The part of the library that refuses.
#[derive(Clone, Copy, PartialEq, Eq, Debug)]
pub enum Layer {
    Sequence,
    Plan,
    Survey,
    Job,
}

#[derive(Clone, Copy, PartialEq, Eq, Debug)]
pub enum Refusal {
    // No such place or range. A sequence refuses a place, the layers above it a range or a junction.
    NoPlace(Layer),
    // The sequence is full.
    Full,
    // A coordinate out of range.
    Coordinate,
    // An acceleration, a feed or a corner speed out of range.
    Rate,
    // An override below 10 or above 200 percent.
    Override,
    // A reading above 2,000 tenths of a millimetre.
    Reading,
    // A start speed above 100,000,000.
    Speed,
    // No lawful profile; the least junction up to which there is none.
    Blocked(u16),
    // A line buffer under 64 bytes.
    Buffer,
    // The job ends inside a field, or without an end field; where the field starts. All offsets are from the job's first byte.
    Cut(u32),
    // An unknown tag; where its field starts.
    Tag(u32),
    // A wrong length for the tag; where the field starts.
    FieldLength(u32),
    // A wrong end byte; where the end field starts.
    EndByte(u32),
    // Bytes after the end field; the first of them.
    Trailing(u32),
}

// What a case may name besides its number and its layer.
#[derive(Clone, Copy, PartialEq, Eq, Debug)]
pub enum Named {
    Junction(u16),
    // Of a byte, from the job's first.
    Offset(u32),
}

impl Refusal {
    // A plain number, since lines and panels know a refusal by it.
    pub fn number(self) -> u8
        ensures { result ≡ number_of self }
    {
        match self {
            Refusal::NoPlace(_) => 1,
            Refusal::Full => 2,
            Refusal::Coordinate => 3,
            Refusal::Rate => 4,
            Refusal::Override => 5,
            Refusal::Reading => 6,
            Refusal::Speed => 7,
            Refusal::Blocked(_) => 8,
            Refusal::Buffer => 9,
            Refusal::Cut(_) => 10,
            Refusal::Tag(_) => 11,
            Refusal::FieldLength(_) => 12,
            Refusal::EndByte(_) => 13,
            Refusal::Trailing(_) => 14,
        }
    }

    pub fn layer(self) -> Layer
        ensures { result ≡ layer_of self }
    {
        match self {
            Refusal::NoPlace(layer) => layer,
            Refusal::Full => Layer::Sequence,
            Refusal::Coordinate
            | Refusal::Rate
            | Refusal::Override
            | Refusal::Speed
            | Refusal::Blocked(_) => Layer::Plan,
            Refusal::Reading => Layer::Survey,
            Refusal::Buffer
            | Refusal::Cut(_)
            | Refusal::Tag(_)
            | Refusal::FieldLength(_)
            | Refusal::EndByte(_)
            | Refusal::Trailing(_) => Layer::Job,
        }
    }

    pub fn named(self) -> Option<Named>
        ensures { result ≡ named_of self }
    {
        match self {
            Refusal::Blocked(junction) => Some(Named::Junction(junction)),
            Refusal::Cut(offset)
            | Refusal::Tag(offset)
            | Refusal::FieldLength(offset)
            | Refusal::EndByte(offset)
            | Refusal::Trailing(offset) => Some(Named::Offset(offset)),
            Refusal::NoPlace(_)
            | Refusal::Full
            | Refusal::Coordinate
            | Refusal::Rate
            | Refusal::Override
            | Refusal::Reading
            | Refusal::Speed
            | Refusal::Buffer => None,
        }
    }

    // Why, in words for people.
    pub fn reason(self) -> &'static str
        ensures { result.now ≡ reason_of self }
    {
        match self {
            Refusal::NoPlace(_) => "no such place or range",
            Refusal::Full => "the sequence is full",
            Refusal::Coordinate => "coordinate out of range",
            Refusal::Rate => "acceleration, feed or corner speed out of range",
            Refusal::Override => "override out of range",
            Refusal::Reading => "reading above 2000",
            Refusal::Speed => "start speed above 100000000",
            Refusal::Blocked(_) => "no lawful profile",
            Refusal::Buffer => "line buffer under 64 bytes",
            Refusal::Cut(_) => "job ends inside a field or without an end field",
            Refusal::Tag(_) => "unknown tag",
            Refusal::FieldLength(_) => "wrong length for the tag",
            Refusal::EndByte(_) => "wrong end byte",
            Refusal::Trailing(_) => "bytes after the end",
        }
    }
}

impl Layer {
    pub fn name(self) -> &'static str
        ensures { result.now ≡ name_of self }
    {
        match self {
            Layer::Sequence => "sequence",
            Layer::Plan => "plan",
            Layer::Survey => "survey",
            Layer::Job => "job",
        }
    }
}

impl fmt::Display for Layer {
    ghost output = { λ layer. Some (name_of layer) };

    fn fmt<W: fmt::Write>(&self, f: &mut fmt::Formatter<W>) -> fmt::Result {
        f.write_str(self.name())
    }
}

// The number, the layer, the reason in words and what else the case names.
impl fmt::Display for Refusal {
    ghost output = { λ refusal. Some (words_of refusal) };

    fn fmt<W: fmt::Write>(&self, f: &mut fmt::Formatter<W>) -> fmt::Result {
        let number = self.number();
        let layer = self.layer();
        let reason = self.reason();
        write!(f, "{number} {layer}: {reason}")?;
        match self.named() {
            None => Ok(()),
            Some(Named::Junction(junction)) => write!(f, ", junction {junction}"),
            Some(Named::Offset(offset)) => write!(f, ", offset {offset}"),
        }
    }
}
