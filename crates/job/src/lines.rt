// The lines that a step answers, written into the front of a buffer of 64 bytes or more.
ghost use Rattle.std.specs.Prelude.{◌≡◌, ◌+◌, ◌≤◌, length, decimal};
ghost use Rattle.job.specs.Lines.{Grown, over, speed_line, refused_line, named_part, place_named, answer_line};
ghost use Rattle.refusals.specs.Table.{name_of};

use plan::calls::Answer;
use refusals::{Layer, Named, Refusal};

// The least buffer, which every line fits into.
pub(crate) const LINE_ROOM: usize = 64;

// A line that is being written into the front of the caller's buffer. No type holds the room that is left, since each part needs
// another, nor that the buffer is the same one: the language wants that clause of what takes a struct with a lent slice.
#[derive(Drop)]
struct Line<'a> {
    bytes: &'a mut [u8],
    end: usize,
}

impl Line<'_> {
    fn put(&mut self, text: &[u8])
        requires { self.old.end + length text.now ≤ length self.old.bytes.now }
        ensures same_reference { self.new.bytes.ghost_name ≡ self.old.bytes.ghost_name }
        ensures grown { Grown text.now self.old self.new }
    {
        let end = self.end + text.len();
        self.bytes[self.end..end].copy_from_slice(text);
        self.end = end;
    }

    // Writes `n` in decimal, a digit at a time: a copy whose length is not known beforehand would have the static library want
    // `memcpy` from outside.
    fn put_number(&mut self, n: u32)
        requires { self.old.end + 10 ≤ length self.old.bytes.now }
        ensures same_reference { self.new.bytes.ghost_name ≡ self.old.bytes.ghost_name }
        ensures bound { self.new.end ≤ self.old.end + 10 }
        ensures grown { Grown (decimal n) self.old self.new }
    {
        if n < 10 {
            self.put(&[b'0' + n as u8]);
        } else {
            self.put_number(n / 10);
            self.put(&[b'0' + (n % 10) as u8]);
        }
    }

    // Writes the name of a layer, each at its own length for the same reason.
    fn put_layer(&mut self, layer: Layer)
        requires { self.old.end + 8 ≤ length self.old.bytes.now }
        ensures same_reference { self.new.bytes.ghost_name ≡ self.old.bytes.ghost_name }
        ensures bound { self.new.end ≤ self.old.end + 8 }
        ensures grown { Grown (name_of layer) self.old self.new }
    {
        match layer {
            Layer::Sequence => self.put(b"sequence"),
            Layer::Plan => self.put(b"plan"),
            Layer::Survey => self.put(b"survey"),
            Layer::Job => self.put(b"job"),
        }
    }

    fn put_speed(&mut self, speed: u32)
        requires { self.old.end + 64 ≤ length self.old.bytes.now }
        ensures same_reference { self.new.bytes.ghost_name ≡ self.old.bytes.ghost_name }
        ensures bound { self.new.end ≤ self.old.end + 64 }
        ensures grown { Grown (speed_line speed) self.old self.new }
    {
        self.put(b"v ");
        self.put_number(speed);
        self.put(b"\n");
    }

    // Writes what a refusal names besides a place.
    fn put_named(&mut self, named: Option<Named>)
        requires { self.old.end + 20 ≤ length self.old.bytes.now }
        ensures same_reference { self.new.bytes.ghost_name ≡ self.old.bytes.ghost_name }
        ensures bound { self.new.end ≤ self.old.end + 20 }
        ensures grown { Grown (named_part named) self.old self.new }
    {
        if let Some(Named::Junction(junction)) = named {
            self.put(b" junction ");
            self.put_number(u32::from(junction));
        }
    }

    // Writes a refusal of the field at `at`, unless it names another place.
    fn put_refused(&mut self, why: Refusal, at: u32)
        requires { self.old.end + 64 ≤ length self.old.bytes.now }
        ensures same_reference { self.new.bytes.ghost_name ≡ self.old.bytes.ghost_name }
        ensures bound { self.new.end ≤ self.old.end + 64 }
        ensures grown { Grown (refused_line why at) self.old self.new }
    {
        self.put(b"refused ");
        self.put_number(u32::from(why.number()));
        self.put(b" ");
        self.put_layer(why.layer());
        self.put(b" ");
        self.put_number(place_named(why.named(), at));
        self.put_named(why.named());
        self.put(b"\n");
    }

    // Writes what the field at `at` was answered; no field of a job asks for an extent or a length.
    fn put_answer(&mut self, answer: Answer, at: u32)
        requires { self.old.end + 64 ≤ length self.old.bytes.now }
        ensures same_reference { self.new.bytes.ghost_name ≡ self.old.bytes.ghost_name }
        ensures bound { self.new.end ≤ self.old.end + 64 }
        ensures grown { Grown (answer_line at answer) self.old self.new }
    {
        match answer {
            Answer::Edit(Ok(())) => self.put(b"ok\n"),
            Answer::Speed(Ok(speed)) => self.put_speed(speed),
            Answer::Edit(Err(why)) | Answer::Speed(Err(why)) => self.put_refused(why, at),
            Answer::Extent(_) | Answer::Length(_) => {}
        }
    }
}

// The place that a refusal of the field at `at` tells.
fn place_named(named: Option<Named>, at: u32) -> u32
    ensures { result ≡ place_named named at }
{
    match named {
        Some(Named::Offset(offset)) => offset,
        Some(Named::Junction(_)) | None => at,
    }
}

// Writes the line of what the field at `at` was answered, and answers its length.
pub(crate) fn put_answer(bytes: &mut [u8], answer: Answer, at: u32) -> usize
    requires { 64 ≤ length bytes.old }
    ensures bound { result ≤ 64 }
    ensures value { result ≡ length (answer_line at answer) }
    ensures after { bytes.new ≡ over (answer_line at answer) bytes.old }
{
    let mut line = Line { bytes, end: 0 };
    line.put_answer(answer, at);
    line.end
}
