// One field of a job: a tag byte, a two-byte length and a body.
ghost use Rattle.std.specs.Prelude.{◌≡◌, ◌+◌, ◌<◌, ◌≤◌, length, IfOk};
ghost use Rattle.job.specs.Fields.{offset_of, Tags, length_of, move_at, body_at, field_at};

use crate::numbers::{read_position, read_u16, read_u32};
use motion::Move;
use plan::calls::Call;
use refusals::Refusal;

// What a field says: a call of the plan, or the end of the job with its check byte.
#[derive(Clone, Copy)]
pub enum Field {
    Call(Call),
    End(u8),
}

// A field, and the place after it.
#[derive(Clone, Copy)]
pub struct Found {
    pub field: Field,
    pub next: usize,
}

#[derive(Clone, Copy)]
enum Tag {
    Insert,
    Delete,
    Override,
    Junction,
    Replace,
    Start,
    End,
}

// A byte that is no field's tag.
#[derive(Clone, Copy)]
struct UnknownTag;

// The tag byte and the length before a body.
const HEAD: usize = 3;

// A place as refusals name it; no panel has a job that 32 bits cannot count.
pub(crate) fn offset(at: usize) -> u32
    ensures { result ≡ offset_of at }
{
    u32::try_from(at).unwrap_or(u32::MAX)
}

impl TryFrom<u8> for Tag {
    type Error = UnknownTag;

    ghost try_from_gives = { Tags };

    fn try_from(byte: u8) -> Result<Self, UnknownTag> {
        match byte {
            0x01 => Ok(Tag::Insert),
            0x02 => Ok(Tag::Delete),
            0x03 => Ok(Tag::Override),
            0x04 => Ok(Tag::Junction),
            0x07 => Ok(Tag::Replace),
            0x08 => Ok(Tag::Start),
            0x7f => Ok(Tag::End),
            _ => Err(UnknownTag),
        }
    }
}

impl Tag {
    fn body_length(self) -> u16
        ensures { result ≡ length_of self }
    {
        match self {
            Tag::Insert | Tag::Replace => 20,
            Tag::Delete => 2,
            Tag::Override => 5,
            Tag::Junction => 6,
            Tag::Start => 12,
            Tag::End => 1,
        }
    }
}

// A field's body by its tag.
fn body_of(tag: Tag, body: &[u8]) -> Field
    requires { length_of tag ≤ length body.now }
    ensures { result ≡ body_at tag body.now 0 }
{
    match tag {
        Tag::Insert => Field::Call(Call::Insert(read_u16(body, 0), move_at(body, 2))),
        Tag::Delete => Field::Call(Call::Delete(read_u16(body, 0))),
        Tag::Override => Field::Call(Call::Override(read_u16(body, 0), read_u16(body, 2), body[4])),
        Tag::Junction => Field::Call(Call::Junction(read_u16(body, 0), read_u32(body, 2))),
        Tag::Replace => Field::Call(Call::Replace(read_u16(body, 0), move_at(body, 2))),
        Tag::Start => Field::Call(Call::Start(read_position(body, 0))),
        Tag::End => Field::End(body[0]),
    }
}

fn move_at(body: &[u8], at: usize) -> Move
    requires { at + 18 ≤ length body.now }
    ensures { result ≡ move_at body.now at }
{
    Move {
        target: read_position(body, at),
        acceleration: read_u16(body, at + 12),
        feed: read_u16(body, at + 14),
        corner: read_u16(body, at + 16),
    }
}

// The field that starts at `at`. It takes the job with a place, as a refusal names its place from the job's first byte.
pub(crate) fn field_at(job: &[u8], at: usize) -> Result<Found, Refusal>
    requires { at ≤ length job.now }
    ensures value { result ≡ field_at job.now at }
    ensures bound { IfOk result (λ found. (at + 4 ≤ found.next) × (found.next ≤ length job.now)) }
{
    let Some((head, rest)) = job[at..].split_first_chunk::<HEAD>() else {
        return Err(Refusal::Cut(offset(at)));
    };
    let Ok(tag) = Tag::try_from(head[0]) else {
        return Err(Refusal::Tag(offset(at)));
    };
    let length = tag.body_length();
    if read_u16(head, 1) != length {
        return Err(Refusal::FieldLength(offset(at)));
    }
    let Some(body) = rest.get(..usize::from(length)) else {
        return Err(Refusal::Cut(offset(at)));
    };
    Ok(Found {
        field: body_of(tag, body),
        next: at + HEAD + body.len(),
    })
}
