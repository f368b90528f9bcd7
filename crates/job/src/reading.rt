// A place in a job.
ghost use Rattle.std.specs.Prelude.{◌≤◌, length};

pub mod steps;

// The bytes stay with the caller, by a rule of the project, and the reader has its place in them; every field is a part of them.
#[derive(Drop)]
pub struct Reader<'a> {
    job: &'a [u8],
    place: usize,
    ghost within: { place ≤ length job.now },
}
