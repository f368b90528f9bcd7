// Jobs: rows of tagged fields, each a call of a plan. A job is judged as a whole, and then run field by field.
#![tactic(auto)]

pub mod fields;
mod lines;
mod numbers;
pub mod reading;
pub mod running;
pub mod whole;

pub use self::reading::Reader;
