// Numbers that commands name.
use crate::failure::Failure;
use std::num::{IntErrorKind, ParseIntError};
use std::str::FromStr;

// How many places a table has.
pub fn places(word: &str) -> Result<usize, Failure> {
    usize::from_str(word).map_err(|_| Failure::Unknown)
}

// What is asked of a model: a number that is too high is the highest one, since both are out of range in every model.
pub fn number(word: &str) -> Result<u32, Failure> {
    u32::from_str(word).or_else(highest)
}

fn highest(error: ParseIntError) -> Result<u32, Failure> {
    match error.kind() {
        IntErrorKind::PosOverflow => Ok(u32::MAX),
        _ => Err(Failure::Unknown),
    }
}
