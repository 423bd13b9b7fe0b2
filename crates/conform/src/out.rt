// Writing a pile out into two tables.
use crate::built::build;
use crate::failure::Failure;
use crate::lists::{Hex, Numbers};
use crate::numbers::places;
use crate::words_of;
use promise::write_pile;
use std::alloc::Global;

// What both tables hold before, so that a place that is not cleared shows.
pub const BEFORE: u8 = 7;

// `KIND HEX CODES BYTES HEX ..`: a ground model, how long the two tables are, and wish books to be laid on it.
pub fn answer(heap: Global, words: &str) -> Result<String, Failure> {
    let words = words_of(heap, words)?;
    let [kind, hex, codes, bytes, wishes @ ..] = words.as_slice() else {
        return Err(Failure::Unknown);
    };
    let (codes, bytes) = (places(codes)?, places(bytes)?);
    let built = build(heap, kind, hex, wishes)?;
    let mut codes = vec![in heap; BEFORE as u64; codes]?;
    let mut bytes = vec![in heap; BEFORE; bytes]?;
    let written = write_pile(&built.pile, codes.as_mut_slice(), bytes.as_mut_slice())?;
    let codes = Numbers {
        all: codes.as_slice(),
        none: "-",
    };
    let bytes = Hex(bytes.as_slice());
    Ok(format!(in heap; "ok {} {} {codes} {bytes}", written.states, written.words)?)
}
