// A pile that is written out, in memory.
ghost use Rattle.slotplan.specs.Writing.{IsWrittenOut, StatesChecked};
ghost use Rattle.std.specs.Prelude.{IfOk, OnErr};
ghost use Rattle.writeout.specs.Tables.{Writable};

use pile::Pile;
use promise::write_pile;
use reach::search;
use refusal::Refusal;
use register::Register;
use std::alloc::{AllocError, Global};

/// How many states a book holds at most.
pub const STATES: usize = 4096;

/// How many words it then has at most: the head, two for each state, nine for each action in a state, and the end.
pub const WORDS: usize = 1 + 2 * STATES + 8 * 9 * STATES + 1;

/// The codes of the reachable states, and the bytes of their site book.
#[derive(Drop)]
pub struct Book {
    pub codes: Vec<u64>,
    pub bytes: Vec<u8>,
}

// Whether the pile can be written out, before anything is allocated. The states are listed in a table on the stack.
pub(crate) fn check_states<P: Pile>(pile: &P) -> Result<(), Refusal>
    ensures { StatesChecked (P.SiteModel.meaning pile.now) result }
{
    let mut codes = [0u64; STATES];
    let mut found = Register::new(&mut codes);
    search(pile, &mut found)?;
    Ok(())
}

/// Writes the pile out into tables that hold the largest book. Memory may run out only where the pile can be written out.
pub fn written_out<P: Pile>(heap: Global, pile: &P) -> Result<Result<Book, Refusal>, AllocError>
    ensures holds { IfOk result (IsWrittenOut (P.SiteModel.meaning pile.now)) }
    ensures memory { OnErr result (Writable (P.SiteModel.meaning pile.now)) }
{
    if let Err(refusal) = check_states(pile) {
        return Ok(Err(refusal));
    }
    let mut codes = vec![in heap; 0u64; STATES]?;
    let mut bytes = vec![in heap; 0u8; 4 * WORDS]?;
    match write_pile(pile, codes.as_mut_slice(), bytes.as_mut_slice()) {
        Ok(written) => {
            codes.truncate(written.states);
            bytes.truncate(4 * written.words);
            Ok(Ok(Book { codes, bytes }))
        }
        Err(refusal) => Ok(Err(refusal)),
    }
}
