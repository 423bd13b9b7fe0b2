// The book that is measured: as many states, actions and outcomes as a site book can have.
ghost use Rattle.std.specs.Prelude.{◌<◌};

use sitelayout::{Entry, Head, Move, Worth, end_word, mask_word};
use std::alloc::{AllocError, Global};
use words::bytes_of;

pub const STATES: u32 = 4096;

const ACTIONS: u32 = 8;

const OUTCOMES: u32 = 8;

const LABELS: u32 = 24;

// How many words come before the end word: the head, two for each state, and an entry with its outcomes for each action.
const WORDS: u32 = 1 + 2 * STATES + STATES * ACTIONS * (1 + OUTCOMES);

// Its file.
pub fn full_size(heap: Global) -> Result<Vec<u8>, AllocError> {
    let mut words = Vec::new(heap);
    let head = Head {
        states: STATES,
        labels: LABELS,
        actions: ACTIONS,
    };
    words.push(head.word())?;
    for state in 0..STATES {
        put_mark(&mut words, state)?;
    }
    put_cells(&mut words)?;
    words.push(end_word(WORDS))?;
    bytes_of(heap, words.as_slice())
}

// Masks and rewards of all sizes.
fn put_mark(words: &mut Vec<u32>, state: u32) -> Result<(), AllocError> {
    let worth = Worth {
        raised: (state % 4001) as u16,
        origin: (state % STATES) as u16,
    };
    words.push(mask_word(scattered(state, 1 << LABELS)))?;
    words.push(worth.word())?;
    Ok(())
}

fn put_cells(words: &mut Vec<u32>) -> Result<(), AllocError> {
    for cell in 0..STATES * ACTIONS {
        put_cell(words, cell)?;
    }
    Ok(())
}

// The targets of a state are 64 numbers in a row, scattered: two steps lead from any state to every other.
fn put_cell(words: &mut Vec<u32>, cell: u32) -> Result<(), AllocError> {
    let entry = Entry {
        state: cell / ACTIONS,
        action: cell % ACTIONS,
        outcomes: OUTCOMES,
    };
    words.push(entry.word())?;
    for outcome in 0..OUTCOMES {
        let number = cell.wrapping_mul(OUTCOMES).wrapping_add(outcome);
        let step = Move {
            target: scattered(number, STATES) as u16,
            weight: 1,
        };
        words.push(step.word())?;
    }
    Ok(())
}

// Numbers in a row, far from one another: below a power of two they differ, since the factor is odd.
fn scattered(number: u32, end: u32) -> u32
    requires { 0 < end }
    ensures { result < end }
{
    number.wrapping_mul(2731) % end
}
