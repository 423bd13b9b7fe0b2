// Files made from rows of tables, and what the readers answer to them.
ghost use Rattle.std.specs.Prelude.{◌≡◌, ◌≢◌, OnOk, OnErr};

use refusal::{Fault, Unread};
use rulebook::read_rule;
use sitebook::read_site;
use std::alloc::{AllocError, Global};
use std::fmt::Display;
use std::test::Fail;
use wishbook::read_wish;
use words::bytes_of;

// A reader of books: why it refuses a file, if it does.
pub trait Reader: Drop {
    fn refusal_of(&self, file: &[u8]) -> Result<Option<Fault>, AllocError>;
}

#[derive(Clone, Copy)]
pub struct Site(pub Global);

#[derive(Clone, Copy)]
pub struct Rule;

#[derive(Clone, Copy)]
pub struct Wish;

impl Reader for Site {
    fn refusal_of(&self, file: &[u8]) -> Result<Option<Fault>, AllocError> {
        match read_site(self.0, file) {
            Ok(_) => Ok(None),
            Err(Unread::Refused(fault)) => Ok(Some(fault)),
            Err(Unread::Memory(error)) => Err(error),
        }
    }
}

impl Reader for Rule {
    fn refusal_of(&self, file: &[u8]) -> Result<Option<Fault>, AllocError> {
        Ok(read_rule(file).err())
    }
}

impl Reader for Wish {
    fn refusal_of(&self, file: &[u8]) -> Result<Option<Fault>, AllocError> {
        Ok(read_wish(file).err())
    }
}

// The number and the place of a refusal, or 0 and 0 where the book is accepted: rows name refusals as people do.
pub type Answer = (u8, usize);

pub fn answer_to<R: Reader>(reader: &R, file: &[u8]) -> Result<Answer, AllocError> {
    let refusal = reader.refusal_of(file)?;
    Ok(refusal.map_or((0, 0), |fault| (fault.refusal.number(), fault.place)))
}

// A name; a place in a base book, how many words are taken out there and what is put in; the answer.
// The right end word is written after it.
pub type Edit = (&'static str, (usize, usize, &'static [u32]), Answer);

// A name; how many words of a base book are kept, what follows them, and how many bytes 255 then; the answer.
pub type Ending = (&'static str, (usize, &'static [u32], usize), Answer);

// Rows of edits, each in one line: place, words taken out, words put in; number and place of the answer; name.
macro_rules! edits {
    ($($at:literal $out:tt [$($word:literal)*] $number:literal $place:literal $name:literal)*) => {
        &[$(($name, ($at, $out, &[$($word),*]), ($number, $place))),*]
    };
}

pub(crate) use edits;

// Rows of endings, each in one line: words kept, words that follow, bytes 255; number and place of the answer; name.
macro_rules! endings {
    ($($keep:literal [$($word:literal)*] $tail:literal $number:literal $place:literal $name:literal)*) => {
        &[$(($name, ($keep, &[$($word),*], $tail), ($number, $place))),*]
    };
}

pub(crate) use endings;

// How many words are taken out where all that follow are.
pub const ALL: usize = usize::MAX;

// A place in a base book, the lowest bit that no field of the word there has (28 where there is none), and the kinds that may come there.
pub type Word = (usize, u32, &'static [u32]);

// Where eight outcomes stand: the place of the first, its word at weight 0, what each next one adds, and the weight's lowest bit.
#[derive(Clone, Copy)]
pub struct Eight {
    pub at: usize,
    pub first: u32,
    pub step: u32,
    pub low: u32,
}

// The weights of eight outcomes, and the number of the refusal, which is about the last of them; 0 where there is none.
static WEIGHTS: [([u32; 8], u8); 11] = [
    ([1, 1, 1, 1, 1, 1, 1, 1], 0),
    ([1, 1, 1, 1, 1, 1, 1, 2], 6),
    ([2, 1, 1, 1, 1, 1, 1, 1], 6),
    ([8, 1, 1, 1, 1, 1, 1, 1], 6),
    ([1, 1, 1, 1, 1, 1, 1, 8], 6),
    ([3, 3, 3, 3, 3, 3, 3, 3], 6),
    ([5, 5, 5, 5, 5, 5, 5, 5], 6),
    ([7, 7, 7, 7, 7, 7, 7, 7], 6),
    ([8, 8, 8, 8, 8, 8, 8, 8], 6),
    ([8, 8, 8, 8, 8, 8, 8, 9], 4),
    ([1, 1, 1, 1, 1, 1, 1, 0], 4),
];

// The answer is the one expected, or the test fails and says where.
pub fn same<D: Display + Drop>(got: Answer, expected: Answer, place: D) -> Result<(), Fail>
    ensures passes { OnOk result (got ≡ expected) }
    ensures fails { OnErr result (got ≢ expected) }
{
    if got == expected {
        Ok(())
    } else {
        Err(Fail::new(format_args!("{place}: {got:?} and not {expected:?}")))
    }
}

// Writes the right end word.
pub fn close(words: &mut Vec<u32>) -> Result<(), AllocError> {
    let count = u32::try_from(words.len()).unwrap_or(0);
    words.push(0xF0000000 | count)?;
    Ok(())
}

// A reader, and a base book whose words the rows of a table change.
#[derive(Drop)]
pub struct Bench<R> {
    heap: Global,
    reader: R,
    base: Vec<u32>,
}

impl<R: Reader> Bench<R> {
    // The base book is given in parts.
    pub fn new(heap: Global, reader: R, parts: &[&[u32]]) -> Result<Bench<R>, AllocError> {
        let mut base = Vec::new(heap);
        for part in parts {
            base.extend_from_slice(part)?;
        }
        Ok(Bench { heap, reader, base })
    }

    // The base with `out` words at `at` exchanged for those of `put`.
    fn spliced(&self, at: usize, out: usize, put: &[u32]) -> Result<Vec<u32>, AllocError> {
        let base = self.base.as_slice();
        let kept = base.len().min(at);
        let rest = base.len().min(at.saturating_add(out));
        let mut words = Vec::new(self.heap);
        words.extend_from_slice(&base[..kept])?;
        words.extend_from_slice(put)?;
        words.extend_from_slice(&base[rest..])?;
        Ok(words)
    }

    // A file of whole words is answered as expected.
    pub fn words<D: Display + Drop>(
        &self,
        words: &[u32],
        expected: Answer,
        place: D,
    ) -> Result<(), Fail> {
        let file = bytes_of(self.heap, words)?;
        same(answer_to(&self.reader, file.as_slice())?, expected, place)
    }

    pub fn edits(&self, rows: &[Edit]) -> Result<(), Fail> {
        for (name, (at, out, put), expected) in rows {
            let mut words = self.spliced(*at, *out, put)?;
            close(&mut words)?;
            self.words(words.as_slice(), *expected, name)?;
        }
        Ok(())
    }

    pub fn endings(&self, rows: &[Ending]) -> Result<(), Fail> {
        for (name, (keep, put, tail), expected) in rows {
            let words = self.spliced(*keep, ALL, put)?;
            let mut file = bytes_of(self.heap, words.as_slice())?;
            file.resize(file.len().saturating_add(*tail), 255)?;
            same(answer_to(&self.reader, file.as_slice())?, *expected, name)?;
        }
        Ok(())
    }

    // Eight outcomes of given weights.
    pub fn weighings(&self, eight: Eight) -> Result<(), Fail> {
        let Eight {
            at,
            first,
            step,
            low,
        } = eight;
        let last = at.saturating_add(7);
        for (weights, number) in &WEIGHTS {
            let mut put = Vec::new(self.heap);
            let mut word = first;
            for weight in weights {
                put.push(word | weight.rotate_left(low))?;
                word = word.wrapping_add(step);
            }
            let mut words = self.spliced(at, 8, put.as_slice())?;
            close(&mut words)?;
            self.words(
                words.as_slice(),
                if *number == 0 {
                    (0, 0)
                } else {
                    (*number, last)
                },
                format_args!("weights {weights:?}"),
            )?;
        }
        Ok(())
    }

    // The word at a place is refused with 3 for each unused bit alone, and with 2 for each kind that may not come.
    pub fn bits_and_kinds(&self, rows: &[Word]) -> Result<(), Fail> {
        for (at, low, kinds) in rows {
            let at = *at;
            let word = self.base.get(at).copied().unwrap_or(0);
            for bit in *low..28 {
                let words = self.spliced(at, 1, &[word | 1u32.rotate_left(bit)])?;
                self.words(
                    words.as_slice(),
                    (3, at),
                    format_args!("word {at} with bit {bit}"),
                )?;
            }
            for kind in (0..16u32).filter(|kind| !kinds.contains(kind)) {
                let words = self.spliced(at, 1, &[word & 0x0FFFFFFF | kind.rotate_left(28)])?;
                self.words(
                    words.as_slice(),
                    (2, at),
                    format_args!("word {at} of kind {kind}"),
                )?;
            }
        }
        Ok(())
    }

    // The base is accepted whole, and cut off after each of its bytes it is refused at the number of whole words. The lengths are
    // counted, since they are what is tried.
    pub fn cuts(&self) -> Result<(), Fail> {
        let mut words = self.spliced(0, 0, &[])?;
        close(&mut words)?;
        let file = bytes_of(self.heap, words.as_slice())?;
        let bytes = file.as_slice();
        same(answer_to(&self.reader, bytes)?, (0, 0), "whole")?;
        for kept in 0..bytes.len() {
            same(
                answer_to(&self.reader, &bytes[..kept])?,
                (1, kept / 4),
                format_args!("{kept} bytes"),
            )?;
        }
        Ok(())
    }
}
