// The refusals: each has a number and a sentence for people. Want of memory is none of them, and has a case of its own beside them.

#![tactic(auto)]

ghost use Rattle.std.specs.Prelude.{◌≡◌, Some};
ghost use Rattle.refusal.specs.declared.Unread.TheVariants as unread;
ghost use Rattle.refusal.specs.Numbers.{number as number_of, Apart, sentence as sentence_of, why_unread};
ghost use Rattle.refusal.specs.Texts.{fault_text, refused_text, unread_text};

use std::alloc::AllocError;
use std::error::Error;
use std::fmt;

#[derive(Clone, Copy, Debug, PartialEq, Eq)]
pub enum Refusal {
    CutOff = 1,
    WrongKind = 2,
    UnusedBit = 3,
    OutOfRange = 4,
    WrongEnd = 5,
    WrongTotal = 6,
    NotRising = 7,
    NoWait = 8,
    SwitchTwice = 9,
    TooManyItems = 10,
    NoSuchLabel = 11,
    BoundPassed = 12,
    SpanPassed = 13,
    TooManyStates = 14,
    BookTableShort = 15,
    HorizonTooLong = 16,
    PlanTableShort = 17,
    NotOffered = 18,
    NoSuchOutcome = 19,
    LastSlot = 20,
}

/// A refusal and the place of the word that it is about, counted from 0.
#[derive(Clone, Copy, Debug, PartialEq, Eq)]
pub struct Fault {
    pub refusal: Refusal,
    pub place: usize,
}

/// A refusal that is about no word.
#[derive(Clone, Copy, Debug, PartialEq, Eq)]
pub struct Refused {
    pub refusal: Refusal,
}

/// Why a book is not read: its file is refused, or there is not enough memory for it.
#[derive(Clone, Copy, Debug, PartialEq, Eq)]
pub enum Unread {
    Refused(Fault),
    Memory(AllocError),
}

impl Refusal {
    /// The number that people know the refusal by.
    pub fn number(&self) -> u8
        ensures number { result ≡ number_of self.now }
        ensures apart { Apart }
    {
        *self as u8
    }

    /// The refusal of the word at a place.
    pub fn at(self, place: usize) -> Fault
        ensures { result ≡ record { refusal = self; place = place } }
    {
        Fault {
            refusal: self,
            place,
        }
    }

    /// What to tell a person.
    pub fn sentence(&self) -> &'static str
        ensures { result.now ≡ sentence_of self.now }
    {
        match self {
            Refusal::CutOff => "the bytes end before the end word",
            Refusal::WrongKind => "a word of this kind may not come here",
            Refusal::UnusedBit => "an unused bit is set",
            Refusal::OutOfRange => "a field, a count, a state number or a mask bit is out of range",
            Refusal::WrongEnd => "the end word's number is wrong, or bytes follow it",
            Refusal::WrongTotal => "the weights of an entry do not total 8",
            Refusal::NotRising => "a target comes twice in an entry, or the entries do not rise",
            Refusal::NoWait => "action 0 is missing in a state, or has needs",
            Refusal::SwitchTwice => "a switch stands in both masks",
            Refusal::TooManyItems => "the wishes need more than 16 memory items",
            Refusal::NoSuchLabel => "the model lacks a label, or has more than 24 with the wishes",
            Refusal::BoundPassed => "the reward bound would pass 2000",
            Refusal::SpanPassed => "the model below is too large for another layer",
            Refusal::TooManyStates => "more states are reachable than the code table or 4096 holds",
            Refusal::BookTableShort => "the book table is too short",
            Refusal::HorizonTooLong => "the horizon is above 12",
            Refusal::PlanTableShort => "a plan table is too short",
            Refusal::NotOffered => "the action is not offered here",
            Refusal::NoSuchOutcome => "the open choice has no outcome of this number",
            Refusal::LastSlot => "slot 12 is the last, and nothing can be chosen in it",
        }
    }
}

impl Unread {
    /// What to tell a person.
    pub fn sentence(&self) -> &'static str
        ensures { result.now ≡ why_unread self.now }
    {
        match self {
            Unread::Refused(fault) => fault.refusal.sentence(),
            Unread::Memory(_) => "there is not enough memory",
        }
    }
}

impl fmt::Display for Refusal {
    ghost output = { λ r. Some (sentence_of r) };

    fn fmt<W: fmt::Write>(&self, f: &mut fmt::Formatter<W>) -> fmt::Result {
        f.write_str(self.sentence())
    }
}

impl fmt::Display for Refused {
    ghost output = { λ r. Some (refused_text r) };

    fn fmt<W: fmt::Write>(&self, f: &mut fmt::Formatter<W>) -> fmt::Result {
        let refusal = self.refusal;
        let number = refusal.number();
        write!(f, "refused: {number}: {refusal}")
    }
}

impl fmt::Display for Fault {
    ghost output = { λ f. Some (fault_text f) };

    fn fmt<W: fmt::Write>(&self, f: &mut fmt::Formatter<W>) -> fmt::Result {
        let Fault { refusal, place } = self;
        let number = refusal.number();
        write!(f, "refused: {number} at word {place}: {refusal}")
    }
}

impl fmt::Display for Unread {
    ghost output = { λ u. Some (unread_text u) };

    fn fmt<W: fmt::Write>(&self, f: &mut fmt::Formatter<W>) -> fmt::Result {
        match self {
            Unread::Refused(fault) => write!(f, "{fault}"),
            Unread::Memory(_) => write!(f, "not read: {}", self.sentence()),
        }
    }
}

impl Error for Refusal {}

impl Error for Refused {}

impl Error for Fault {}

impl Error for Unread {}

impl From<Fault> for Unread {
    ghost from_gives = { λ fault why. why ≡ unread.Refused fault };

    fn from(fault: Fault) -> Unread {
        Unread::Refused(fault)
    }
}

// Want of memory is a matter of no word.
impl From<AllocError> for Unread {
    ghost from_gives = { λ error why. why ≡ unread.Memory error };

    fn from(error: AllocError) -> Unread {
        Unread::Memory(error)
    }
}
