// The words of site books: the states of a bridge with their labels and rewards, and what each action may lead to.

#![tactic(auto)]

ghost use Rattle.std.specs.Prelude.{◌≡◌, ◌%◌, ◌^◌};
ghost use Rattle.sitelayout.specs.OneWord as one_word;
ghost use Rattle.sitelayout.specs.OneWord.{word_of_head, word_of_reward, word_of_entry, word_of_move, head_of, mask_of, reward_of, entry_of, move_of};

use refusal::Refusal;
use words::{field, fits, open};
use written::word;

mod kind;
mod written;

pub use kind::Kind;
pub use written::{end_word, mask_word};

/// How many states, labels and actions a book has: 1 to 4,096, 0 to 24, 1 to 8. The words of a site book are those of docs/FORMATS.md.
#[derive(Clone, Copy, Debug, PartialEq, Eq)]
pub struct Head {
    pub states: u32,
    pub labels: u32,
    pub actions: u32,
}

impl Head {
    /// The word that says it. A number too wide for its bits runs into those above it, and so in what follows.
    pub fn word(&self) -> u32
        ensures { result ≡ word_of_head self.now.states self.now.labels self.now.actions % 2 ^ 32 }
    {
        let sizes = (self.labels << 13).wrapping_add(self.actions << 18);
        word(Kind::Head, self.states.wrapping_add(sizes))
    }
}

/// A state's reward plus 2,000, so 0 to 4,000; and its origin, a number that is not tested: in a book that was written out, the ground state
/// that the state stands over.
#[derive(Clone, Copy, Debug, PartialEq, Eq)]
pub struct Worth {
    pub raised: u16,
    pub origin: u16,
}

impl Worth {
    /// The word that says it.
    pub fn word(&self) -> u32
        ensures { result ≡ word_of_reward self.now.raised self.now.origin }
    {
        word(
            Kind::Reward,
            self.raised as u32 + ((self.origin as u32) << 12),
        )
    }
}

/// What a site book says of one state: the labels that hold, bit p for label p, and its worth.
#[derive(Clone, Copy, Debug, PartialEq, Eq)]
pub struct Mark {
    pub mask: u32,
    pub worth: Worth,
}

/// An entry: `outcomes` words follow, 1 to 8, that say what `action` in `state` may lead to.
#[derive(Clone, Copy, Debug, PartialEq, Eq)]
pub struct Entry {
    pub state: u32,
    pub action: u32,
    pub outcomes: u32,
}

impl Entry {
    /// The word that says it.
    pub fn word(&self) -> u32
        ensures { result ≡ word_of_entry self.now.state self.now.action self.now.outcomes % 2 ^ 32 }
    {
        let offer = (self.action << 12).wrapping_add(self.outcomes << 15);
        word(Kind::Entry, self.state.wrapping_add(offer))
    }
}

/// One outcome of an entry: where it leads, and its weight, a chance in eighths.
#[derive(Clone, Copy, Debug, Default, PartialEq, Eq)]
pub struct Move {
    pub target: u16,
    pub weight: u8,
}

impl Move {
    /// The word that says it.
    pub fn word(&self) -> u32
        ensures { result ≡ word_of_move self.now }
    {
        word(
            Kind::Move,
            self.target as u32 + ((self.weight as u32) << 12),
        )
    }
}

// Functions and no `From`: their names say that nothing is tested.

/// The fields of a head as they stand in the word, untested, and so in what follows.
pub fn head_in(word: u32) -> Head
    ensures { result ≡ one_word.head_in word }
{
    Head {
        states: field(word, 0, 13),
        labels: field(word, 13, 5),
        actions: field(word, 18, 4),
    }
}

/// The labels that a mask word says, untested.
pub fn mask_in(word: u32) -> u32
    ensures { result ≡ one_word.mask_in word }
{
    field(word, 0, 24)
}

/// What a reward word says, untested.
pub fn worth_in(word: u32) -> Worth
    ensures { result ≡ one_word.worth_in word }
{
    Worth {
        raised: field(word, 0, 12) as u16,
        origin: field(word, 12, 12) as u16,
    }
}

/// What an entry word says, untested.
pub fn entry_in(word: u32) -> Entry
    ensures { result ≡ one_word.entry_in word }
{
    Entry {
        state: field(word, 0, 12),
        action: field(word, 12, 3),
        outcomes: field(word, 15, 4),
    }
}

/// What an outcome word says, untested.
pub fn move_in(word: u32) -> Move
    ensures { result ≡ one_word.move_in word }
{
    Move {
        target: field(word, 0, 12) as u16,
        weight: field(word, 12, 4) as u8,
    }
}

/// What a head says, or what is wrong with its word: WrongKind, UnusedBit or OutOfRange, tested in this order, and so in what follows.
/// What each refusal is for is said in docs/REFUSALS.md.
pub fn read_head(word: u32) -> Result<Head, Refusal>
    ensures { result ≡ head_of word }
{
    open(word, Kind::Head as u32, 22)?;
    let head = head_in(word);
    if !(1..=4096).contains(&head.states) || head.labels > 24 || !(1..=8).contains(&head.actions) {
        return Err(Refusal::OutOfRange);
    }
    Ok(head)
}

/// A mask word of a book with so many labels.
pub fn read_mask(word: u32, labels: u32) -> Result<u32, Refusal>
    ensures { result ≡ mask_of labels word }
{
    open(word, Kind::Mask as u32, 24)?;
    let mask = mask_in(word);
    if !fits(mask, labels) {
        return Err(Refusal::OutOfRange);
    }
    Ok(mask)
}

/// A reward word.
pub fn read_reward(word: u32) -> Result<Worth, Refusal>
    ensures { result ≡ reward_of word }
{
    open(word, Kind::Reward as u32, 24)?;
    let worth = worth_in(word);
    if worth.raised > 4000 {
        return Err(Refusal::OutOfRange);
    }
    Ok(worth)
}

/// An entry word of a book with so many states and actions. That it rises is tested elsewhere.
pub fn read_entry(word: u32, states: u32, actions: u32) -> Result<Entry, Refusal>
    ensures { result ≡ entry_of states actions word }
{
    open(word, Kind::Entry as u32, 19)?;
    let entry = entry_in(word);
    if entry.state >= states || entry.action >= actions || !(1..=8).contains(&entry.outcomes) {
        return Err(Refusal::OutOfRange);
    }
    Ok(entry)
}

/// An outcome word of a book with so many states. That its target is a new one is tested elsewhere.
pub fn read_move(word: u32, states: u32) -> Result<Move, Refusal>
    ensures { result ≡ move_of states word }
{
    open(word, Kind::Move as u32, 16)?;
    let way = move_in(word);
    if way.target as u32 >= states || !(1..=8).contains(&way.weight) {
        return Err(Refusal::OutOfRange);
    }
    Ok(way)
}
