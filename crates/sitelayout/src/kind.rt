// The kinds of the words of a site book: the highest four bits of a word.
ghost use Rattle.std.specs.Prelude.{◌≡◌};
ghost use Rattle.sitelayout.specs.Kinds.{kind_of};

use refusal::Refusal;

/// The kind of a word, by its number. An entry has a word, and each of its outcomes one.
#[derive(Clone, Copy, Debug, PartialEq, Eq)]
pub enum Kind {
    Head = 1,
    Mask = 2,
    Reward = 3,
    Entry = 4,
    Move = 5,
    End = 15,
}

// The kind of a word, or WrongKind where its number is that of none.
impl TryFrom<u32> for Kind {
    type Error = Refusal;

    ghost try_from_gives = { λ word result. result ≡ kind_of word };

    fn try_from(word: u32) -> Result<Kind, Refusal> {
        match word >> 28 {
            1 => Ok(Kind::Head),
            2 => Ok(Kind::Mask),
            3 => Ok(Kind::Reward),
            4 => Ok(Kind::Entry),
            5 => Ok(Kind::Move),
            15 => Ok(Kind::End),
            _ => Err(Refusal::WrongKind),
        }
    }
}
