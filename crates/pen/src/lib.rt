//! Writes words, one after another, into a lent table of bytes.

#![tactic(auto)]

ghost use Rattle.std.specs.Prelude.{◌≡◌, ℕ, ◌*◌, ◌≤◌, length, Some};

/// Writes words into a table of bytes, each word's lowest byte first. The words so far stand first in the table, and all after
/// them is 0; or they were too many for it, and nobody counts them.
// The table is lent, and how long it is, is the caller's to say: so the words are counted beside it.
#[derive(Drop)]
pub struct Pen<'a> {
    bytes: &'a mut [u8],
    words: Option<usize>,
    ghost fits: { (n : ℕ) → words ≡ Some n → 4 * n ≤ length bytes.now },
}

impl<'a> Pen<'a> {
    ghost use Rattle.pen.specs.Pens.{HasWritten, Adds, counted};
    ghost use Rattle.std.specs.Prelude.{List, [], ◌∷◌};

    /// A pen at the beginning of the table, which is wiped.
    pub fn new(bytes: &'a mut [u8]) -> Pen<'a>
        ensures empty { HasWritten [] result }
        ensures room { length result.bytes.now ≡ length bytes.old }
        ensures lent { result.bytes.ghost_name ≡ bytes.entry.ghost_name }
    {
        bytes.fill(0);
        Pen {
            bytes,
            words: Some(0),
        }
    }

    /// One word more. Where there is no room for it, nothing more is written, and the words are no longer counted.
    pub fn put(&mut self, word: u32)
        ensures { Adds (word ∷ []) self.old self.new }
    {
        let Some(words) = self.words else {
            return;
        };
        let at = 4 * words;
        if self.bytes.len() - at < 4 {
            self.words = None;
            return;
        }
        self.bytes[at..at + 4].copy_from_slice(&word.to_le_bytes());
        self.words = Some(words + 1);
    }

    /// How many words were written, unless they were too many for the table.
    pub fn written(&self) -> Option<usize>
        ensures { (ws : List ℕ) → HasWritten ws self.now
            → result ≡ counted (length self.now.bytes.now) ws }
    {
        self.words
    }
}
