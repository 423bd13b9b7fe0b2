// What a book is written from, and its words, one part after another.
ghost use Rattle.std.specs.Prelude.{◌≡◌, ◌<◌, ◌≤◌, [], ◌∷◌, length, map, nat_eq, OnSome, pos, ◌+ℤ◌, unsigned_abs};
ghost use Rattle.bounded.specs.Listed.{listed};
ghost use Rattle.pen.specs.Bytes.{zero_padded};
ghost use Rattle.pen.specs.Pens.{Adds};
ghost use Rattle.register.specs.Keys.{place_of};
ghost use Rattle.register.specs.Register.{keys_of};
ghost use Rattle.sitelayout.specs.Layout.{mark_words, move_words, site_words};
ghost use Rattle.sitelayout.specs.OneWord.{word_of_reward};
ghost use Rattle.words.specs.Format.{file};
ghost use Rattle.writeout.specs.Book.{action_words, book_of, head_words, mark_of, move_to, state_words, table_words};
ghost use Rattle.writeout.specs.Tables.{words_in};

use model::{Outcomes, SiteModel};
use pen::Pen;
use register::Register;
use sitelayout::{Entry, Head, Move, Worth, end_word, mask_word};

// A model, and the codes of its listed states.
#[derive(Drop)]
pub(crate) struct Listing<'a, 'b, M> {
    pub(crate) model: &'a M,
    pub(crate) codes: &'a Register<'b, u64>,
    ghost few: { length (keys_of codes.now) ≤ 4096 },
}

impl<M: SiteModel> Listing<'_, '_, M> {
    // The book of the listed states, with its end word. The number of its words, unless they are too
    // many for the table.
    pub(crate) fn write_book(&self, bytes: &mut [u8]) -> Option<usize>
        ensures count { result ≡ words_in (length bytes.old)
            (book_of (M.SiteModel.meaning self.now.model.now) (keys_of self.now.codes.now)) }
        ensures bytes { OnSome result (bytes.new ≡ zero_padded (length bytes.new) (file (site_words
            (book_of (M.SiteModel.meaning self.now.model.now) (keys_of self.now.codes.now))))) }
    {
        let mut pen = Pen::new(bytes);
        self.write_head(&mut pen);
        self.write_marks(&mut pen);
        self.write_cells(&mut pen);
        let before = pen.written()?;
        pen.put(end_word(before as u32));
        pen.written()
    }

    fn write_head(&self, pen: &mut Pen)
        ensures { Adds
            (head_words (M.SiteModel.meaning self.now.model.now) (keys_of self.now.codes.now))
            pen.old pen.new }
    {
        let sizes = self.model.sizes();
        let head = Head {
            states: self.codes.len() as u32,
            labels: sizes.labels,
            actions: sizes.actions,
        };
        pen.put(head.word());
    }

    // What each listed state shows.
    fn write_marks(&self, pen: &mut Pen)
        ensures { Adds (mark_words
            (map (mark_of (M.SiteModel.meaning self.now.model.now)) (keys_of self.now.codes.now)))
            pen.old pen.new }
    {
        for code in self.codes.as_slice() {
            self.write_mark(*code, pen);
        }
    }

    // The mask of a state, then its reward and its ground.
    fn write_mark(&self, code: u64, pen: &mut Pen)
        ensures { Adds (mark_words (mark_of (M.SiteModel.meaning self.now.model.now) code ∷ []))
            pen.old pen.new }
    {
        pen.put(mask_word(self.model.mask(code)));
        pen.put(reward_word(self.model.reward(code), self.model.ground(code)));
    }

    // All actions in all listed states.
    fn write_cells(&self, pen: &mut Pen)
        ensures { Adds
            (table_words (M.SiteModel.meaning self.now.model.now) (keys_of self.now.codes.now))
            pen.old pen.new }
    {
        for (place, code) in self.codes.as_slice().iter().enumerate() {
            self.write_state(place as u16, *code, pen);
        }
    }

    // All actions in the state at a place.
    fn write_state(&self, place: u16, code: u64, pen: &mut Pen)
        ensures { Adds
            (state_words (M.SiteModel.meaning self.now.model.now) (keys_of self.now.codes.now)
            place code)
            pen.old pen.new }
    {
        for action in 0..self.model.actions() {
            self.write_cell(place, code, action, pen);
        }
    }

    // One action in the state at a place; nothing where it is not offered.
    fn write_cell(&self, place: u16, code: u64, action: u32, pen: &mut Pen)
        requires { action < (M.SiteModel.meaning self.now.model.now).actions }
        ensures { Adds
            (action_words (M.SiteModel.meaning self.now.model.now) (keys_of self.now.codes.now)
            place code action)
            pen.old pen.new }
    {
        let outcomes = self.model.outcomes(code, action);
        if !outcomes.is_empty() {
            let entry = Entry {
                state: place as u32,
                action,
                outcomes: outcomes.len() as u32,
            };
            pen.put(entry.word());
            self.write_moves(&outcomes, pen);
        }
    }

    // Each outcome leads to the place of its target.
    fn write_moves(&self, outcomes: &Outcomes, pen: &mut Pen)
        ensures { Adds
            (move_words (map (move_to (keys_of self.now.codes.now)) (listed outcomes.now)))
            pen.old pen.new }
    {
        for way in outcomes.as_slice() {
            let step = Move {
                target: self.place_of(way.target),
                weight: way.weight,
            };
            pen.put(step.word());
        }
    }

    // Where a code stands among the listed ones. One that is not listed has the number after the last,
    // in the definition too: the targets of listed states are listed, so an `Option` would be opened
    // by an arm that never comes.
    fn place_of(&self, code: u64) -> u16
        ensures { result ≡ place_of nat_eq code (keys_of self.now.codes.now) }
    {
        self.codes.place(&code).unwrap_or(self.codes.len()) as u16
    }
}

// A reward is raised by 2,000.
fn reward_word(reward: i32, origin: u64) -> u32
    requires { (unsigned_abs reward ≤ 2000) × (origin < 4096) }
    ensures { result ≡ word_of_reward (unsigned_abs (reward +ℤ pos 2000)) origin }
{
    let worth = Worth {
        raised: (reward + 2000) as u16,
        origin: origin as u16,
    };
    worth.word()
}
