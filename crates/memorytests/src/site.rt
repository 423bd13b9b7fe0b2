// The file of the built-in site, in an array, so that the tests have no memory of their own to run out of; and the pile of the crossing.
use crossing::{site_words, wish_words};
use pen::Pen;
use pile::{Floor, Three, Tower};
use refusal::Unread;
use sitebook::{SiteBook, read_site};
use std::alloc::Global;
use wishbook::read_wish;

pub const BYTES: usize = 72;

pub fn site_file() -> [u8; BYTES] {
    let mut bytes = [0; BYTES];
    let mut pen = Pen::new(&mut bytes);
    for word in site_words() {
        pen.put(word);
    }
    bytes
}

fn wish_file() -> [u8; 24] {
    let mut bytes = [0; 24];
    let mut pen = Pen::new(&mut bytes);
    for word in wish_words() {
        pen.put(word);
    }
    bytes
}

// The wish laid on the site.
pub fn crossing(heap: Global) -> Result<Three<SiteBook>, Unread> {
    let site = read_site(heap, &site_file())?;
    let wish = read_wish(&wish_file())?;
    let (pile, _) = Three::stack(site, &[Floor::Wishes(wish)]);
    Ok(pile)
}
