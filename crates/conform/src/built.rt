// A ground model with wish books laid on it, one after another: what every command but the first three begins with.
use crate::failure::Failure;
use crate::kind::Kind;
use crate::unhex;
use ground::GroundBook;
use pile::{Built, lay_each};
use rulebook::read_rule;
use sitebook::read_site;
use std::alloc::Global;
use wishbook::{WishBook, read_wish};

fn ground_of(heap: Global, kind: Kind, bytes: &[u8]) -> Result<GroundBook, Failure> {
    match kind {
        Kind::Site => Ok(GroundBook::Site(read_site(heap, bytes)?)),
        Kind::Rule => Ok(GroundBook::Rule(read_rule(bytes)?)),
        Kind::Wish => Err(Failure::Unreadable),
    }
}

// A book that is to be laid, or to be laid on, has to be one; why it is none is not told.
fn unreadable(failure: Failure) -> Failure {
    match failure {
        Failure::Memory | Failure::NoRoom(_) => failure,
        _ => Failure::Unreadable,
    }
}

fn wish_of(heap: Global, hex: &str) -> Result<WishBook, Failure> {
    let bytes = unhex(heap, hex)?;
    Ok(read_wish(bytes.as_slice())?)
}

// The pile of a ground model, `KIND HEX`, and of those wish books, `HEX HEX ..`, that can be laid; and for each book why it is not.
pub fn build(
    heap: Global,
    kind: &str,
    hex: &str,
    wishes: &[&str],
) -> Result<Built<GroundBook>, Failure> {
    let bytes = unhex(heap, hex)?;
    let kind = kind.parse().map_err(unreadable)?;
    let ground = ground_of(heap, kind, bytes.as_slice()).map_err(unreadable)?;
    let mut books = Vec::new(heap);
    for hex in wishes {
        books.push(wish_of(heap, hex).map_err(unreadable)?)?;
    }
    Ok(lay_each(heap, ground, books.as_slice())?)
}
