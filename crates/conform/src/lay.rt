// Laying wish books, one after another, on a ground model.
use crate::built::build;
use crate::failure::Failure;
use crate::words_of;
use model::SiteModel;
use std::alloc::Global;

// Nor is it told that there is no memory to read the ground book.
fn unread(failure: Failure) -> Failure {
    match failure {
        Failure::Memory => Failure::Unreadable,
        _ => failure,
    }
}

// `KIND HEX HEX ..`: a ground model, and wish books to be laid on it.
pub fn answer(heap: Global, words: &str) -> Result<String, Failure> {
    let words = words_of(heap, words)?;
    let [kind, hex, wishes @ ..] = words.as_slice() else {
        return Err(Failure::Unknown);
    };
    let built = build(heap, kind, hex, wishes).map_err(unread)?;
    let mut text = String::new(heap);
    for refusal in built.refusals.as_slice() {
        match refusal {
            Some(refusal) => {
                let number = refusal.number();
                text.push_str(format!(in heap; "{number} ")?.as_str())?;
            }
            None => text.push_str("ok ")?,
        }
    }
    let sizes = built.pile.sizes();
    text.push_str(format!(in heap; "{} {} {}", sizes.labels, sizes.bound, sizes.span)?.as_str())?;
    Ok(text)
}
