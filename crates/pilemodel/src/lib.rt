//! What a pile is: floors laid on a ground model, where the truth lines say that it stands and what they say that it shows, and that
//! it keeps to them. Definitions and their laws alone.

#![tactic(auto)]
