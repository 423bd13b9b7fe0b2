// What a plan advises where a walk stands.

/// To choose an action; to tell the outcome of the open choice first; or nothing, since the plan ends here.
#[derive(Clone, Copy, Debug, PartialEq, Eq)]
pub enum Advice {
    Choose(u8),
    Tell,
    Ended,
}
