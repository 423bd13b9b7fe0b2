// Tests of the limits: what is just within each is taken, and one more is refused.

#![tactic(auto)]

#[cfg(test)]
mod limits;
