// Tests of the wish layer: records on which wrong readings of the truth lines show.

#![tactic(auto)]

#[cfg(test)]
mod masks;
#[cfg(test)]
mod readings;
