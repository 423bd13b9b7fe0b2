// Tests of the book readers: boundary files for each refusal that a reader gives.

#![tactic(auto)]

#[cfg(test)]
mod bytes;
#[cfg(test)]
mod files;
#[cfg(test)]
mod rule;
#[cfg(test)]
mod site;
#[cfg(test)]
mod wish;
