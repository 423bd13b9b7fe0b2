// Tests of want of memory. In the gate no allocation fails; tools/fail-allocations.sh runs them with each one failing in turn.

#![tactic(auto)]

#[cfg(test)]
mod plans;
#[cfg(test)]
mod reading;
#[cfg(test)]
mod site;
