//! What a weighing is, the mean and the worst, and that both are lawful. Definitions and their laws alone.

#![tactic(auto)]
