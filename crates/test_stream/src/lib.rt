//! Tests of the stream of a send, by its public names.
#![tactic(auto)]

#[cfg(test)]
mod failing;
#[cfg(test)]
mod orders;
#[cfg(test)]
mod refusals;
#[cfg(test)]
mod streams;
