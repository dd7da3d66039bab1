//! Tests of runs of scripts, and of the programs that read their stores, by their public names.
#![tactic(auto)]

#[cfg(test)]
mod crashes;
#[cfg(test)]
mod failing;
#[cfg(test)]
mod merges;
#[cfg(test)]
mod opening;
#[cfg(test)]
mod run;
#[cfg(test)]
mod runs;
#[cfg(test)]
mod small;
#[cfg(test)]
mod trims;
#[cfg(test)]
mod writers;
