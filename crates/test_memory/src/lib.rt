//! Tests of address spaces, memories and what `/proc` shows of them, and of commands, journals, receipts and folds, by
//! their public names alone.
#![tactic(auto)]

#[cfg(test)]
mod actions;
#[cfg(test)]
mod areas;
#[cfg(test)]
mod bits;
#[cfg(test)]
mod commands;
#[cfg(test)]
mod journals;
#[cfg(test)]
mod line;
#[cfg(test)]
mod loading;
#[cfg(test)]
mod memories;
#[cfg(test)]
mod procfs;
#[cfg(test)]
mod receipts;
#[cfg(test)]
mod replays;
#[cfg(test)]
mod support;
#[cfg(test)]
mod texts;
#[cfg(test)]
mod told;
