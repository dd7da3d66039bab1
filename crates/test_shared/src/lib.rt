//! Tests of cores that threads share, by the public names of `sd_shared`.
#![tactic(auto)]

#[cfg(test)]
mod answering;
#[cfg(test)]
mod beside;
#[cfg(test)]
mod cancelling;
#[cfg(test)]
mod case;
#[cfg(test)]
mod cases;
#[cfg(test)]
mod eight;
#[cfg(test)]
mod falling;
#[cfg(test)]
mod holds;
#[cfg(test)]
mod jobs;
#[cfg(test)]
mod mutator;
#[cfg(test)]
mod replies;
#[cfg(test)]
mod thaws;
#[cfg(test)]
mod told;
#[cfg(test)]
mod waiting;
#[cfg(test)]
mod writers;
