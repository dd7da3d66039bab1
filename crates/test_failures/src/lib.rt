//! Tests of worlds whose memory is refused, whose device fails, that stop at each call, and that crash there.
#![tactic(auto)]

#[cfg(test)]
mod crashes;
#[cfg(test)]
mod driver;
#[cfg(test)]
mod interleaved;
#[cfg(test)]
mod line;
#[cfg(test)]
mod orders;
#[cfg(test)]
mod picks;
#[cfg(test)]
mod stops;
#[cfg(test)]
mod tests;
#[cfg(test)]
mod told;
#[cfg(test)]
mod worlds;
