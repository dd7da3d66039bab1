//! Tests of disks, of the relay, of chains and stores, by their public names alone.
#![tactic(auto)]

#[cfg(test)]
mod arrivals;
#[cfg(test)]
mod builders;
#[cfg(test)]
mod cases;
#[cfg(test)]
mod chains;
#[cfg(test)]
mod crashes;
#[cfg(test)]
mod devices;
#[cfg(test)]
mod drops;
#[cfg(test)]
mod feeding;
#[cfg(test)]
mod merges;
#[cfg(test)]
mod picks;
#[cfg(test)]
mod receipts;
#[cfg(test)]
mod relays;
#[cfg(test)]
mod steps;
#[cfg(test)]
mod stores;
#[cfg(test)]
mod texts;
#[cfg(test)]
mod writing;
