//! Tests of the slots that are free beside a dumper and a merger, and of the images that a merge closes, by public
//! names.
#![tactic(auto)]

#[cfg(test)]
mod slot_actions;
#[cfg(test)]
mod slots;
#[cfg(test)]
mod stop;
#[cfg(test)]
mod store;
