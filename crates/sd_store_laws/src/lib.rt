//! What a set of images shows, whatever a crash leaves of it.
#![tactic(auto)]

mod laws;
mod live_laws;
mod slot_laws;

pub use laws::{
    catalog_reaches_so, contents_show, cut_holds_the_same, cut_shows_last_or_pending,
    cut_shows_the_same, dump_is_pending, dump_stays, fresh_stays, left_as_believed,
    left_images_show, merged_copy_leaves_shown, merged_copy_stays, needed_is_reached,
    opened_is_sound, order_is_free, pre_dump_leaves_shown, slots_are_found, slots_follow_calls,
    slots_follow_images, slots_follow_jobs, source_reaches_needed, steps_keep, steps_show,
    unused_is_uncalled, worked_slots, worked_stores,
};
pub use live_laws::{
    above_is_fresh, below_stays, dump_shows, live_is_needed, merged_repeats, needs_no_more,
    own_is_needed, pending_shows, retires_unneeded, steps_give, unneeded_stays, work_stays,
};
pub use slot_laws::{
    beliefs_follow_calls, beliefs_weaken, catalog_follows, catalog_is_found, closing_retires,
    found_is_believed, found_is_exact, given_up_is_believed, given_up_syncs, live_catalog_agrees,
    one_belief_changes, recorded_reaches_so, slots_drop, synced_is_found,
};
