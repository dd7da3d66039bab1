//! How a checkpoint begins: when it is refused, in which slots it is made, and from which image on.
ghost use Rattle.std.specs.Prelude.{◌≡◌};
ghost use Rattle.sd_core.specs.Beginning.{IsFirstParent, IsReserving, first_of, is_down, is_not_open};
ghost use Rattle.sd_core.specs.Merging.{has_tip};

use sd_chain::Catalog;
use sd_command::Refusal;
use sd_crash_safety::Standing;

/// The slots of a checkpoint.
#[derive(Drop)]
pub(crate) struct Slots {
    pub(crate) pre_dumps: Vec<usize>,
    pub(crate) dump: usize,
}

/// Why a checkpoint can't begin: the first of these whose condition holds.
pub(crate) fn first_of(refusals: &[(bool, Refusal)]) -> Option<Refusal>
    ensures { result ≡ first_of refusals.now }
{
    for (holds, why) in refusals.iter() {
        if *holds {
            return Some(*why);
        }
    }
    None
}

/// Whether a store wasn't opened yet.
pub(crate) fn is_not_open(standing: Standing) -> bool
    ensures { result ≡ is_not_open standing }
{
    matches!(standing, Standing::NotOpen)
}

/// Whether a device call failed, and the store wasn't opened again since.
pub(crate) fn is_down(standing: Standing) -> bool
    ensures { result ≡ is_down standing }
{
    matches!(standing, Standing::Down)
}

/// Whether a catalog shows a checkpoint.
pub(crate) fn has_tip(catalog: &Catalog) -> bool
    ensures { result ≡ has_tip catalog.now }
{
    catalog.tip().is_some()
}

/// The slots of a checkpoint of so many pre-dumps: the first of these free ones. None where fewer than two more are
/// free.
pub(crate) fn reserve_slots(free: Vec<usize>, rounds: usize) -> Option<Slots>
    ensures { IsReserving free.items rounds result }
{
    let mut pre_dumps = free;
    if pre_dumps.len() < rounds.saturating_add(2) {
        return None;
    }
    let dump = pre_dumps[rounds];
    pre_dumps.truncate(rounds);
    Some(Slots { pre_dumps, dump })
}

/// The number that the first image of a checkpoint names as its parent, or 0 where it takes every page.
pub(crate) fn first_parent(catalog: &Catalog, grows: bool) -> u64
    ensures { IsFirstParent catalog.now grows result }
{
    if !grows {
        return 0;
    }
    match catalog.tip() {
        Some(tip) => tip.header().stands_for,
        None => 0,
    }
}
