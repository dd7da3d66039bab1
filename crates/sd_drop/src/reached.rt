//! Which slots the newest image of a catalog needs.
ghost use Rattle.std.specs.Prelude.{◌↔◌, IsTrue};
ghost use Rattle.sd_chain.specs.Reaches.{ParentsFall};
ghost use Rattle.sd_drop.specs.Reached.{IsReachedIn};

use sd_chain::Catalog;

/// Whether the newest dump or merged image of a catalog stands in a slot, or leads to an image there by parent numbers.
/// It takes no memory.
pub fn is_reached(catalog: &Catalog, slot: usize) -> bool
    ensures { ParentsFall catalog.now → IsTrue result ↔ IsReachedIn catalog.now slot }
{
    catalog.sound();
    let mut next = catalog.tip();
    while let Some(image) = next {
        if image.slot() == slot {
            return true;
        }
        next = catalog.parent(image);
    }
    false
}
