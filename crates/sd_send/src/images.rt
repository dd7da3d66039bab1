//! Which images are sent.
ghost use Rattle.std.specs.Prelude.{◌≡◌, ◌<◌, ℕ, Option, All, IfOk, map, length};
ghost use Rattle.sd_chain.specs.Catalog.{images};
ghost use Rattle.sd_send.specs.Sent.{AreSince};

use sd_chain::{Catalog, OpenImage};
use std::alloc::{AllocError, Global};

/// The images of the newest checkpoint, parents first: from the one after a slot's, or from the first.
pub(crate) fn images_since(
    alloc: Global,
    catalog: &Catalog,
    stop: Option<usize>,
) -> Result<Vec<&OpenImage>, AllocError>
    ensures since { IfOk result (λ found. AreSince catalog.now stop (map (λ i. i.now) found.items)) }
    ensures slots { (count : ℕ) → All (λ i. i.slot < count) (images catalog.now)
        → IfOk result (λ found. All (λ i. i.now.slot < count) found.items) }
{
    catalog.sound();
    let mut found = Vec::new(alloc);
    let mut next = catalog.tip();
    while let Some(image) = next {
        if stop == Some(image.slot()) {
            break;
        }
        found.insert(0, image)?;
        next = catalog.parent(image);
    }
    Ok(found)
}
