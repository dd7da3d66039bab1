//! The images that an image leads to by parent numbers, and where they have its pages.
ghost use Rattle.std.specs.Prelude.{◌≡◌, ◌+◌, ◌*◌, ◌^◌, ◌<◌, ◌≤◌, ℕ, IfOk, IfSome, map, length};
ghost use Rattle.sd_chain.specs.Catalog.{Places};
ghost use Rattle.sd_chain.specs.Chains.{AreBelowLimit, IsChainOf, IsTraced, trace_on};
ghost use Rattle.sd_chain.specs.Ways.{AreImages, found_in};

use crate::found::Found;
use crate::image::OpenImage;
use crate::spot::Spot;
use crate::trace::Trace;
use crate::trace_run::TraceRun;
use crate::way::Way;
use sd_areas::{PageNo, SpaceId};
use sd_image::{few_pages, one_kind, one_place};
use std::alloc::{AllocError, Global};
use std::marker::Model;

/// The images of a chain: an image, the one that its parent number names, and so on. It knows where in the table of
/// each it looked for a page last, so that of pages that rise each is found there or in the next run.
#[derive(Drop)]
pub struct Chain<'a> {
    images: Vec<&'a OpenImage>,
    spots: Vec<Spot>,
}

impl<'a> Model for Chain<'a> {
    ghost use Rattle.std.specs.Prelude.{◌≡◌, List, map, length};
    ghost use Rattle.sd_chain.specs.Catalog.{Opened};

    ghost Value = { List Opened };

    ghost view = { λ c. map (λ i. i.now) c.images.items };

    ghost invariant = { λ c. length c.spots.items ≡ length c.images.items };
}

/// The byte after the header and so many data pages of a file.
fn offset_of(place: u64) -> u64
    ensures { 4096 + 4096 * place < 2 ^ 64 → result ≡ 4096 + 4096 * place }
{
    place.saturating_mul(4096).saturating_add(4096)
}

/// What following pages of a space, from one on and at most so many, from the first of these images on comes to. It
/// looks for them at the spots first, and leaves there where it found them.
fn trace_pages(
    images: &[&OpenImage],
    spots: &mut [Spot],
    space: SpaceId,
    page: PageNo,
    count: u64,
) -> TraceRun
    requires spots { length spots.old ≡ length images.now }
    requires some { 0 < count }
    ensures some { 0 < result.count }
    ensures within { result.count ≤ count }
    ensures spots { length spots.new ≡ length spots.old }
    ensures traced { (places : Places) (serial : ℕ) → AreImages places
        → IsChainOf places serial (map (λ i. i.now) images.now)
        → (k : ℕ) → k < result.count
        → IsTraced places serial (space, page + k) (trace_on result.trace k) }
    ensures below { (places : Places) (serial : ℕ) → AreImages places
        → IsChainOf places serial (map (λ i. i.now) images.now)
        → IfSome (found_in result.trace) (λ there. AreBelowLimit there result.count) }
{
    few_pages();
    one_kind();
    one_place();
    let mut trace = Trace::Absent;
    let mut count = count;
    for k in 0..images.len() {
        let image = images[k];
        let Some(stretch) = image.stretch(space, page, spots[k]) else {
            return TraceRun { trace, count: 1 };
        };
        spots[k] = stretch.spot;
        count = count.min(stretch.count);
        match stretch.way {
            Way::Data { place } => {
                let slot = image.slot();
                let offset = offset_of(place);
                let trace = Trace::Found(Found::Data { slot, offset });
                return TraceRun { trace, count };
            }
            Way::Zero => {
                let trace = Trace::Found(Found::Zero);
                return TraceRun { trace, count };
            }
            Way::Parent => {}
        }
        trace = Trace::Broken { slot: image.slot() };
    }
    TraceRun { trace, count }
}

impl<'a> Chain<'a> {
    /// The chain of these images, none of which was looked at.
    pub(crate) fn new(alloc: Global, images: Vec<&'a OpenImage>) -> Result<Self, AllocError>
        ensures { IfOk result (λ chain. chain ≡ map (λ i. i.now) images.entry.items) }
    {
        let spots = vec![in alloc; Spot::FIRST; images.len()]?;
        Ok(Chain { images, spots })
    }

    /// Where the chain has pages of a space, from one on and at most so many, as far as they lie one after the other.
    ///
    /// Where pages rise from call to call it takes a step for each image that it passes, and else one that grows with
    /// the logarithm of the runs.
    pub fn trace(&mut self, space: SpaceId, page: PageNo, count: u64) -> TraceRun
        requires { 0 < count }
        ensures some { 0 < result.count }
        ensures within { result.count ≤ count }
        // Of the chain of an image in a catalog: what following each of the pages comes to.
        ensures traced { (places : Places) (serial : ℕ) → AreImages places
            → IsChainOf places serial self.old → (k : ℕ) → k < result.count
            → IsTraced places serial (space, page + k) (trace_on result.trace k) }
        ensures below { (places : Places) (serial : ℕ) → AreImages places
            → IsChainOf places serial self.old
            → IfSome (found_in result.trace) (λ there. AreBelowLimit there result.count) }
        ensures images { self.new ≡ self.old }
    {
        trace_pages(&self.images, &mut self.spots, space, page, count)
    }
}
