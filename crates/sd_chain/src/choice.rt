//! Choosing among the open images of a catalog.
ghost use Rattle.std.specs.Prelude.{◌≡◌, ◌≤◌, ◌↔◌, ℕ, List, [], ◌∷◌, ◌++◌, Option, IfOk, OnOk, IsTrue, map};
ghost use Rattle.sd_chain.specs.Catalog.{Opened, images, IsGreatest, IsDumpOrMerged, IsNotNewer, IsNewestChoice};
ghost use Rattle.sd_chain.specs.Catalog.{IsNamedChoice, checkpoint_number, number_at_place, serial_of};

use crate::image::OpenImage;
use indexmap::IndexMap;
use sd_image::Kind;
use std::alloc::{AllocError, Global};

/// The places of serials, each held or with its image.
pub(crate) type Places = IndexMap<u64, Option<OpenImage>>;

/// Whether the image alone, or with what it names, is restored.
pub(crate) fn is_restored(image: &OpenImage) -> bool
    ensures { IsTrue result ↔ IsDumpOrMerged image.now }
{
    match image.header().kind {
        Kind::PreDump => false,
        Kind::Dump | Kind::Merged => true,
    }
}

/// Whether an image comes no later than another, by its checkpoint and then by its serial.
fn is_not_after(a: &OpenImage, b: &OpenImage) -> bool
    ensures { IsTrue result ↔ IsNotNewer a.now b.now }
{
    let (a, b) = (a.header(), b.header());
    a.checkpoint < b.checkpoint || (a.checkpoint == b.checkpoint && a.serial <= b.serial)
}

/// The newest of these and one more, if that is restored.
fn newest_with<'a>(newest: Option<&'a OpenImage>, one: &'a OpenImage) -> Option<&'a OpenImage>
    ensures { (all : List Opened) → IsNewestChoice all newest.entry
        → IsNewestChoice (all ++ one.now ∷ []) result }
{
    if !is_restored(one) {
        return newest;
    }
    let Some(best) = newest else {
        return Some(one);
    };
    if is_not_after(best, one) {
        Some(one)
    } else {
        newest
    }
}

/// Of those that stand for a number, the one with the greatest serial, among these and one more.
fn named_with<'a>(
    named: Option<&'a OpenImage>,
    one: &'a OpenImage,
    number: u64,
) -> Option<&'a OpenImage>
    ensures { (all : List Opened) → IsNamedChoice number all named.entry
        → IsNamedChoice number (all ++ one.now ∷ []) result }
{
    if one.header().stands_for != number {
        return named;
    }
    let Some(best) = named else {
        return Some(one);
    };
    if best.header().serial <= one.header().serial {
        Some(one)
    } else {
        named
    }
}

/// The newest of these and the image of one more place, if it has one.
fn newest_at<'a>(
    newest: Option<&'a OpenImage>,
    place: &'a Option<OpenImage>,
) -> Option<&'a OpenImage>
    ensures { (before : List (ℕ × Option Opened)) (serial : ℕ)
        → IsNewestChoice (images before) newest.entry
        → IsNewestChoice (images (before ++ (serial, place.now) ∷ [])) result }
{
    match place {
        Some(one) => newest_with(newest, one),
        None => newest,
    }
}

/// The image that a number names among these and the image of one more place, if it has one.
fn named_at<'a>(
    named: Option<&'a OpenImage>,
    place: &'a Option<OpenImage>,
    number: u64,
) -> Option<&'a OpenImage>
    ensures { (before : List (ℕ × Option Opened)) (serial : ℕ)
        → IsNamedChoice number (images before) named.entry
        → IsNamedChoice number (images (before ++ (serial, place.now) ∷ [])) result }
{
    match place {
        Some(one) => named_with(named, one, number),
        None => named,
    }
}

/// The newest of the images that are restored.
pub(crate) fn newest_of(places: &Places) -> Option<&OpenImage>
    ensures { IsNewestChoice (images places.now.entries) result }
{
    let mut newest = None;
    for (_, place) in places {
        newest = newest_at(newest, place);
    }
    newest
}

/// The image that a number names.
pub(crate) fn named_of(places: &Places, number: u64) -> Option<&OpenImage>
    ensures { IsNamedChoice number (images places.now.entries) result }
{
    let mut named = None;
    for (_, place) in places {
        named = named_at(named, place, number);
    }
    named
}

/// Puts the image of a place after the others, if it has one.
fn push_image<'a>(
    list: &mut Vec<&'a OpenImage>,
    place: &'a Option<OpenImage>,
) -> Result<(), AllocError>
    ensures { OnOk result
        ((before : List (ℕ × Option Opened)) (serial : ℕ)
        → map (λ i. i.now) list.old.items ≡ images before
        → map (λ i. i.now) list.new.items ≡ images (before ++ (serial, place.now) ∷ [])) }
{
    if let Some(image) = place {
        list.push(image)?;
    }
    Ok(())
}

/// The images, in the order of the places.
pub(crate) fn images_of(alloc: Global, places: &Places) -> Result<Vec<&OpenImage>, AllocError>
    ensures { IfOk result (λ list. map (λ i. i.now) list.items ≡ images places.now.entries) }
{
    let mut list = Vec::new(alloc);
    for (_, place) in places {
        push_image(&mut list, place)?;
    }
    Ok(list)
}

/// The serial of the image of a place, or 0 where it is held.
fn serial_at(place: &Option<OpenImage>) -> u64
    ensures { result ≡ number_at_place serial_of place.now }
{
    match place {
        Some(image) => image.header().serial,
        None => 0,
    }
}

/// The checkpoint of the image of a place, or 0 where it is held.
fn checkpoint_at(place: &Option<OpenImage>) -> u64
    ensures { result ≡ number_at_place checkpoint_number place.now }
{
    match place {
        Some(image) => image.header().checkpoint,
        None => 0,
    }
}

/// The greatest serial of the images, or 0 where there are none.
pub(crate) fn greatest_serial(places: &Places) -> u64
    ensures { IsGreatest serial_of result (images places.now.entries) }
{
    let mut greatest = 0u64;
    for (_, place) in places {
        greatest = greatest.max(serial_at(place));
    }
    greatest
}

/// The greatest checkpoint of the images, or 0 where there are none.
pub(crate) fn greatest_checkpoint(places: &Places) -> u64
    ensures { IsGreatest checkpoint_number result (images places.now.entries) }
{
    let mut greatest = 0u64;
    for (_, place) in places {
        greatest = greatest.max(checkpoint_at(place));
    }
    greatest
}
