//! The images of a catalog by the checkpoints to which they belong.
ghost use Rattle.std.specs.Prelude.{◌≡◌, ◌↔◌, ◌++◌, ◌∷◌, ℕ, List, [], Option, IfOk, IsTrue};
ghost use Rattle.sd_chain.specs.Catalog.{Opened, images};
ghost use Rattle.sd_chain.specs.Checkpoints.{AreCheckpointsOf, HasCheckpoint, IsCheckpointChoice, IsBefore};
ghost use Rattle.sd_chain.specs.Checkpoints.{IsBelow, IsNextChoice};

use crate::choice::{Places, is_restored};
use crate::image::OpenImage;
use std::alloc::{AllocError, Global};

/// Whether the image is restored, and has this checkpoint.
fn has_checkpoint(image: &OpenImage, number: u64) -> bool
    ensures { IsTrue result ↔ HasCheckpoint number image.now }
{
    is_restored(image) && image.header().checkpoint == number
}

/// The image of a checkpoint among these and one more.
fn checkpoint_with<'a>(
    chosen: Option<&'a OpenImage>,
    one: &'a OpenImage,
    number: u64,
) -> Option<&'a OpenImage>
    ensures { (all : List Opened) → IsCheckpointChoice number all chosen.entry
        → IsCheckpointChoice number (all ++ one.now ∷ []) result }
{
    if !has_checkpoint(one, number) {
        return chosen;
    }
    let Some(best) = chosen else {
        return Some(one);
    };
    if best.header().serial <= one.header().serial {
        Some(one)
    } else {
        chosen
    }
}

/// The image of a checkpoint among these and the image of one more place, if it has one.
fn checkpoint_at<'a>(
    chosen: Option<&'a OpenImage>,
    place: &'a Option<OpenImage>,
    number: u64,
) -> Option<&'a OpenImage>
    ensures { (before : List (ℕ × Option Opened)) (serial : ℕ)
        → IsCheckpointChoice number (images before) chosen.entry
        → IsCheckpointChoice number (images (before ++ (serial, place.now) ∷ [])) result }
{
    match place {
        Some(one) => checkpoint_with(chosen, one, number),
        None => chosen,
    }
}

/// The image of a checkpoint.
pub(crate) fn of_checkpoint(places: &Places, number: u64) -> Option<&OpenImage>
    ensures { IsCheckpointChoice number (images places.now.entries) result }
{
    let mut chosen = None;
    for (_, place) in places {
        chosen = checkpoint_at(chosen, place, number);
    }
    chosen
}

/// Whether a number is below a bound, where there is one.
fn is_below(number: u64, bound: Option<u64>) -> bool
    ensures { IsTrue result ↔ IsBelow bound number }
{
    match bound {
        Some(bound) => number < bound,
        None => true,
    }
}

/// Whether the image is restored, and has a checkpoint below a bound.
fn is_before(image: &OpenImage, bound: Option<u64>) -> bool
    ensures { IsTrue result ↔ IsBefore bound image.now }
{
    is_restored(image) && is_below(image.header().checkpoint, bound)
}

/// The greatest checkpoint below a bound among these images and one more.
fn next_with(greatest: Option<u64>, one: &OpenImage, bound: Option<u64>) -> Option<u64>
    ensures { (all : List Opened) → IsNextChoice bound all greatest
        → IsNextChoice bound (all ++ one.now ∷ []) result }
{
    if !is_before(one, bound) {
        return greatest;
    }
    let number = one.header().checkpoint;
    let Some(best) = greatest else {
        return Some(number);
    };
    if best < number {
        Some(number)
    } else {
        greatest
    }
}

/// The greatest checkpoint below a bound among these images and the image of one more place, if it has one.
fn next_at(greatest: Option<u64>, place: &Option<OpenImage>, bound: Option<u64>) -> Option<u64>
    ensures { (before : List (ℕ × Option Opened)) (serial : ℕ)
        → IsNextChoice bound (images before) greatest
        → IsNextChoice bound (images (before ++ (serial, place.now) ∷ [])) result }
{
    match place {
        Some(one) => next_with(greatest, one, bound),
        None => greatest,
    }
}

/// The greatest checkpoint below a bound of the images that are restored.
fn next_of(places: &Places, bound: Option<u64>) -> Option<u64>
    ensures { IsNextChoice bound (images places.now.entries) result }
{
    let mut greatest = None;
    for (_, place) in places {
        greatest = next_at(greatest, place, bound);
    }
    greatest
}

/// The checkpoints of the images that are restored, each once, newest first.
pub(crate) fn checkpoints_of(alloc: Global, places: &Places) -> Result<Vec<u64>, AllocError>
    ensures { IfOk result (λ numbers. AreCheckpointsOf (images places.now.entries) numbers.items) }
{
    let mut numbers = Vec::new(alloc);
    let mut next = next_of(places, None);
    while let Some(number) = next {
        numbers.push(number)?;
        next = next_of(places, Some(number));
    }
    Ok(numbers)
}
