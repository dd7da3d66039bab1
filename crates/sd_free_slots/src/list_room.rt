//! The list of the images that a merge closes.
ghost use Rattle.std.specs.Prelude.{◌≡◌, ◌<◌, ◌≤◌, [], ◌∷◌, ◌++◌, IfOk, Contains, length, vec_capacity, vec_len};
ghost use Rattle.sd_free_slots.specs.Lists.{Notes, listed_at, listed_from};
ghost use Rattle.sd_free_slots.specs.Taken.{IsListOf};

use crate::taken::mark_taken;
use sd_chain::Catalog;
use sd_gate::RequestId;
use sd_merge::{Merger, Retired};
use sd_rounds::Dumper;
use std::alloc::{AllocError, Global};
use std::marker::Model;

/// The room for the list of the images that a merge closes. It is made when the merge begins, so that the list takes no
/// memory when it is fixed.
#[derive(Drop)]
pub struct ListRoom {
    /// A mark for each slot.
    marks: Vec<bool>,
    /// The serial of the image in each slot that was there as the merge began.
    serials: Vec<Option<u64>>,
    list: Vec<Retired>,
}

impl Model for ListRoom {
    ghost use Rattle.std.specs.Prelude.{ℕ, length, vec_capacity};
    ghost use Rattle.sd_free_slots.specs.Lists.{HasRoomForSlots};

    ghost Value = { ℕ };

    ghost view = { λ r. length r.marks.items };

    ghost invariant = { λ r. HasRoomForSlots r.marks.items r.serials.items r.list.items (vec_capacity r.list) };
}

/// Adds an image to a list with room for it.
fn push_into_room(list: &mut Vec<Retired>, one: Retired)
    requires { vec_len list.old < vec_capacity list.old }
    ensures items { list.new.items ≡ list.old.items ++ one ∷ [] }
    ensures room { vec_capacity list.old ≤ vec_capacity list.new }
{
    list.push(one).unwrap();
}

/// Notes the serial of an image at its slot, if the store has it.
fn note_serial(serials: &mut Vec<Option<u64>>, catalog: &Catalog, serial: u64)
    ensures { Notes catalog.now (λ own. own ≡ serial) 1 serials.old.items serials.new.items }
{
    let Some(image) = catalog.image(serial) else {
        return;
    };
    if image.slot() < serials.len() {
        serials[image.slot()] = Some(serial);
    }
}

/// Notes these serials at the slots of their images, where they have one.
fn note_serials(serials: &mut Vec<Option<u64>>, catalog: &Catalog, before: &[u64])
    ensures { Notes catalog.now (Contains before.now) (length before.now) serials.old.items serials.new.items }
{
    for serial in before {
        note_serial(serials, catalog, *serial);
    }
}

/// Lists the image of a slot, where it isn't marked and has one. There is room for it.
fn list_slot(list: &mut Vec<Retired>, slot: usize, taken: bool, serial: Option<u64>)
    requires { vec_len list.old < vec_capacity list.old }
    ensures items { list.new.items ≡ list.old.items ++ listed_at slot taken serial }
    ensures room { vec_capacity list.old ≤ vec_capacity list.new }
{
    if taken {
        return;
    }
    if let Some(serial) = serial {
        push_into_room(list, Retired { serial, slot });
    }
}

/// Lists the images that were noted in slots that aren't marked, rising by slot.
fn list_unmarked(list: &mut Vec<Retired>, marks: &[bool], serials: &[Option<u64>])
    requires empty { list.old.items ≡ [] }
    requires each { length serials.now ≡ length marks.now }
    requires room { length marks.now ≤ vec_capacity list.old }
    ensures { list.new.items ≡ listed_from 0 marks.now serials.now }
{
    for (slot, taken) in marks.iter().enumerate() {
        list_slot(list, slot, *taken, serials[slot]);
    }
}

impl ListRoom {
    /// Room for none. It takes no memory.
    pub fn none(alloc: Global) -> Self
        ensures { result ≡ 0 }
    {
        ListRoom {
            marks: Vec::new(alloc),
            serials: Vec::new(alloc),
            list: Vec::new(alloc),
        }
    }

    /// Room for a store of so many slots.
    ///
    /// # Errors
    ///
    /// Out of memory where a list finds no room.
    pub fn for_slots(alloc: Global, count: usize) -> Result<Self, AllocError>
        ensures { IfOk result (λ room. room ≡ count) }
    {
        let marks = vec![in alloc; false; count]?;
        let serials = vec![in alloc; None; count]?;
        let mut list = Vec::new(alloc);
        list.try_reserve(count)?;
        Ok(ListRoom {
            marks,
            serials,
            list,
        })
    }

    /// The list of the images that the running merge closes, once its image is open, rising by slot: those that were in
    /// the catalog as it began and still are, that nobody needs, in slots that no job has. It takes no memory.
    pub fn into_list(
        self,
        catalog: &Catalog,
        dumper: &Dumper,
        merger: &Merger,
        outs: &[Option<RequestId>],
    ) -> Vec<Retired>
        ensures { IsListOf catalog.now dumper.now.running merger.now outs.now self result.items }
    {
        let ListRoom {
            mut marks,
            mut serials,
            mut list,
        } = self;
        mark_taken(&mut marks, catalog, dumper, merger, outs);
        note_serials(&mut serials, catalog, merger.before());
        list_unmarked(&mut list, &marks, &serials);
        list
    }
}
