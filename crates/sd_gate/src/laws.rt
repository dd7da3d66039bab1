//! Laws of the phases, each the contract of a function that does nothing.
ghost use Rattle.sd_gate.specs.Laws.{ImageWholeOrClosed, GivenUpFits, FoundFits, AllFoundFit, InspectionFindsPhase};
ghost use Rattle.sd_gate.specs.Laws.{PlansLead, BodiesFill, CutsFit, WritesCommute};
ghost use Rattle.sd_gate.specs.Looks.{InspectionFinds};
ghost use Rattle.sd_gate.specs.PlanRuns.{PlansTake};

use sd_disk::Disk;

/// What a crash leaves of a slot: no image before its gate is opened, none or the whole image while it is opened or
/// closed, and the image once the open gate is synced.
pub fn image_whole_or_closed()
    ensures { ImageWholeOrClosed }
{}

/// A slot whose job is given up is in the phase that is left then.
pub fn given_up_fits<D: Disk>(disk: &D)
    ensures { GivenUpFits (D.contents disk.now) (D.may_leave disk.now) }
{}

/// A slot that was synced is in the phase that its file shows: shorter than a header, closed, or with an image.
pub fn found_fits<D: Disk>(disk: &D)
    ensures { FoundFits (D.contents disk.now) (D.may_leave disk.now) }
{}

/// A disk of which every slot was synced is in the phases that its files show, with the bodies that they have.
pub fn all_found_fit<D: Disk>(disk: &D)
    ensures { AllFoundFit (D.contents disk.now) (D.may_leave disk.now) }
{}

/// The length and the first bytes that an inspection brings back give that phase.
pub fn inspection_finds_phase()
    ensures { InspectionFindsPhase }
{}

/// The calls of each plan that writes find their slot ready, one after the other, from each phase in which the first is
/// ready. A format and the calls that retire an image leave one closed byte; those that close a body leave the image.
pub fn plans_lead()
    ensures { PlansLead }
{}

/// While a plan that writes makes its calls, done or failed, a crash leaves at most the image that was there before, or
/// the one that is written.
pub fn plans_take()
    ensures { PlansTake }
{}

/// An inspection whose outcomes gave its slot's file as it is finds the file's length, its first 4,096 bytes and its
/// table.
pub fn inspection_finds()
    ensures { InspectionFinds }
{}

/// Two writes after the gate that don't overlap, as those of two data pages, may be made in either order.
pub fn writes_commute()
    ensures { WritesCommute }
{}

/// The bytes that the plans write: data pages one after the other, and then the table and the header, make the body of
/// the image that has them.
pub fn bodies_fill()
    ensures { BodiesFill }
{}

/// A slot that is ready for a cut has the byte that the cut leaves.
pub fn cuts_fit<D: Disk>(disk: &D)
    ensures { CutsFit (D.contents disk.now) (D.may_leave disk.now) }
{}
