//! The text of a slot.
ghost use Rattle.std.specs.Prelude.{◌≡◌, ℕ, List, OnOk};
ghost use Rattle.std.specs.Io.KnownBytes.{Appends};
ghost use Rattle.sd_show.specs.Slots.{IsSeen};
ghost use Rattle.sd_show.specs.Texts.{fault_text, opened_text, slot_line, slot_lines};

use crate::header_text::print_header;
use crate::opened::Opened;
use crate::phrases::reason_phrase;
use crate::seen::Seen;
use crate::state::{State, state_word};
use crate::table_text::print_table;
use sd_image::Reason;
use std::io;
use std::io::Write;

/// Prints a slot's number and its state.
pub(crate) fn print_state<W: Write>(slot: usize, state: State, out: &mut W) -> io::Result<()>
    ensures { OnOk result
        (Appends (W.contents out.old) (W.contents out.new) (slot_line slot state)) }
{
    writeln!(out, "slot {slot:03} {}", state_word(state))
}

/// Prints why a slot is damaged, if it is.
#[tactic(auto, unfolding(crate::specs::Texts::fault_text))]
fn print_fault<W: Write>(fault: Option<Reason>, out: &mut W) -> io::Result<()>
    ensures { OnOk result
        (Appends (W.contents out.old) (W.contents out.new) (fault_text fault)) }
{
    let Some(reason) = fault else {
        return Ok(());
    };
    writeln!(out, "damaged {} {}", reason.number(), reason_phrase(reason))
}

/// Prints an open slot: why it is damaged, if it is, its header and its table.
#[tactic(auto, unfolding(crate::specs::Texts::opened_text))]
pub(crate) fn print_opened<W: Write>(opened: &Opened, out: &mut W) -> io::Result<()>
    ensures { OnOk result (Appends (W.contents out.old) (W.contents out.new)
        (opened_text opened.now.fault opened.now.front opened.now.digest opened.now.table.items)) }
{
    print_fault(opened.fault, out)?;
    print_header(&opened.front, &opened.digest, out)?;
    print_table(&opened.table, out)
}

/// Prints a slot: its number and its state, and what it has where it is open.
pub(crate) fn print_slot<W: Write>(slot: usize, seen: &Seen, out: &mut W) -> io::Result<()>
    ensures { (file : List ℕ) → IsSeen file seen.now → OnOk result
        (Appends (W.contents out.old) (W.contents out.new) (slot_lines slot file)) }
{
    print_state(slot, seen.state, out)?;
    match &seen.opened {
        Some(opened) => print_opened(opened, out),
        None => Ok(()),
    }
}
