ghost use Rattle.std.specs.Prelude.{◌≡◌};

use sd_chain::PlacedTable;
use sd_gate::Plan;
use sd_image::Header;

/// How far a merged image in the making is.
#[derive(Drop)]
pub enum Stage {
    /// Its slot is made one closed byte.
    Format(Plan),
    /// Pages of the source are taken one by one.
    Pass,
    /// A data page of the source is read.
    PageRead(Plan),
    /// It is written after the data pages before it.
    PageWrite(Plan),
    /// The table and the header are written, and the gate is opened.
    Close {
        plan: Plan,
        header: Header,
        table: PlacedTable,
    },
}

/// Gives an image its next stage.
pub(crate) fn put_stage(stage: &mut Stage, next: Stage)
    ensures { stage.new ≡ next }
{
    *stage = next;
}
