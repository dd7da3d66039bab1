//! A law of entries, the contract of a function that does nothing.
ghost use Rattle.sd_image.specs.Table.{Listed};
ghost use Rattle.std.specs.Prelude.{List};
ghost use Rattle.sd_writing.specs.Entries.{Lists, entries_listed};

/// A table has exactly the pages of its entries, each in its way.
pub fn entries_law()
    ensures { (spaces : List Listed) → Lists (entries_listed spaces) spaces }
{}
