//! Laws about the reasons why bytes aren't an image.
ghost use Rattle.sd_image.specs.FirstFault.{FirstFaultIsNamed};
ghost use Rattle.sd_image.specs.ReasonLaws.{GoodFileHasNoReason, GoodHeaderHasNoReason, GoodStoreHasNoReason};
ghost use Rattle.sd_image.specs.ReasonLaws.{GoodTableHasNoReason, LeastHeaderReason, OneReason};

/// A header is read as itself: no reason is found in its text.
pub fn good_header_has_no_reason()
    ensures { GoodHeaderHasNoReason }
{}

/// A table is read as itself: no reason is found in its text.
pub fn good_table_has_no_reason()
    ensures { GoodTableHasNoReason }
{}

/// An image is read as itself: no reason is found in its file.
pub fn good_file_has_no_reason()
    ensures { GoodFileHasNoReason }
{}

/// Where every open slot is an image, no reason is found in any.
pub fn good_store_has_no_reason()
    ensures { GoodStoreHasNoReason }
{}

/// An open file is an image and is read as it, or it is none, and one reason says why.
pub fn one_reason()
    ensures { OneReason }
{}

/// The reason that is found in a header is the least that applies.
pub fn least_header_reason()
    ensures { LeastHeaderReason }
{}

/// The reason that is found in a table is the least that applies to the first item at which a rule breaks.
pub fn first_fault_is_named()
    ensures { FirstFaultIsNamed }
{}
