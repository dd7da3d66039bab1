//! Laws about images and contents that the layers above use.
ghost use Rattle.sd_image.specs.Laws.{FewPages, FileIsImage, FirstImageIsShown, HeaderFillsFile, HeldOnce};
ghost use Rattle.sd_image.specs.Laws.{HeldOnceAmong, NamedOnce, NewestIsShown, OneImage, OneKind, OneListOfRuns};
ghost use Rattle.sd_image.specs.Laws.{OnePlace, OneSpelling, OneStore, PageInFile, ReadyAbove, ReadyAgain, ReadyStill};
ghost use Rattle.sd_image.specs.Laws.{ShownOnce, ShownStill, TextIsImage, TipOnce};

/// A whole image, written into a closed slot with numbers above all others, is what contents then show.
pub fn newest_is_shown()
    ensures { NewestIsShown }
{}

/// Once the image with a number stands in a slot that was closed, the store is ready for the next number.
pub fn ready_again()
    ensures { ReadyAgain }
{}

/// What is written after a closed gate leaves a store as ready as it was.
pub fn ready_still()
    ensures { ReadyStill }
{}

/// What is written after a closed gate leaves what contents show.
pub fn shown_still()
    ensures { ShownStill }
{}

/// A store that is ready for a number is ready for each higher one.
pub fn ready_above()
    ensures { ReadyAbove }
{}

/// A file has at most one image.
pub fn one_image()
    ensures { OneImage }
{}

/// An image has one spelling.
pub fn one_spelling()
    ensures { OneSpelling }
{}

/// There is one list of runs that has each page in its way.
pub fn one_list_of_runs()
    ensures { OneListOfRuns }
{}

/// In a table a page has at most one place among the pages that the image has in one way.
pub fn one_place()
    ensures { OnePlace }
{}

/// A table has a page in at most one way.
pub fn one_kind()
    ensures { OneKind }
{}

/// A table has no more pages in one way than all its spaces have.
pub fn few_pages()
    ensures { FewPages }
{}

/// An open file whose header and table are image text is an image with them.
pub fn file_is_image()
    ensures { FileIsImage }
{}

/// The text of a complete image, after an open gate, is an open file, and is that image.
pub fn text_is_image()
    ensures { TextIsImage }
{}

/// A header that is read in the first 4,096 bytes of a file is spelled so, and its numbers fill the file.
pub fn header_fills_file()
    ensures { HeaderFillsFile }
{}

/// A data page stands in its image's file after the header and the data pages before it.
pub fn page_in_file()
    ensures { PageInFile }
{}

/// Contents have at most one list of open images.
pub fn one_store()
    ensures { OneStore }
{}

/// In a store a number names at most one image.
pub fn named_once()
    ensures { NamedOnce }
{}

/// A store has at most one tip.
pub fn tip_once()
    ensures { TipOnce }
{}

/// An image of a store holds at most one page's bytes at each page.
pub fn held_once()
    ensures { HeldOnce }
{}

/// Where serials differ and tables are tables, an image holds at most one page's bytes at each page.
pub fn held_once_among()
    ensures { HeldOnceAmong }
{}

/// Contents show at most one thing.
pub fn shown_once()
    ensures { ShownOnce }
{}

/// A file that spells a dump of one page, alone in its store, shows that page.
pub fn first_image_is_shown()
    ensures { FirstImageIsShown }
{}
