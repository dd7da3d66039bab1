//! Builders of files and stores. Disks and catalogs aren't dropped in these tests: the process of a test ends with
//! them.
use sd_areas::PAGE_SIZE;
use sd_disk::{Disk, MemDisk};
use sd_image::{Digester, Header, Kind, Version, encode_header};
use std::alloc::{AllocError, Global};
use std::mem::forget;

/// An image: its header, its table, and the byte that fills its data pages.
pub(crate) type Image = (Header, [u8; 72], u8);

/// A table of page 0x10 of space 1, a data page that is read and written.
pub(crate) const DATA: [u8; 72] = [
    1, 0, 0, 0, 0, 0, 0, 0, //
    1, 0, 0, 0, 1, 0, 0, 0, 1, 0, 0, 0, 0, 0, 0, 0, //
    0x10, 0, 0, 0, 0, 0, 0, 0, 1, 0, 0, 0, 0, 0, 0, 0, 3, 0, 0, 0, 0, 0, 0, 0, //
    0x10, 0, 0, 0, 0, 0, 0, 0, 1, 0, 0, 0, 0, 0, 0, 0, 1, 0, 0, 0, 0, 0, 0, 0,
];

/// The same page, which is in the parent.
const IN_PARENT: [u8; 72] = [
    1, 0, 0, 0, 0, 0, 0, 0, //
    1, 0, 0, 0, 1, 0, 0, 0, 1, 0, 0, 0, 0, 0, 0, 0, //
    0x10, 0, 0, 0, 0, 0, 0, 0, 1, 0, 0, 0, 0, 0, 0, 0, 3, 0, 0, 0, 0, 0, 0, 0, //
    0x10, 0, 0, 0, 0, 0, 0, 0, 1, 0, 0, 0, 0, 0, 0, 0, 2, 0, 0, 0, 0, 0, 0, 0,
];

/// A dump of version 2 of serial 1 that stands for itself, with a data page.
pub(crate) const DUMP: Header = Header {
    version: Version::Two,
    kind: Kind::Dump,
    serial: 1,
    stands_for: 1,
    parent: 0,
    checkpoint: 1,
    pages: 1,
    table_len: 72,
    digest: [0; 32],
};

/// One of serial 2 above it, without a data page.
pub(crate) const ABOVE: Header = Header {
    serial: 2,
    stands_for: 2,
    parent: 1,
    checkpoint: 2,
    pages: 0,
    ..DUMP
};

/// A dump of serial 1 with a data page filled with 7.
pub(crate) const FIRST: Image = (DUMP, DATA, 7);

/// A dump of serial 2, whose page is in the first.
pub(crate) const SECOND: Image = (ABOVE, IN_PARENT, 0);

/// A dump of serial 4 above that, whose page is in the second.
pub(crate) const FOURTH: Image = (
    Header {
        serial: 4,
        stands_for: 4,
        parent: 2,
        checkpoint: 3,
        ..ABOVE
    },
    IN_PARENT,
    0,
);

/// A merged image of serial 3 that stands for the first, with a data page filled with 9.
pub(crate) const THIRD_MERGED: Image = (
    Header {
        kind: Kind::Merged,
        serial: 3,
        ..DUMP
    },
    DATA,
    9,
);

/// The header of an image with its digest, where it is of version 2.
pub(crate) fn with_digest(image: &Image) -> Header {
    let (header, text, byte) = image;
    if header.version == Version::One {
        return *header;
    }
    let mut digester = Digester::new();
    for _ in 0..header.pages {
        digester.page(&[*byte; PAGE_SIZE]);
    }
    digester.table(text);
    let digest = digester.finish(header);
    Header { digest, ..*header }
}

/// Puts the file of an image after a file's gate.
fn put_file(file: &mut Vec<u8>, image: &Image) -> Result<(), AllocError> {
    let (header, text, byte) = image;
    file.extend_from_slice(&encode_header(&with_digest(image)))?;
    for _ in 0..header.pages {
        file.extend_from_slice(&[*byte; PAGE_SIZE])?;
    }
    file.extend_from_slice(text)
}

/// The file of an image.
pub(crate) fn image_file(alloc: Global, image: &Image) -> Result<Vec<u8>, AllocError> {
    let mut file = vec![in alloc; 0xA5; 1]?;
    put_file(&mut file, image)?;
    Ok(file)
}

/// Writes the file of an image into a slot. Returns whether it is written.
fn put_image(
    alloc: Global,
    disk: &mut MemDisk,
    slot: usize,
    image: &Image,
) -> Result<bool, AllocError> {
    let file = image_file(alloc, image)?;
    let may_write = slot < disk.slots() && !file.is_empty();
    Ok(may_write && disk.write_at(slot, 0, &file).is_ok())
}

/// Writes the files of images into the first slots, up to the first that isn't written.
fn put_images(alloc: Global, disk: &mut MemDisk, images: &[Image]) -> Result<(), AllocError> {
    for slot in 0..images.len() {
        if !put_image(alloc, disk, slot, &images[slot])? {
            return Ok(());
        }
    }
    Ok(())
}

/// A store of four slots with these images in the first.
pub(crate) fn store(alloc: Global, images: &[Image]) -> Result<MemDisk, AllocError> {
    let mut disk = MemDisk::new(alloc, 4, 80_000, 64)?;
    match put_images(alloc, &mut disk, images) {
        Ok(()) => Ok(disk),
        Err(error) => {
            forget(disk);
            Err(error)
        }
    }
}
