//! Changes put into a memory that has room for them. No memory is taken.
ghost use Rattle.std.specs.Prelude.{◌≡◌, true, IsSome};
ghost use Rattle.std.specs.FinMap as finmap;
ghost use Rattle.std.specs.Option.{option_map};
ghost use Rattle.sd_areas.specs.Memory.{memory_of, page_of_snapshot};
ghost use Rattle.sd_pagetable.specs.Nested.{inside, is_alive, put_at, value_at};
ghost use Rattle.sd_fold.specs.Overlay.{memory_over, pages_over, with_page};
ghost use Rattle.sd_fold.specs.Room.{HasPages, HasRoom};

use crate::changes::Changes;
use crate::overlay::Overlay;
use crate::room::{remove_page, remove_space};
use sd_areas::{PageNo, Snapshot, SnapshotPage, SpaceId};

/// Puts changes into a memory that has room for them.
pub(crate) fn settle(base: &mut Snapshot, overlay: Overlay)
    requires { HasRoom overlay.entries (memory_of base.old) }
    ensures made { memory_of base.new ≡ memory_over overlay.entries (memory_of base.old) }
    ensures checkpoint { base.new.checkpoint ≡ base.old.checkpoint }
{
    for (space, layer) in overlay {
        match layer {
            Some(changes) => settle_pages(base, space, changes),
            None => remove_space(base, space),
        }
    }
}

/// Puts the changes of a space into it.
fn settle_pages(base: &mut Snapshot, space: SpaceId, changes: Changes)
    requires alive { is_alive (memory_of base.old) space ≡ true }
    requires room { HasPages changes.entries (inside (memory_of base.old) space) }
    ensures made { memory_of base.new ≡ finmap.insert (memory_of base.old) space
        (pages_over changes.entries (inside (memory_of base.old) space)) }
    ensures checkpoint { base.new.checkpoint ≡ base.old.checkpoint }
{
    for (page, change) in changes {
        match change {
            Some(found) => replace_page(base, space, page, found),
            None => remove_page(base, space, page),
        }
    }
}

/// Puts a page in place of the one that is there.
fn replace_page(base: &mut Snapshot, space: SpaceId, page: PageNo, found: SnapshotPage)
    requires { IsSome (value_at (memory_of base.old) space page) }
    ensures made { memory_of base.new ≡ put_at (memory_of base.old) space page (page_of_snapshot found) }
    ensures checkpoint { base.new.checkpoint ≡ base.old.checkpoint }
{
    if let Some(pages) = base.spaces.get_mut(&space) {
        let _ = pages.insert(page, found);
    }
}
