ghost use Rattle.std.specs.Prelude.{◌≡◌};
ghost use Rattle.sd_tables.specs.Runs.{change_of};

use crate::entry::Entry;
use sd_areas::Prot;

/// How mapped pages of a run change.
#[derive(Clone, Copy)]
pub enum RunChange {
    /// They are mapped anew, with these permissions.
    Renew(Prot),
    /// They get these permissions and are write-protected.
    Protect(Prot),
}

impl RunChange {
    /// The entry that it makes of one, or none where the page has to give up its frame.
    #[inline]
    pub(crate) fn of(self, entry: Entry) -> Option<Entry>
        ensures { result ≡ change_of self entry }
    {
        match self {
            RunChange::Renew(prot) => match entry.frame {
                Some(_) => None,
                None => Some(Entry::fresh(prot)),
            },
            RunChange::Protect(prot) => Some(entry.protected(prot)),
        }
    }
}
