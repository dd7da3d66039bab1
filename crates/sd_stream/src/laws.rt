//! Laws of streams, each the contract of a function that does nothing.
ghost use Rattle.std.specs.Prelude.{◌≡◌, ◌≤◌, ◌++◌, ℕ, List, Option, length};
ghost use Rattle.sd_stream.specs.Laws.{IsInput};
ghost use Rattle.sd_stream.specs.Progress.{Progress, progress_text};
ghost use Rattle.sd_stream.specs.Reading.{IsHeadFault, IsRecordFault};
ghost use Rattle.sd_stream.specs.Stream.{Group, IsStream, stream_text};
ghost use Rattle.sd_stream.specs.Tallies.{HasTaken};
ghost use Rattle.sd_stream.specs.declared.base.Base.{Base};
ghost use Rattle.sd_stream.specs.declared.stream_error.StreamError.{StreamError};
ghost use Rattle.sd_stream.specs.declared.tally.Tally.{Tally};

/// No two streams have the same bytes. So what was written to its end is read, to its end, as the same checkpoints of
/// the same base, image by image.
pub fn one_stream()
    ensures { (base other : Option Base) (groups others : List Group)
        → IsStream base groups → IsStream other others
        → stream_text base groups ≡ stream_text other others
        → (base ≡ other) × (groups ≡ others) }
{}

/// A stream is read to its end, unless the input fails: neither its head, nor what comes after a beginning of it that
/// was read, is refused, and the bytes of an image are there.
pub fn streams_are_read()
    ensures head { (base : Option Base) (groups : List Group) (error : StreamError)
        → IsStream base groups → IsHeadFault (stream_text base groups) error → IsInput error }
    ensures items { (tally : Tally) (p : Progress) (base : Option Base) (groups : List Group)
        (rest : List ℕ) (error : StreamError)
        → IsStream base groups → progress_text p tally.left ++ rest ≡ stream_text base groups
        → HasTaken tally p → tally.left ≡ 0 → IsRecordFault tally rest error → IsInput error }
    ensures bytes { (tally : Tally) (p : Progress) (base : Option Base) (groups : List Group)
        (rest : List ℕ)
        → IsStream base groups → progress_text p tally.left ++ rest ≡ stream_text base groups
        → HasTaken tally p → tally.left ≤ length rest }
{}
