//! Random lists of events, with a crash after each of their device calls.
use std::alloc::Global;
use std::io;
use world_trials::{Figures, Trouble, try_by_chance};

/// Runs so many lists, from a seed on. Returns the first seed whose list went wrong.
fn search(
    alloc: Global,
    first: u64,
    lists: u64,
    figures: &mut Figures,
) -> Result<Option<u64>, Trouble> {
    let mut wrong = None;
    for turn in 0..lists {
        let seed = first.saturating_add(turn);
        try_by_chance(alloc, seed, figures)?;
        if !figures.is_right() && wrong.is_none() {
            wrong = Some(seed);
        }
    }
    Ok(wrong)
}

/// Runs so many lists, from a seed on, and prints whether all went right, with what was counted where that is asked
/// for. Returns the exit status.
pub(crate) fn tell(
    rt: &(impl Print + Eprint),
    alloc: Global,
    first: u64,
    lists: u64,
    counts: bool,
) -> io::Result<u8> {
    let mut figures = Figures::default();
    let status = match search(alloc, first, lists, &mut figures) {
        Ok(None) => {
            println!(rt; "right")?;
            0
        }
        Ok(Some(seed)) => {
            eprintln!(rt; "wrong at seed {seed}")?;
            1
        }
        Err(trouble) => {
            eprintln!(rt; "{trouble:?}")?;
            1
        }
    };
    if counts {
        println!(rt; "{figures:#?}")?;
    }
    Ok(status)
}
