//! Writes of data pages that are out at once: in each order in which they are made, with a crash after each.
ghost use Rattle.std.specs.Prelude.{◌<◌};

use std::alloc::{AllocError, Global};
use world_trials::{Failing, Line, Trouble, store_of, try_lines};

/// Of so many orders, one is tried. tests/quick raises it in its copy.
const EACH: usize = 1;

/// The events that format a slot which was never written, and the freeze.
const BEFORE_THE_PASS: usize = 10;

/// The steps of a page: it is visited, its eight sectors are copied, and its write is taken up.
const OF_A_PAGE: usize = 10;

/// A checkpoint of one page.
const ONE: &[Line] = &[
    Line::Map(1),
    Line::Store(0, 9),
    Line::Begin(0),
    Line::Finish,
];

/// How many orders so many things have, of which there are four at most.
fn orders(count: u64) -> u64
    ensures { 0 < result }
{
    match count {
        0 | 1 => 1,
        2 => 2,
        3 => 6,
        _ => 24,
    }
}

/// The place, among those that are left, of what comes next in an order.
fn place_in(order: u64, left: u64) -> u64 {
    order / orders(left.saturating_sub(1)) % left.max(1)
}

/// Adds a checkpoint of pages that aren't all zeros: all their writes are out at once, are made in one order and handed
/// in in another.
fn add_orders(lines: &mut Vec<Line>, count: u64, made: u64, handed: u64) -> Result<(), AllocError> {
    lines.push(Line::Map(count))?;
    for page in 0..count {
        lines.push(Line::Store(page.saturating_mul(4096), 1 + (page % 200) as u8))?;
    }
    lines.push(Line::Begin(0))?;
    lines.push(Line::Steps(BEFORE_THE_PASS))?;
    lines.push(Line::TakeUps(OF_A_PAGE.saturating_mul(count as usize)))?;
    for left in (1..=count).rev() {
        lines.push(Line::PerformAt(place_in(made, left)))?;
    }
    for left in (1..=count).rev() {
        lines.push(Line::HandInAt(place_in(handed, left)))?;
    }
    lines.push(Line::Finish)?;
    Ok(())
}

/// Whether a crash after each call leaves what it may, and the checkpoint is acknowledged.
fn is_right(alloc: Global, count: u64, made: u64, handed: u64) -> Result<bool, Trouble> {
    let mut lines = Vec::new(alloc);
    add_orders(&mut lines, count, made, handed)?;
    let store = store_of(alloc, ONE, &lines)?;
    let figures = try_lines(alloc, &store, &lines, Failing::Nothing)?;
    let crashed = figures.pending > 0 && figures.last > 0;
    Ok(figures.is_right() && crashed && figures.acked == 1)
}

/// Whether that is so where so many writes are made in each order, and handed in in each order once.
fn each_order(alloc: Global, count: u64) -> Result<bool, Trouble> {
    let all = orders(count);
    for made in (0..all).step_by(EACH) {
        if !is_right(alloc, count, made, all.saturating_sub(1 + made))? {
            return Ok(false);
        }
    }
    Ok(true)
}

#[test]
fn each_order_of_up_to_three_writes(rt: HostRuntime) -> Result<(), Trouble> {
    for count in 1..=3 {
        assert!(rt; each_order(rt.alloc(), count)?);
    }
    Ok(())
}

#[test]
fn each_order_of_four_writes(rt: HostRuntime) -> Result<(), Trouble> {
    assert!(rt; each_order(rt.alloc(), 4)?);
    Ok(())
}
