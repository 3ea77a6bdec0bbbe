//! The map of a sweep.
ghost use Rattle.std.specs.Prelude.{◌≡◌, ◌&&◌, IfOk, OnOk, string_bytes};
ghost use Rattle.std.specs.List.{list_all};
ghost use Rattle.wl_report.specs.Lines.{GrowsBy};
ghost use Rattle.wl_map.specs.Maps.{axes_text, cell_in, cells_text, map_text};
ghost use Rattle.wl_map.specs.Rows.{held, row_alone, with_ranges};
ghost use Rattle.wl_sweep.specs.Findings.{is_clean};
ghost use Rattle.wl_sweep.specs.Sweeps.{all_findings, row_findings};

use crate::axes::push_axes;
use crate::cell::push_cell;
use crate::laws::a_row_alone_finds_the_same;
use crate::rows::{held_ranges, ranges_alone};
use crate::template::{HEAD, SCRIPT, TO_CELLS};
use std::alloc::{AllocError, Global};
use std::thread::Threads;
use std::time::Clock;
use wl_level::Listed;
use wl_page::push_part;
use wl_sweep::{Sweep, SweptRange, row_count};

/// True if both are.
fn both(one: bool, other: bool) -> bool
    ensures { result ≡ (one && other) }
{
    one && other
}

/// Runs a row of these ranges alone and adds its cell. Returns whether each member is clean. Only the ranges of `alone` change: they are those
/// of the row afterwards.
fn push_row<H: Threads + Sync + Eprint + Clock>(
    rt: &H,
    alloc: Global,
    text: &mut String,
    alone: &mut Sweep,
    ranges: &[SweptRange],
    row: u64,
    workers: u8,
) -> Result<bool, AllocError>
    ensures alone { OnOk result (alone.new ≡ row_alone (with_ranges alone.old ranges.now) row) }
    ensures text { OnOk result (GrowsBy text.old text.new (cell_in (with_ranges alone.old ranges.now) row)) }
    ensures clean { IfOk result (λ clean. clean
        ≡ list_all is_clean (row_findings (with_ranges alone.old ranges.now) row)) }
{
    a_row_alone_finds_the_same();
    alone.ranges = ranges_alone(alloc, ranges, row)?;
    push_cell(rt, alloc, text, alone, workers)
}

/// Runs the rows of these ranges, each alone, and adds their cells. Returns whether each member is clean. The ranges of the sweep that is handed
/// over are not used.
fn push_cells<H: Threads + Sync + Eprint + Clock>(
    rt: &H,
    alloc: Global,
    text: &mut String,
    sweep: Sweep,
    ranges: &[SweptRange],
    workers: u8,
) -> Result<bool, AllocError>
    ensures text { OnOk result (GrowsBy text.old text.new (cells_text (with_ranges sweep ranges.now))) }
    ensures clean { IfOk result (λ clean. clean ≡ list_all is_clean (all_findings (with_ranges sweep ranges.now))) }
{
    let mut alone = sweep;
    let mut clean = true;
    for row in 0..row_count(ranges) {
        let here = push_row(rt, alloc, text, &mut alone, ranges, row, workers)?;
        clean = both(clean, here);
    }
    Ok(clean)
}

/// Returns the sweep with each range after the second held at its first value.
fn held(alloc: Global, sweep: Sweep) -> Result<Sweep, AllocError>
    ensures { IfOk result (λ made. made ≡ held sweep) }
{
    let ranges = held_ranges(alloc, sweep.ranges.as_slice())?;
    Ok(Sweep { ranges, ..sweep })
}

/// Runs the map of a sweep. Returns the texts of its axes and of its cells, and whether each member is clean.
fn texts<H: Threads + Sync + Eprint + Clock>(
    rt: &H,
    alloc: Global,
    sweep: Sweep,
    worst: bool,
    workers: u8,
) -> Result<(String, String, bool), AllocError>
    ensures axes { IfOk result (λ r. string_bytes r.0 ≡ axes_text (held sweep) worst) }
    ensures cells { IfOk result (λ r. string_bytes r.1 ≡ cells_text (held sweep)) }
    ensures clean { IfOk result (λ r. r.2 ≡ list_all is_clean (all_findings (held sweep))) }
{
    let sweep = held(alloc, sweep)?;
    let mut axes = String::new(alloc);
    push_axes(&mut axes, &sweep, worst)?;
    let mut cells = String::new(alloc);
    let Sweep {
        text,
        ranges,
        options,
    } = sweep;
    let begun = Sweep {
        text,
        ranges: Listed::new(alloc),
        options,
    };
    let clean = push_cells(rt, alloc, &mut cells, begun, ranges.as_slice(), workers)?;
    Ok((axes, cells, clean))
}

/// Returns the map of a sweep as a page of HTML, and whether each member that was run is clean; `worst` says whether the text has a frame more
/// for each sender.
///
/// The first two ranges are the axes, the second across; each other range is held at its first value. A cell is a row of the sweep: its colour,
/// what a sweep of that row alone says, and the first error of the first member that isn't clean. With one range there is one row of cells, and
/// without a range one cell. The page is the same for each number of threads. Refused only when out of memory.
pub fn map_page<H: Threads + Sync + Eprint + Clock>(
    rt: &H,
    alloc: Global,
    sweep: Sweep,
    worst: bool,
    workers: u8,
) -> Result<(Vec<u8>, bool), AllocError>
    ensures page { IfOk result (λ r. r.0.items ≡ map_text sweep worst) }
    ensures clean { IfOk result (λ r. r.1 ≡ list_all is_clean (all_findings (held sweep))) }
{
    let (axes, cells, clean) = texts(rt, alloc, sweep, worst, workers)?;
    let mut page = Vec::new(alloc);
    push_part(&mut page, HEAD, axes.as_bytes())?;
    push_part(&mut page, TO_CELLS, cells.as_bytes())?;
    page.extend_from_slice(SCRIPT.as_bytes())?;
    Ok((page, clean))
}
