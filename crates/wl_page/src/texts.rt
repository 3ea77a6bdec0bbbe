//! The page of a run.
ghost use Rattle.std.specs.Prelude.{◌≡◌, IfOk, OnOk};
ghost use Rattle.wl_page.specs.Page.{page_of, texts_of, with_part, with_script};

use crate::drawing::DRAWING;
use crate::escape::push_escaped;
use crate::moving::MOVING;
use crate::reading::READING;
use crate::tables::TABLES;
use crate::template::{
    HEAD, TO_MARGIN, TO_PART, TO_PLAN, TO_REPORT, TO_SCRIPT, TO_SETTINGS, TO_TRACE, TO_TRAFFIC,
    TO_WAVE,
};
use std::alloc::{AllocError, Global};

/// The texts of a run that a page shows, as the program's commands write them.
#[derive(Clone, Copy, Debug)]
pub struct Texts<'a> {
    /// What is doubtful of the plan, and the figures of its nodes.
    pub figures: &'a [u8],
    /// The settings of the nodes, and the delays between them.
    pub settings: &'a [u8],
    /// Whether the bus works with any phases and clocks within their tolerance, and with how much to spare.
    pub margin: &'a [u8],
    /// How busy the bus was, and how long its messages waited.
    pub traffic: &'a [u8],
    /// The report.
    pub report: &'a [u8],
    /// The plan itself.
    pub plan: &'a [u8],
    /// Which part of the run trace and waveform have, and the end of the run; no letter if they have all of it.
    pub part: &'a [u8],
    /// What happened to each node, and where.
    pub trace: &'a [u8],
    /// The waveform, as value changes.
    pub wave: &'a [u8],
}

/// Adds a part of a page's layout, and after it a text as HTML shows it.
///
/// Refused only when out of memory.
pub fn push_part(page: &mut Vec<u8>, part: &str, text: &[u8]) -> Result<(), AllocError>
    ensures { OnOk result (page.new.items ≡ with_part page.old.items part.now text.now) }
{
    page.extend_from_slice(part.as_bytes())?;
    push_escaped(page, text)
}

/// Adds the script to a page, in its parts.
///
/// Refused only when out of memory.
fn push_script(page: &mut Vec<u8>) -> Result<(), AllocError>
    ensures { OnOk result (page.new.items ≡ with_script page.old.items) }
{
    page.extend_from_slice(TO_SCRIPT.as_bytes())?;
    page.extend_from_slice(READING.as_bytes())?;
    page.extend_from_slice(DRAWING.as_bytes())?;
    page.extend_from_slice(MOVING.as_bytes())?;
    page.extend_from_slice(TABLES.as_bytes())
}

/// Returns the page of a run: its texts, each once and whole, within the layout and beside the script that draws them.
///
/// Refused only when out of memory.
pub fn page(alloc: Global, texts: &Texts) -> Result<Vec<u8>, AllocError>
    ensures { IfOk result (λ page. page.items ≡ page_of (texts_of texts.now)) }
{
    let mut page = Vec::new(alloc);
    push_part(&mut page, HEAD, texts.figures)?;
    push_part(&mut page, TO_SETTINGS, texts.settings)?;
    push_part(&mut page, TO_MARGIN, texts.margin)?;
    push_part(&mut page, TO_TRAFFIC, texts.traffic)?;
    push_part(&mut page, TO_REPORT, texts.report)?;
    push_part(&mut page, TO_PLAN, texts.plan)?;
    push_part(&mut page, TO_PART, texts.part)?;
    push_part(&mut page, TO_TRACE, texts.trace)?;
    push_part(&mut page, TO_WAVE, texts.wave)?;
    push_script(&mut page)?;
    Ok(page)
}
