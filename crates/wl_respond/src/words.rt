//! What is said of a message, and of what lacks, as lines.
ghost use Rattle.std.specs.Prelude.{◌≡◌, ◌++◌, ◌∷◌, [], ◌<◌, IfOk, OnOk, length, option_map, string_bytes};
ghost use Rattle.wl_lines.specs.Shapes.{TextLine, form_of};
ghost use Rattle.wl_report.specs.Lines.{GrowsBy};
ghost use Rattle.wl_respond.specs.Texts.{astray_lack, blocker, bound_values, deadline_values, deciding_words, every_words, id_words, reason_words, lacking_line, line_of_message, load_line, message_line, message_values, met_word, parts_values, say, told_message, told_values, turning_words};

use crate::asked::Asked;
use crate::message::MessageWait;
use crate::parts::{Line, Met, Parts};
use crate::premise::Lacking;
use crate::shapes::{alone_shape, lack_shape, load_shape, message_shape, proof_shape};
use crate::table::ONCE;
use std::alloc::{AllocError, Global};
use wl_lines::{Shape, TextLine};
use wl_margin::{Hundredths, Thousandths};
use wl_report::push_id;
use wl_setup::Names;

/// Returns the line with one value.
pub(crate) fn line_with(
    alloc: Global,
    shape: &'static Shape,
    value: String,
) -> Result<TextLine, AllocError>
    ensures { IfOk result (λ line. line ≡ say (form_of shape.now) (string_bytes value ∷ [])) }
{
    let mut line = TextLine::new(alloc, shape);
    line.add(value)?;
    Ok(line)
}

/// Returns the line with one value, which is a text.
pub(crate) fn line_of_text(
    alloc: Global,
    shape: &'static Shape,
    value: &str,
) -> Result<TextLine, AllocError>
    ensures { IfOk result (λ line. line ≡ say (form_of shape.now) (value.now ∷ [])) }
{
    let mut line = TextLine::new(alloc, shape);
    line.say(value)?;
    Ok(line)
}

/// Adds that a clock is outside of its tolerance.
fn push_astray(text: &mut String, a: &str) -> Result<(), AllocError>
    ensures { OnOk result (GrowsBy text.old text.new (astray_lack a.now)) }
{
    write!(text, "the clock of {a} is outside of its tolerance")
}

/// Adds that a clock has several rates.
fn push_turning(text: &mut String, a: &str) -> Result<(), AllocError>
    ensures { OnOk result (GrowsBy text.old text.new (turning_words a.now)) }
{
    write!(text, "the clock of {a} has several rates")
}

/// Adds that a node may decide a second time.
fn push_deciding(text: &mut String, a: &str) -> Result<(), AllocError>
    ensures { OnOk result (GrowsBy text.old text.new (deciding_words a.now)) }
{
    write!(
        text,
        "twelve bits after an edge a bit of another node may come to {a} after its sample"
    )
}

/// Adds why a premise lacks.
fn push_lack(text: &mut String, names: &Names, lacking: Lacking) -> Result<(), AllocError>
    ensures { OnOk result (GrowsBy text.old text.new (reason_words names.now lacking)) }
{
    match lacking {
        Lacking::Astray(i) => push_astray(text, names.name_of(i as usize)),
        Lacking::Turning(i) => push_turning(text, names.name_of(i as usize)),
        Lacking::Margin => text.push_str(
            "margin doesn't say of this plan that it holds for any senders, proved",
        ),
        Lacking::Deciding(i) => push_deciding(text, names.name_of(i as usize)),
        Lacking::Table => text.push_str(
            "a frame is ready before its node's eleventh sample, or waits out of order",
        ),
        Lacking::Bounds => text.push_str("no waits pass the inequalities"),
    }
}

/// Returns the first line: that the bounds are proved, or what lacks.
pub(crate) fn lacking_line(
    alloc: Global,
    names: &Names,
    lacking: Option<Lacking>,
) -> Result<TextLine, AllocError>
    ensures { IfOk result (λ line. line ≡ lacking_line names.now lacking) }
{
    match lacking {
        None => line_of_text(alloc, proof_shape(), "waits_are_bounded"),
        Some(lack) => {
            let mut text = String::new(alloc);
            push_lack(&mut text, names, lack)?;
            line_with(alloc, lack_shape(), text)
        }
    }
}

/// Returns the line of how busy the bus is at most.
pub(crate) fn load_line(alloc: Global, load: u128) -> Result<TextLine, AllocError>
    ensures { IfOk result (λ line. line ≡ load_line load) }
{
    let mut line = TextLine::new(alloc, load_shape());
    line.show(&Hundredths(load))?;
    Ok(line)
}

/// Adds an identifier.
fn add_id(alloc: Global, line: &mut TextLine, message: &MessageWait) -> Result<(), AllocError>
    ensures { OnOk result (line.new ≡ record line.old { values = line.old.values ++ id_words message.now ∷ [] }) }
{
    let mut id = String::new(alloc);
    push_id(&mut id, &message.frame)?;
    line.add(id)
}

/// Adds how often its frames come.
fn add_every(line: &mut TextLine, every: u64) -> Result<(), AllocError>
    ensures { OnOk result (line.new ≡ record line.old { values = line.old.values ++ every_words every ∷ [] }) }
{
    if every == ONCE {
        line.say("-")
    } else {
        line.show(&every)
    }
}

/// Adds what a message is.
fn add_message(
    alloc: Global,
    line: &mut TextLine,
    names: &Names,
    asked: &Asked,
    jitter: u128,
) -> Result<(), AllocError>
    ensures { OnOk result (line.new ≡ record line.old {
      values = line.old.values ++ message_values names.now asked.now jitter;
    }) }
{
    let node = asked.message.node;
    let bits = asked.message.bits as u64 + 10;
    line.show(&node)?;
    line.say(names.name_of(node as usize))?;
    add_id(alloc, line, &asked.message)?;
    line.show(&bits)?;
    add_every(line, asked.every)?;
    line.show(&Thousandths(jitter))
}

/// Adds how long it waits at most.
fn add_bound(line: &mut TextLine, parts: Option<Parts>) -> Result<(), AllocError>
    ensures { OnOk result (line.new ≡ record line.old { values = line.old.values ++ bound_values parts }) }
{
    match parts {
        None => {
            line.say("-")?;
            line.say("-")
        }
        Some(parts) => {
            line.show(&parts.quanta)?;
            line.show(&Thousandths(parts.bound))
        }
    }
}

/// Returns the word for whether a deadline is met.
fn met_word(met: Met) -> &'static str
    ensures { result.now ≡ met_word met }
{
    match met {
        Met::InTime => "met",
        Met::Late => "missed",
        Met::Open => "-",
    }
}

/// Adds the deadline, and whether it is met.
fn add_deadline(line: &mut TextLine, told: &Line) -> Result<(), AllocError>
    ensures { OnOk result (line.new ≡ record line.old { values = line.old.values ++ deadline_values told.now }) }
{
    match told.deadline {
        None => line.say("-")?,
        Some(time) => line.show(&Thousandths(time))?,
    }
    line.say(met_word(told.met))
}

/// Adds the parts of a bound.
fn add_times(line: &mut TextLine, parts: Option<Parts>) -> Result<(), AllocError>
    ensures { OnOk result (line.new ≡ record line.old { values = line.old.values ++ parts_values parts }) }
{
    match parts {
        None => {
            line.say("-")?;
            line.say("-")?;
            line.say("-")?;
            line.say("-")?;
            line.say("-")
        }
        Some(parts) => {
            line.show(&Thousandths(parts.start))?;
            line.show(&Thousandths(parts.blocked))?;
            line.show(&Thousandths(parts.queued))?;
            line.show(&Thousandths(parts.others))?;
            line.show(&Thousandths(parts.frame))
        }
    }
}

/// Adds what is said of a message, but for the message that blocks it.
fn add_told(
    alloc: Global,
    line: &mut TextLine,
    names: &Names,
    asked: &Asked,
    told: &Line,
) -> Result<(), AllocError>
    ensures { OnOk result (line.new ≡ record line.old {
      values = line.old.values ++ told_values names.now asked.now told.now;
    }) }
{
    add_message(alloc, line, names, asked, told.jitter)?;
    add_bound(line, told.parts)?;
    add_deadline(line, told)?;
    add_times(line, told.parts)
}

/// Returns the message that blocks, if it is one of these.
fn blocker<'a>(asked: &'a [Asked], parts: Option<Parts>) -> Option<&'a Asked>
    ensures { option_map (λ a. a.now) result ≡ blocker asked.now parts }
{
    asked.get(parts?.by?)
}

/// Returns the line of a message.
fn told_message(
    alloc: Global,
    names: &Names,
    all: &[Asked],
    asked: &Asked,
    told: &Line,
) -> Result<TextLine, AllocError>
    ensures { IfOk result (λ line. line ≡ told_message names.now all.now asked.now told.now) }
{
    match blocker(all, told.parts) {
        None => {
            let mut line = TextLine::new(alloc, alone_shape());
            add_told(alloc, &mut line, names, asked, told)?;
            line.say("-")?;
            line.say("-")?;
            Ok(line)
        }
        Some(by) => {
            let mut line = TextLine::new(alloc, message_shape());
            add_told(alloc, &mut line, names, asked, told)?;
            line.say(names.name_of(by.message.node as usize))?;
            add_id(alloc, &mut line, &by.message)?;
            Ok(line)
        }
    }
}

/// Returns the line of message `e`.
pub(crate) fn line_of_message(
    alloc: Global,
    names: &Names,
    asked: &[Asked],
    lines: &[Line],
    e: usize,
) -> Result<TextLine, AllocError>
    requires message { e < length asked.now }
    requires line { e < length lines.now }
    ensures { IfOk result (λ line. line ≡ line_of_message names.now asked.now lines.now e) }
{
    told_message(alloc, names, asked, &asked[e], &lines[e])
}
