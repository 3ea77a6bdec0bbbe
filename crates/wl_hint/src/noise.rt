//! What a hint adds on the noise of a plan.
use crate::units::{length_said, tick_in, time_said};
use std::alloc::{AllocError, Global};
use toml::{Table, Value};
use wl_noise::mean_gap;
use wl_setup::{LARGEST_NUMBER, LARGEST_SMALL, Text, value_named};

/// The keys that noise has to have, and those that it may have.
const REQUIRED: [&str; 3] = ["rate", "length", "seed"];

const OPTIONAL: [&str; 2] = ["node", "x"];

/// Returns the first key that noise lacks.
fn lacking(noise: &Table) -> Option<&'static str> {
    for key in REQUIRED {
        if value_named(noise, key).is_none() {
            return Some(key);
        }
    }
    None
}

/// Returns the first key that noise doesn't have.
fn strange(noise: &Table) -> Option<&str> {
    for key in noise.keys() {
        if !REQUIRED.contains(&key.as_str()) && !OPTIONAL.contains(&key.as_str()) {
            return Some(key.as_str());
        }
    }
    None
}

/// Returns the whole number at a key, if it is within its bounds.
fn number_from(noise: &Table, key: &str, least: i64) -> Option<u64> {
    let n = value_named(noise, key)?.as_integer()?;
    if n < least {
        return None;
    }
    let n = u64::try_from(n).ok()?;
    if n <= LARGEST_NUMBER { Some(n) } else { None }
}

/// Returns the ticks that a disturbance takes, if the noise says them.
fn length_in(top: &Table, noise: &Table) -> Option<u64> {
    match value_named(noise, "length")?.as_str() {
        Some(text) => match time_said(top, text) {
            Some(0) => None,
            ticks => ticks,
        },
        None => number_from(noise, "length", 1),
    }
}

/// True if a node has the name that the noise names.
fn has_node(top: &Table, noise: &Table) -> bool {
    let Some(name) = value_named(noise, "node").and_then(Value::as_str) else {
        return false;
    };
    let Some(nodes) = value_named(top, "node").and_then(Value::as_array) else {
        return false;
    };
    for node in nodes {
        if let Some(table) = node.as_table() {
            if value_named(table, "name").and_then(Value::as_str) == Some(name) {
                return true;
            }
        }
    }
    false
}

/// True if the plan has a node.
fn has_nodes(top: &Table) -> bool {
    match value_named(top, "node").and_then(Value::as_array) {
        Some(nodes) => !nodes.is_empty(),
        None => false,
    }
}

/// True if the noise says a place on the cable.
fn has_place(top: &Table, noise: &Table) -> bool {
    let Some(value) = value_named(noise, "x") else {
        return false;
    };
    let x = match value.as_str() {
        Some(text) => length_said(top, text),
        None => number_from(noise, "x", 0),
    };
    match x {
        Some(x) => x <= LARGEST_SMALL,
        None => false,
    }
}

/// Returns what is remarked of the place of noise; the empty text if nothing is wrong with it.
fn of_place(top: &Table, noise: &Table) -> &'static str {
    let at_node = value_named(noise, "node").is_some();
    let at_place = value_named(noise, "x").is_some();
    if at_node && at_place {
        " (it has `node` and `x`)"
    } else if at_node && !has_node(top, noise) {
        " (no node has the name at its `node`)"
    } else if at_place && !has_place(top, noise) {
        " (its `x` is no place on the cable)"
    } else if !at_node && !at_place && !has_nodes(top) {
        " (the plan has no node at whose place it could be)"
    } else {
        ""
    }
}

/// Returns what is remarked of the numbers of noise.
fn of_numbers(top: &Table, noise: &Table) -> &'static str {
    let Some(rate) = number_from(noise, "rate", 1) else {
        return " (its `rate` is no whole number from 1 on)";
    };
    let Some(length) = length_in(top, noise) else {
        return " (its `length` is no time of one or more whole ticks)";
    };
    if number_from(noise, "seed", 0).is_none() {
        return " (its `seed` is no whole number from 0 to 2^48 - 1)";
    }
    let place = of_place(top, noise);
    if !place.is_empty() {
        return place;
    }
    match mean_gap(tick_in(top).unwrap_or(1), rate, length) {
        Some(_) => " (with the plan's own it makes more than 256 disturbances)",
        None => " (at this rate a disturbance begins before the one before it ends)",
    }
}

/// Returns what is remarked of the noise of a plan.
pub(crate) fn of_noise(alloc: Global, top: &Table) -> Result<String, AllocError> {
    let Some(noise) = value_named(top, "noise").and_then(Value::as_table) else {
        return String::from_str(alloc, " (it is no table)");
    };
    if let Some(key) = lacking(noise) {
        return format!(in alloc; " (it lacks `{key}`)");
    }
    match strange(noise) {
        Some(key) => {
            let key = Text::new(alloc, key)?;
            format!(in alloc; " (it has no key `{key}`)")
        }
        None => String::from_str(alloc, of_numbers(top, noise)),
    }
}
