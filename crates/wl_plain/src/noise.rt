//! The noise of a plan as disturbances.
ghost use Rattle.std.specs.Prelude.{◌≡◌, ◌≤◌, ◌<◌, ◌+◌, ◌^◌, All, IfOk, IfSome, OnOk, length, map, option_map, slice_get, unwrap_or};
ghost use Rattle.std.specs.List.{list_any};
ghost use Rattle.toml.specs.View.{view, table_view};
ghost use Rattle.wl_noise.specs.Noise.{IsNoise, bursts};
ghost use Rattle.wl_plain.specs.Tables.{no_value};
ghost use Rattle.wl_plain.specs.Noise.{IsPlaced, burst_data, burst_table, has_noise_keys, is_node_named, is_noise_key, is_right, most_in_all, names_node, noise_in, noise_said, noisy, noisy_of, spot_key, spot_of_node, spots, with_noise, written};
ghost use Rattle.wl_units.specs.declared.ratio.TheConstants.{LARGEST_WHOLE};

use crate::document::member_table;
use crate::measure::{Row, Units, plain_row};
use crate::tables::{
    array_at, has, positive_number_at, put_none, put_number, text_at, value_at, whole_number_at,
    with_member, without,
};
use std::alloc::{AllocError, Global};
use toml::{Table, Value};
use wl_limits::Limits;
use wl_noise::{Burst, Noise, bursts, mean_gap};

/// The greatest place on the cable: 2^31 - 1.
pub const LARGEST_PLACE: u64 = (1 << 31) - 1;

/// True of the keys of noise.
fn is_noise_key(key: &str) -> bool
    ensures { result ≡ is_noise_key key.now }
{
    key == "rate" || key == "length" || key == "seed" || key == "node" || key == "x"
}

/// True if noise has no other key.
fn has_noise_keys(table: &Table) -> bool
    ensures { result ≡ has_noise_keys (table_view table.now) }
{
    for (key, _) in table.iter() {
        if !is_noise_key(key.as_str()) {
            return false;
        }
    }
    true
}

/// True of the table of a node of this name.
fn is_node_named(name: &str, value: &Value) -> bool
    ensures { result ≡ is_node_named name.now (view value.now) }
{
    match value.as_table() {
        Some(table) => match text_at(table, "name") {
            Some(said) => said == name,
            None => false,
        },
        None => false,
    }
}

fn any_named(name: &str, values: &[Value]) -> bool
    ensures { result ≡ list_any (is_node_named name.now) (map view values.now) }
{
    for value in values {
        if is_node_named(name, value) {
            return true;
        }
    }
    false
}

/// True if a text is the name of a node.
fn names_node(name: Option<&str>, top: &Table) -> bool
    ensures { result ≡ names_node (option_map (λ t. t.now) name.entry) (table_view top.now) }
{
    match name {
        Some(name) => match array_at(top, "node") {
            Some(values) => any_named(name, values),
            None => false,
        },
        None => false,
    }
}

/// True if noise has its own keys alone, and says right where it is.
fn is_right(noise: &Table, top: &Table) -> bool
    ensures { result ≡ is_right (table_view noise.now) (table_view top.now) }
{
    if !has_noise_keys(noise) {
        return false;
    }
    if has(noise, "node") {
        return !has(noise, "x") && names_node(text_at(noise, "node"), top);
    }
    if !has(noise, "x") {
        return true;
    }
    match whole_number_at(noise, "x") {
        Some(x) => x <= LARGEST_PLACE,
        None => false,
    }
}

/// Returns the key that says where a burst is.
fn spot_key(noise: &Table) -> &'static str
    ensures { result.now ≡ spot_key (table_view noise.now) }
{
    if has(noise, "node") { "node" } else { "x" }
}

/// Returns where a node is on the cable.
fn spot_of_node(alloc: Global, value: &Value) -> Result<Value, AllocError>
    ensures { IfOk result (λ v. view v ≡ spot_of_node (view value.now)) }
{
    if let Some(table) = value.as_table() {
        if let Some(x) = value_at(table, "x") {
            return Ok(x.clone()?);
        }
    }
    Ok(Value::from(String::new(alloc)))
}

fn spots_of_nodes(alloc: Global, values: &[Value]) -> Result<Vec<Value>, AllocError>
    ensures { IfOk result (λ all. map view all.items ≡ map spot_of_node (map view values.now)) }
{
    let mut all = Vec::new(alloc);
    for value in values {
        all.push(spot_of_node(alloc, value)?)?;
    }
    Ok(all)
}

/// Returns where bursts can be: where the noise says, or else at the places of the nodes.
fn spots(alloc: Global, noise: &Table, top: &Table) -> Result<Vec<Value>, AllocError>
    ensures { IfOk result (λ all. map view all.items ≡ spots (table_view noise.now) (table_view top.now)) }
{
    if let Some(value) = value_at(noise, spot_key(noise)) {
        let mut all = Vec::new(alloc);
        all.push(value.clone()?)?;
        return Ok(all);
    }
    match array_at(top, "node") {
        Some(values) => spots_of_nodes(alloc, values),
        None => Ok(Vec::new(alloc)),
    }
}

/// Returns noise with these keys, at this number of places.
fn noise_said(units: Units, noise: &Table, places: u64) -> Option<Noise>
    requires { 0 < places }
    ensures said { result ≡ noise_said units (table_view noise.now) places }
    ensures right { IfSome result IsNoise }
    ensures places { IfSome result (λ said. said.places ≡ places) }
{
    let tick = units.tick?;
    let rate = positive_number_at(noise, "rate")?;
    let length = positive_number_at(noise, "length")?;
    let seed = whole_number_at(noise, "seed")?;
    let gap = mean_gap(tick, rate, length)?;
    Some(Noise {
        seed,
        gap,
        length,
        places,
    })
}

/// Returns the noise of a plan, if all is right.
fn noise_in(units: Units, noise: &Table, top: &Table, places: u64) -> Option<Noise>
    ensures said { result ≡ noise_in units (table_view noise.now) (table_view top.now) places }
    ensures right { IfSome result IsNoise }
    ensures places { IfSome result (λ said. said.places ≡ places) }
{
    if is_right(noise, top) && 0 < places {
        noise_said(units, noise, places)
    } else {
        None
    }
}

/// Returns a value of a list as another one.
fn spot_at(alloc: Global, spots: &[Value], place: u64) -> Result<Value, AllocError>
    requires { place < length spots.now }
    ensures { IfOk result (λ v. view v ≡ unwrap_or (slice_get (map view spots.now) place) no_value) }
{
    Ok(spots[place as usize].clone()?)
}

/// Returns a burst as the table of a disturbance.
fn burst_table(alloc: Global, key: &str, spots: &[Value], burst: Burst) -> Result<Table, AllocError>
    requires from { burst.from ≤ LARGEST_WHOLE }
    requires to { burst.to ≤ LARGEST_WHOLE }
    requires place { burst.place < length spots.now }
    ensures { IfOk result (λ t. table_view t ≡ burst_table key.now (map view spots.now) burst) }
{
    let mut table = Table::new(alloc);
    with_member(alloc, &mut table, key, spot_at(alloc, spots, burst.place)?)?;
    put_number(alloc, &mut table, "from", burst.from)?;
    put_number(alloc, &mut table, "to", burst.to)?;
    Ok(table)
}

/// Returns some bursts as tables of disturbances.
fn burst_tables(
    alloc: Global,
    key: &str,
    spots: &[Value],
    bursts: &[Burst],
) -> Result<Vec<Value>, AllocError>
    requires { All (IsPlaced (length spots.now)) bursts.now }
    ensures { IfOk result (λ all. map view all.items ≡ map (burst_data key.now (map view spots.now)) bursts.now) }
{
    let mut all = Vec::new(alloc);
    for burst in bursts {
        all.push(Value::from(burst_table(alloc, key, spots, *burst)?))?;
    }
    Ok(all)
}

/// Returns how many disturbances a plan may have.
#[tactic(auto, unfolding(crate::specs::Noise::most_in_all))]
fn most_in_all() -> usize
    ensures most { result ≡ most_in_all }
    ensures few { result < 2 ^ 16 }
{
    Limits::Wide.disturbance_limit()
}

/// Returns the bursts of noise as tables of disturbances: at most one more than the disturbances that a plan may have.
fn burst_values(
    alloc: Global,
    key: &str,
    spots: &[Value],
    said: Noise,
    end: u64,
) -> Result<Vec<Value>, AllocError>
    requires said { IsNoise said }
    requires end { end ≤ LARGEST_WHOLE }
    requires places { said.places ≡ length spots.now }
    ensures { IfOk result (λ all. map view all.items
        ≡ map (burst_data key.now (map view spots.now)) (bursts said end (most_in_all + 1))) }
{
    let all = bursts(alloc, said, end, most_in_all() + 1)?;
    burst_tables(alloc, key, spots, &all)
}

fn copied(alloc: Global, values: &[Value]) -> Result<Vec<Value>, AllocError>
    ensures { IfOk result (λ all. map view all.items ≡ map view values.now) }
{
    let mut all = Vec::new(alloc);
    for value in values {
        all.push(value.clone()?)?;
    }
    Ok(all)
}

/// Returns the disturbances that the plan has, unless the value is no array.
fn written(alloc: Global, top: &Table) -> Result<Option<Vec<Value>>, AllocError>
    ensures { IfOk result (λ o. option_map (λ all. map view all.items) o ≡ written (table_view top.now)) }
{
    if !has(top, "disturbance") {
        return Ok(Some(Vec::new(alloc)));
    }
    match array_at(top, "disturbance") {
        Some(values) => Ok(Some(copied(alloc, values)?)),
        None => Ok(None),
    }
}

/// Returns the disturbances of the plan and its bursts, if all is right and they are not too many.
fn noisy(
    alloc: Global,
    units: Units,
    noise: &Table,
    top: &Table,
) -> Result<Option<Vec<Value>>, AllocError>
    ensures { IfOk result (λ o. option_map (λ all. map view all.items) o
        ≡ noisy units (table_view noise.now) (table_view top.now)) }
{
    let spots = spots(alloc, noise, top)?;
    let said = noise_in(units, noise, top, spots.len() as u64);
    let Some(said) = said else {
        return Ok(None);
    };
    let Some(end) = whole_number_at(top, "end") else {
        return Ok(None);
    };
    let Some(mut all) = written(alloc, top)? else {
        return Ok(None);
    };
    let mut more = burst_values(alloc, spot_key(noise), &spots, said, end)?;
    all.append(&mut more)?;
    if all.len() <= most_in_all() {
        Ok(Some(all))
    } else {
        Ok(None)
    }
}

/// Returns the same of the value of a plan's noise, if it is a table.
fn noisy_of(
    alloc: Global,
    units: Units,
    noise: Option<&Table>,
    top: &Table,
) -> Result<Option<Vec<Value>>, AllocError>
    ensures { IfOk result (λ o. option_map (λ all. map view all.items) o
        ≡ noisy_of units (option_map (λ t. table_view t.now) noise.entry) (table_view top.now)) }
{
    match noise {
        Some(table) => {
            let plain = plain_row(alloc, units, Row::Noise, table)?;
            noisy(alloc, units, &plain, top)
        }
        None => Ok(None),
    }
}

/// Puts the bursts of a plan's noise in the place of the noise, as disturbances; or no value there, if they can't be had.
#[tactic(auto, unfolding(crate::specs::Noise::with_noise))]
pub(crate) fn remake_noise(alloc: Global, units: Units, top: &mut Table) -> Result<(), AllocError>
    ensures { OnOk result (table_view top.new ≡ with_noise units (table_view top.old)) }
{
    if !has(top, "noise") {
        return Ok(());
    }
    match noisy_of(alloc, units, member_table(top, "noise"), top)? {
        Some(all) => {
            without(top, "noise");
            with_member(alloc, top, "disturbance", Value::from(all))
        }
        None => put_none(alloc, top, "noise"),
    }
}
