//! The records of a simulation whose nodes only count, the changes of its nodes' drives, and their totals.
ghost use Rattle.std.specs.Prelude.{◌≡◌, ◌<◌, ◌≤◌, ℕ, IfOk, length, map};
ghost use Rattle.std.specs.List.{range_with_len};
ghost use Rattle.wl_plan.specs.Checked.{IsChecked};
ghost use Rattle.wl_plan.specs.declared.plan.Plan.{Plan as GivenPlan};
ghost use Rattle.wl_plan.specs.PlanLine.{table_of};
ghost use Rattle.wl_serial.specs.Outcome.{counted_of, drives_of, node_outcome_of, node_totals, outcome_of};
ghost use Rattle.wl_serial.specs.Records.{outcome_records};
ghost use Rattle.wl_serial.specs.Running.{AreRunning, IsRunning, NoneBefore};

use crate::checked::Checked;
use crate::engine::simulate;
use crate::laws::outcome_is_recordable;
use crate::outcome::{Changes, Counted, Drives};
use crate::records::push_node;
use crate::running_node::Running;
use std::alloc::{AllocError, Global};
use wl_level::Listed;
use wl_plan::Plan;
use wl_record_core::Record;

/// Returns the records of the outcome of [`run_serial`](crate::run_serial), as [`records_of`](crate::records_of) does. No sample, frame or
/// phase error is copied or listed for them, which takes less memory and time.
///
/// Refused only when out of memory.
pub fn run_records(alloc: Global, plan: &Plan) -> Result<Vec<Record>, AllocError>
    requires { IsChecked plan.now }
    ensures { IfOk result (λ records. records.items ≡ outcome_records (outcome_of plan.now)) }
{
    let checked = Checked::new(plan);
    let nodes = simulate(alloc, &checked, false)?;
    records_at_end(alloc, &checked, &nodes)
}

/// Returns the ticks at which a node's drive changed; it has run all its quanta before the end.
fn changes_at_end(node: &Running) -> &[u64]
    ensures { (plan : GivenPlan) (i : ℕ) → IsChecked plan → i < length plan.nodes → IsRunning plan i node.now
        → plan.end ≤ node.now.next → result.now ≡ table_of plan i }
{
    wl_plan::checked_is_sound();
    wl_plan::simulation_laws();
    node.changes.as_slice()
}

/// Returns the records of the nodes; all have run to the end.
fn records_at_end(
    alloc: Global,
    plan: &Checked,
    running: &[Running],
) -> Result<Vec<Record>, AllocError>
    requires running { AreRunning plan.now running.now }
    requires ended { NoneBefore plan.now.end running.now }
    ensures { IfOk result (λ records. records.items ≡ outcome_records (outcome_of plan.now)) }
{
    plan.laws();
    outcome_is_recordable();
    let mut records = Vec::new(alloc);
    for (i, node) in running.iter().enumerate() {
        push_node(&mut records, i as u8, changes_at_end(node), plan.end())?;
    }
    Ok(records)
}

/// Returns the ticks at which the drive of each node changed, in the outcome of [`run_serial`](crate::run_serial). Nothing else of it is
/// listed, which takes less memory and time.
///
/// Refused only when out of memory.
pub fn run_drives(alloc: Global, plan: &Plan) -> Result<Drives, AllocError>
    requires { IsChecked plan.now }
    ensures { IfOk result (λ drives. drives ≡ drives_of (outcome_of plan.now)) }
{
    let checked = Checked::new(plan);
    let nodes = simulate(alloc, &checked, false)?;
    let drives = drives_at_end(alloc, &checked, nodes)?;
    Ok(drives)
}

/// Returns the ticks at which a node's drive changed; it has run all its quanta before the end.
fn drive_at_end(node: Running) -> Changes
    ensures { (plan : GivenPlan) (i : ℕ) → IsChecked plan → i < length plan.nodes → IsRunning plan i node
        → plan.end ≤ node.next → result ≡ table_of plan i }
{
    wl_plan::checked_is_sound();
    wl_plan::simulation_laws();
    node.changes
}

/// Returns those of the nodes; all have run to the end.
fn drives_at_end(alloc: Global, plan: &Checked, running: Vec<Running>) -> Result<Drives, AllocError>
    requires running { AreRunning plan.now running.items }
    requires ended { NoneBefore plan.now.end running.items }
    ensures { IfOk result (λ drives. drives ≡ map (table_of plan.now) (range_with_len 0 (length plan.now.nodes))) }
{
    plan.laws();
    let mut drives = Listed::new(alloc);
    for r in running {
        drives.push(drive_at_end(r))?;
    }
    Ok(drives)
}

/// Returns the changes of [`run_drives`] and what a report says of the outcome ([`run_totals`](crate::run_totals)), by one run.
///
/// Refused only when out of memory.
pub fn run_counted(alloc: Global, plan: &Plan) -> Result<Counted, AllocError>
    requires { IsChecked plan.now }
    ensures { IfOk result (λ counted. counted ≡ counted_of (outcome_of plan.now)) }
{
    let checked = Checked::new(plan);
    let nodes = simulate(alloc, &checked, false)?;
    let counted = counted_at_end(alloc, &checked, nodes)?;
    Ok(counted)
}

/// Returns the changes and the totals of the nodes; all have run to the end.
fn counted_at_end(
    alloc: Global,
    plan: &Checked,
    running: Vec<Running>,
) -> Result<Counted, AllocError>
    requires running { AreRunning plan.now running.items }
    requires ended { NoneBefore plan.now.end running.items }
    ensures drives { IfOk result (λ counted. counted.drives
        ≡ map (table_of plan.now) (range_with_len 0 (length plan.now.nodes))) }
    ensures totals { IfOk result (λ counted. counted.totals
        ≡ map (λ i. node_totals (node_outcome_of plan.now i)) (range_with_len 0 (length plan.now.nodes))) }
{
    plan.laws();
    let mut drives = Listed::new(alloc);
    let mut totals = Listed::new(alloc);
    for r in running {
        let (changes, counted) = r.counted();
        drives.push(changes)?;
        totals.push(counted)?;
    }
    Ok(Counted { drives, totals })
}
