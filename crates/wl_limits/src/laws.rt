//! A law of the limits, as the contract of a function that does nothing.

ghost use Rattle.std.specs.Prelude.{◌≤◌};
ghost use Rattle.wl_limits.specs.Limits.{offset_limit, from_limit, node_limit, end_limit, quanta_limit, short_quanta_limit, edge_limit, queue_limit, disturbance_limit};
ghost use Rattle.wl_limits.specs.declared.Limits.{Limits};
ghost use Rattle.wl_limits.specs.declared.Limits.TheVariants.{Wide};

/// Law: whatever the limits, what they allow the wide ones allow.
pub fn wide_limits_hold()
    ensures offset { (limits : Limits) → offset_limit limits ≤ offset_limit Wide }
    ensures from { (limits : Limits) → from_limit limits ≤ from_limit Wide }
    ensures nodes { (limits : Limits) → node_limit limits ≤ node_limit Wide }
    ensures end { (limits : Limits) → end_limit limits ≤ end_limit Wide }
    ensures quanta { (limits : Limits) → quanta_limit limits ≤ quanta_limit Wide }
    ensures short { (limits : Limits) → short_quanta_limit limits ≤ short_quanta_limit Wide }
    ensures edges { (limits : Limits) → edge_limit limits ≤ edge_limit Wide }
    ensures queued { (limits : Limits) → queue_limit limits ≤ queue_limit Wide }
    ensures disturbances { (limits : Limits) → disturbance_limit limits ≤ disturbance_limit Wide }
{}
