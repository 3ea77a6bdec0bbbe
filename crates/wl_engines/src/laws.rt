//! Laws of merging.
ghost use Rattle.wl_limits.specs.declared.Limits.{Limits};
ghost use Rattle.wl_engines.specs.Merge.{MergesAsOne};

/// Law: by some limits, merging in parts is merging as one, and only the set of records matters.
pub fn merges_as_one()
    ensures { (limits : Limits) → MergesAsOne limits }
{
    wl_record::spelling_law();
    wl_record::text_law();
    wl_replica::merging_is_appending();
    wl_replica::canonical_stays_a_text();
    wl_replica::same_records_same_state();
}
