//! What is true of a name.

/// Names: what records may be true of, as of a plan.
pub trait Truth {
    ghost use Rattle.wl_record_core.specs.declared.record.Record.{Record};

    /// This record is true of this name.
    ghost is_true: { Self → Record → Type 0 };
}
