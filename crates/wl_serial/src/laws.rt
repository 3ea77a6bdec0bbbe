//! Laws of what the engine answers, as contracts of functions with an empty body.

ghost use Rattle.wl_serial.specs.Outcome.{GoesNodeByNode};
ghost use Rattle.wl_serial.specs.Records.{OutcomeIsRecordable, RecordsAreTrue, RecordsAreWithin};

/// Law: the outcome of a plan that passed its check can be written as records.
pub fn outcome_is_recordable()
    ensures { OutcomeIsRecordable }
{
    wl_plan::checked_is_sound();
}

/// Law: each record of the outcome of a plan that passed its check is true of the plan, and within the limits of records.
pub fn records_are_true()
    ensures { RecordsAreTrue }
{
    wl_plan::checked_is_sound();
    wl_plan::outcome_is_true();
}

/// Law: the records of the outcome of a plan within some limits are within those of records by these limits. So those of a plan within the
/// narrow ones can be a record text.
pub fn records_are_within()
    ensures { RecordsAreWithin }
{
    wl_record_core::true_is_within();
    wl_plan::simulation_laws();
    wl_plan::changes_are_few();
    wl_plan::checked_is_sound();
    records_are_true();
}

/// Law: the outcomes of one node more are those of the nodes before it, and its own.
pub fn outcome_node_by_node()
    ensures { GoesNodeByNode }
{}
