//! Laws of traces, as contracts of functions with an empty body.
ghost use Rattle.wl_trace.specs.Laws.{TraceLaws};

/// Law: the events of a node have the number of errors that its report counts, and the frames of its report in their order. Its
/// synchronisations have the number of hard ones that the report counts, and its phase errors in their order. Each is at a quantum that the
/// node saw.
pub fn trace_laws()
    ensures { TraceLaws }
{}
