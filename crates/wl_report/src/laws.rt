//! Laws of reports.
ghost use Rattle.wl_report.specs.Verdict.{CleanIsClean};

/// Law: a verdict is clean exactly if no node has an error and none has an unsent frame.
pub fn clean_is_clean()
    ensures { CleanIsClean }
{}
