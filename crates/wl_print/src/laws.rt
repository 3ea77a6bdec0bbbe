//! Laws on plan texts that are printed.
ghost use Rattle.wl_print.specs.Printable.{PrintedAfterComment, PrintedIsRead, ReadIsPrintable};

/// Law: a plan text that keeps to the bounds of its keys and to the keys of its version is read as it is printed. The printed text is a TOML
/// document, and its plan text is the one that was printed: the same version, each key's value, and the default of each key that is left out.
/// In version 4 the document is its own plain form.
pub fn printed_is_read()
    ensures { PrintedIsRead }
{}

/// Law: the same of a text that is printed after a line of a comment, as a member of a sweep is.
pub fn printed_after_comment()
    ensures { PrintedAfterComment }
{}

/// Law: a plan text that was read keeps to the bounds of its keys and to the keys of its version, if its plan can be run. In version 4 it keeps
/// to those of version 4. So it is read again as it is printed, in both versions.
pub fn read_is_printable()
    ensures { ReadIsPrintable }
{}
