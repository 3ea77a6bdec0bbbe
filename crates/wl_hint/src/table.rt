//! What to change at faults that are not of the input. The words are those of the table of faults in `docs/use/commands.md`.

/// Standard input failed.
pub const READ: &str = "Check that standard input is a file or a pipe that can be read.";

/// A named file can't be read.
pub const READ_FILE: &str = "Check that the file can be read.";

/// There is no file of this name.
pub const NO_FILE: &str = "There is no such file. Check its name and its folder.";

/// A folder is named in the place of a file.
pub const IS_FOLDER: &str = "This is a folder. Name a file in it.";

/// A plan is given to `settings`.
pub const IS_PLAN: &str =
    "This is a plan, as `check`, `margin` and `run` read it. Pass a text of its own to `settings`: docs/use/settings.md has its keys.";

/// A text for `settings` is given to a command that reads a plan.
pub const IS_SETTINGS: &str =
    "This is a text for `settings`, and no plan. Write a plan of its first setting by `settings --plan`, or a plan by `init`.";

/// Standard output failed.
pub const WRITE: &str = "Check that standard output can be written and its disk has room.";

/// A named file can't be written.
pub const WRITE_FILE: &str =
    "Check that the file and its folder can be written and their disk has room.";

/// A worker failed.
pub const THREADS: &str =
    "Raise the limits on threads and memory, or run with fewer workers; without `--workers` the report is the same.";

/// Out of memory.
pub const FREE_MEMORY: &str = "Free memory, or raise the limit that the program runs under.";
