//! Laws of rows and cells.
ghost use Rattle.wl_map.specs.Cells.{CleanByMembers};
ghost use Rattle.wl_map.specs.Rows.{FindsTheSame};

/// Law: a row alone, as a sweep by one value of each range, finds of its members what the whole sweep finds of them.
pub fn a_row_alone_finds_the_same()
    ensures { FindsTheSame }
{}

/// Law: a cell is clean exactly if each member of its row is clean.
pub fn a_clean_cell_is_clean()
    ensures { CleanByMembers }
{}
