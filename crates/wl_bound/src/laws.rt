//! Laws of the condition, as contracts of functions with an empty body.
ghost use Rattle.std.specs.Prelude.{◌≡◌};
ghost use Rattle.wl_frame.specs.Grammar.{Content, IsContent};
ghost use Rattle.wl_node.specs.Queues.{field_number};
ghost use Rattle.wl_bound.specs.Fields.{field_of};
ghost use Rattle.wl_bound.specs.ConditionLaws.{ConditionLaws};
ghost use Rattle.wl_bound.specs.RoomLaws.{RoomLaw};
ghost use Rattle.wl_bound.specs.SearchLaws.{SearchLaws};

/// Law: no inequality fails exactly if all three hold for each pair of nodes; for any senders, and for each sender alone.
pub fn condition_laws()
    ensures { ConditionLaws }
{}

/// Law: if the condition holds with some growth of the cable or of the tolerances, it holds with each lesser one.
pub fn search_laws()
    ensures { SearchLaws }
{}

/// Law: a bus that passes the test has room. Each node catches up with any sender, and any two have room as if both sent.
pub fn room_law()
    ensures { RoomLaw }
{}

/// Law: the field of a frame as its bits spell it is the number by which a queue by priority picks its head.
pub fn a_field_is_its_number()
    ensures { (frame : Content) → IsContent frame → field_of frame ≡ field_number frame }
{}
