//! Laws on what a program tests before it says how long messages wait, each proved as the contract of a function that does nothing.

ghost use Rattle.std.specs.Prelude.{◌≡◌, ◌<◌, true};
ghost use Rattle.wl_frame.specs.Grammar.{Content, IsContent};
ghost use Rattle.wl_wire.specs.Winner.{Beats};
ghost use Rattle.wl_bound.specs.Decides.{leaves_room_to_decide};
ghost use Rattle.wl_bound.specs.Families.{Buses};
ghost use Rattle.wl_bound.specs.Fields.{field_of};
ghost use Rattle.wl_bound.specs.Rooms.{least_chase, plain_bus};
ghost use Rattle.wl_buses.specs.TakesPart.Decisions.{LeavesRoomToDecide};

/// Law: the winner of an arbitration has the lesser field, as a number.
pub fn a_winner_has_the_lesser_field()
    ensures { (winner loser : Content) → IsContent loser → Beats winner loser → field_of winner < field_of loser }
{
    wl_frame::laws::reading_by_places_is_the_grammar();
}

/// Law: what is tested of a bus is what these laws ask, that nobody decides twice.
pub fn a_tested_bus_has_room_to_decide()
    ensures { (f : Buses) → leaves_room_to_decide f ≡ true
        → LeavesRoomToDecide (plain_bus f) (least_chase (plain_bus f)) }
{}
