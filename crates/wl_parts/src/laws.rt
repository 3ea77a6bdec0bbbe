//! The laws of parts and of what they find.
ghost use Rattle.wl_parts.specs.Laws.{JoinsInAnyOrder};
ghost use Rattle.wl_parts.specs.Whole.{PartsSayTheWhole};

/// Law: findings join in any grouping and any order, and what no member says is neutral. For the order the two have to agree: a number has
/// one line. Parts of one sweep do.
pub fn findings_join_in_any_order()
    ensures { JoinsInAnyOrder }
{}

/// Law: the parts of a sweep, each once and in any order, say together what the whole sweep says, whatever kind of findings there are. A
/// sweep has fewer than 2^64 members.
pub fn parts_say_the_whole<X>()
    ensures { PartsSayTheWhole X }
{}
