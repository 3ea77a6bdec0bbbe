//! Laws of the definitions, each as the contract of a function that does nothing.

ghost use Rattle.std.specs.Prelude.{◌≡◌, ◌↔◌, ◌<◌, ◌≤◌, ℕ, suc, nat_le, true, false, List, [], ◌∷◌, ◌++◌, ◌+◌, MatchOption, length, take};
ghost use Rattle.wl_level.specs.declared.Level.{Level};
ghost use Rattle.wl_level.specs.Places.{at, run_at};
ghost use Rattle.wl_frame.specs.Grammar.{Content, IsContent, IsFrame, IsReadAs, IsUnfinished, bits_left, bits_of, covered_length, is_arbitration, is_front, is_whole, layout_of};
ghost use Rattle.wl_frame.specs.Limits.{least_frame_bits, most_frame_bits};
ghost use Rattle.wl_frame.specs.Laws.{HaveSameField, IsEdge, up_to_ack};
ghost use Rattle.wl_frame.specs.Stuffing.{IsStuffedFront, NoSixBefore, Stuffs, first_six, is_stuff, destuffed_bits};

/// Law: a list has one stuffing. So what [`stuff`](crate::stuffing::stuff) returns is the only right answer. A receiver that takes the
/// stuff bits out can have been sent one list alone.
pub fn a_list_has_one_stuffing()
    ensures { (x y z : List Level) → Stuffs y x → Stuffs z x → y ≡ z }
{}

/// Law, of a stuff error: a list of samples either is the front of a list with its stuff bits, or has a
/// first place at which six equal bits end, and not both.
pub fn a_front_of_no_stuffing_ends_six_equal_bits()
    ensures { (y : List Level) → MatchOption (first_six y) (IsStuffedFront y) (λ k. ¬ IsStuffedFront y) }
{}

/// Law, of a stuffed list that comes bit by bit. A stuff bit is due after five equal bits. What comes later changes neither which of the
/// earlier bits are stuff bits nor what is kept of them. A front that ends no six equal bits, and at whose end none is due, stuffs what is
/// kept of it.
pub fn stuffing_goes_on_bit_by_bit()
    ensures due { (y : List Level) (n : ℕ) → is_stuff y n ≡ nat_le 5 (run_at y n) }
    ensures stays { (y more : List Level) (n : ℕ) → n ≤ length y → is_stuff (y ++ more) n ≡ is_stuff y n }
    ensures keeps { (y more : List Level) (n : ℕ) → n ≤ length y → destuffed_bits (y ++ more) n ≡ destuffed_bits y n }
    ensures front { (y : List Level) (n : ℕ) → n ≤ length y → NoSixBefore y n → is_stuff y n ≡ false
        → Stuffs (take n y) (destuffed_bits y n) }
{}

/// Law: reading by places is the grammar. A list is a frame of this content exactly if it begins with a dominant bit, is whole, has the
/// right CRC sequence and is read as this content. No other front of a whole list is whole, so a reader that goes bit by bit stops at its
/// end. The arbitration is what comes after the start of frame, up to the RTR bit.
pub fn reading_by_places_is_the_grammar()
    ensures grammar { (bits : List Level) (c : Content) → IsFrame bits c ↔ IsReadAs bits c }
    ensures end { (front rest : List Level) → is_whole front ≡ true → is_whole (front ++ rest) ≡ true → rest ≡ [] }
    ensures arbitration { (bits : List Level)
        → ((layout_of bits).start ≡ 1) × ((layout_of bits).arbitration ≡ suc (layout_of bits).rtr) }
{}

/// Law, of a reader that reads a frame bit by bit. A front that is not whole is still one with a bit more, and has less than 118 bits. No
/// frame has less than 19 before its CRC sequence. What a frame spells is whole. A reader that has read a whole frame is past the
/// arbitration of any other that is sent meanwhile.
pub fn a_front_is_read_to_its_end()
    ensures none { is_front [] ≡ true }
    ensures more { (bits : List Level) (bit : Level) → IsUnfinished bits → is_front (bits ++ bit ∷ []) ≡ true }
    ensures room { (bits : List Level) → IsUnfinished bits → length bits < most_frame_bits }
    ensures least { (bits : List Level) → 19 ≤ covered_length bits }
    ensures sent { (c : Content) → IsContent c → is_whole (bits_of c) ≡ true }
    ensures over { (read sent : List Level) (place : ℕ) → is_whole read ≡ true → length read ≤ place
        → is_arbitration sent place ≡ false }
{}

/// Law, of the bits that a frame has still to come, by what has come: a bit more takes one of them at most, a whole frame has none to come, and no
/// frame has fewer than 34 in all.
pub fn each_bit_takes_one_of_those_left()
    ensures next { (bits : List Level) (bit : Level) → bits_left bits ≤ suc (bits_left (bits ++ bit ∷ [])) }
    ensures whole { (bits : List Level) → is_whole bits ≡ true → bits_left bits ≡ 0 }
    ensures least { (bits : List Level) → least_frame_bits ≤ length bits + bits_left bits }
{}

/// Law, of the arbitration: as long as two frames of different format, identifier or RTR bit have the same bits, no recessive bit of either
/// is beyond its arbitration. So at their first difference the sender of the recessive bit may lose, and makes no error. That holds of a
/// base frame beside an extended one too, and of a data frame beside a remote one (Bosch CAN 2.0 part B, section 3.1).
pub fn the_arbitration_decides()
    ensures { (loser winner : Content) (front more rest : List Level) → IsContent loser → IsContent winner
        → ¬ HaveSameField loser winner → bits_of loser ≡ front ++ more → bits_of winner ≡ front ++ rest
        → at (bits_of loser) (length front) ≡ Level.Recessive → is_arbitration (bits_of loser) (length front) ≡ true }
{}

/// Law, of synchronisation: from the start of frame to an acknowledged ACK slot, ten bits in a row have an edge from recessive to dominant,
/// at the first of them or later. Nine may have none: those after the first of five dominant bits, if five recessive ones follow (Bosch CAN
/// 2.0 part B, sections 6 and 10).
pub fn ten_bits_have_an_edge()
    ensures ten { (x y : List Level) (n : ℕ) → Stuffs y x → n + 10 ≤ length (up_to_ack y)
        → (k : ℕ) × (n ≤ k) × (k < n + 10) × IsEdge (up_to_ack y) k }
    ensures nine { (x : List Level) × (y : List Level) × (n : ℕ) × Stuffs y x × (n + 9 ≤ length (up_to_ack y))
        × ((k : ℕ) → n ≤ k → k < n + 9 → ¬ IsEdge (up_to_ack y) k) }
{}
