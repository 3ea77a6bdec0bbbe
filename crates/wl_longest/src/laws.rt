//! Laws of the greatest length, each as the contract of a function that does nothing.

ghost use Rattle.std.specs.Prelude.{◌≡◌, ◌≤◌, ◌++◌, Bool, List, length, ℕ};
ghost use Rattle.wl_level.specs.declared.Level.{Level};
ghost use Rattle.wl_frame.specs.Grammar.{Content, IsContent, bits_of};
ghost use Rattle.wl_frame.specs.Stuffing.{Stuffs};
ghost use Rattle.wl_longest.specs.Longest.{free_bits, sent_header, longest_frame};

/// Law: no frame is longer. A frame with its stuff bits, up to the last of the CRC sequence, has at most the bits that
/// its identifier, kind and data length code allow.
pub fn no_frame_is_longer()
    ensures { (c : Content) (y : List Level) → IsContent c → Stuffs y (bits_of c)
        → length y ≤ longest_frame c.extended c.id c.remote c.dlc }
{}

/// Law: some bits are as long. With some bits in the place of the data and the CRC sequence, a header and these bits
/// have that length with their stuff bits.
pub fn some_bits_are_as_long()
    ensures { (extended : Bool) (id : ℕ) (remote : Bool) (dlc : ℕ)
        → (more : List Level) × (length more ≡ free_bits remote dlc)
        × ((y : List Level) → Stuffs y (sent_header extended id remote dlc ++ more)
        → length y ≡ longest_frame extended id remote dlc) }
{}
