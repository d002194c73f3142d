//! Laws of the definitions, each the contract of a function that does nothing.

ghost use Rattle.std.specs.Prelude.{suc, ◌==◌, ◌≡◌, ◌+◌, ◌-◌, ◌^◌, ◌<◌, ◌≤◌, ◌%◌, ◌∷◌, ◌++◌, ◌||◌, ◌&&◌, ℕ, List, Bool, Option, Some, Result, Ok, false, not, nat_lt, IsPermutation};
ghost use Rattle.wl_window.specs.Numbering.{distance, full};
ghost use Rattle.wl_window.specs.Originating.{Sending, Acked, IsSending, is_done, is_booked, acked, acknowledges, given_up, Keeps, booked_count, with_booked};
ghost use Rattle.wl_window.specs.Reordering.{Store, Window, Moved, Arrived, Stored, IsStore, IsNear, MovesNear, holds, items, arrived, requested};

/// The full number of 12 bits is the first one from the start on that has them.
pub fn full_number()
    ensures { (start number : ℕ) → number < 4096 → (full start number % 4096 ≡ number) × (start ≤ full start number) × (full start number < start + 4096) }
{}

/// After a frame that is stored the window is sound: nothing is stored at its start, and all that is
/// stored is above it, within the greatest size.
pub fn stored_sound<T>()
    ensures { (store : Store T) (number size : ℕ) (item : T) (moved : Moved T) → IsStore store → store.window.start < 2 ^ 32 - 4096 → 1 ≤ size → size ≤ store.room → arrived store.window number size item ≡ Stored moved → IsStore (record { room = store.room; window = moved.window }) × (holds moved.window.start moved.window.slots ≡ false) }
{}

/// After a request that moves it the window is sound.
pub fn requested_sound<T>()
    ensures { (store : Store T) (start : ℕ) (moved : Moved T) → IsStore store → store.window.start < 2 ^ 32 - 4096 → requested store.window start ≡ Some moved → IsStore (record { room = store.room; window = moved.window }) × (holds moved.window.start moved.window.slots ≡ false) }
{}

/// After a frame that is stored the window has moved by at most 2,048 and not back, and all that is
/// stored lies less than 2,048 ahead of its start, where that held before.
pub fn stored_near<T>()
    ensures { (window : Window T) (number size : ℕ) (item : T) (moved : Moved T) → IsNear window → 1 ≤ size → arrived window number size item ≡ Stored moved → MovesNear window moved }
{}

/// After a request that moves it the window has moved by at most 2,048 and not back, and all that is
/// stored lies less than 2,048 ahead of its start, where that held before.
pub fn requested_near<T>()
    ensures { (window : Window T) (start : ℕ) (moved : Moved T) → IsNear window → requested window start ≡ Some moved → MovesNear window moved }
{}

/// A frame that is stored loses and doubles nothing: what goes up and what stays are together what was
/// stored and the new item.
pub fn nothing_lost<T>()
    ensures { (store : Store T) (number size : ℕ) (item : T) (moved : Moved T) → IsStore store → store.window.start < 2 ^ 32 - 4096 → 1 ≤ size → size ≤ store.room → arrived store.window number size item ≡ Stored moved → IsPermutation (item ∷ items store.window.slots) (moved.up ++ items moved.window.slots) }
{}

/// A request loses nothing and keeps the order: what goes up and then what stays is what was stored.
pub fn order_kept<T>()
    ensures { (store : Store T) (start : ℕ) (moved : Moved T) → IsStore store → requested store.window start ≡ Some moved → moved.up ++ items moved.window.slots ≡ items store.window.slots }
{}

/// After an ack a position is done where it was, or where it is booked and the ack covers it.
pub fn done_after_ack()
    ensures { (s : Sending) (start : ℕ) (stored : List ℕ) (a : Acked) (pos : ℕ) → acked s start stored ≡ Some a → is_done a.sending pos ≡ (is_done s pos || (is_booked s pos && acknowledges s.base (distance s.base start) stored (pos - s.base))) }
{}

/// After giving up a position is done where it was, or where it is below the one that was named.
pub fn done_after_giving_up()
    ensures { (s t : Sending) (to pos : ℕ) → given_up s to ≡ Ok t → is_done t pos ≡ (is_done s pos || nat_lt pos to) }
{}

/// After a booking the position is booked, and no other that wasn't.
pub fn booked_after_booking()
    ensures marks { (s : Sending) (pos other : ℕ) → is_booked s pos ≡ false → is_booked (with_booked s pos) other ≡ (pos == other || is_booked s other) }
    ensures counts { (s : Sending) (pos : ℕ) → is_booked s pos ≡ false → booked_count (with_booked s pos) ≡ suc (booked_count s) }
{}

/// An ack lets nothing go and books nothing.
pub fn booked_after_ack()
    ensures { (s : Sending) (start : ℕ) (stored : List ℕ) (a : Acked) → acked s start stored ≡ Some a → Keeps s a.sending }
{}

/// Giving positions up lets nothing go and books nothing.
pub fn booked_after_giving_up()
    ensures { (s t : Sending) (to : ℕ) → given_up s to ≡ Ok t → Keeps s t }
{}
