//! Theorems about distances between 16-bit numbers, over numbers alone.
//!
//! Positions count without a limit, and a packet carries their marks (the low 16 bits). Each
//! theorem says what the distance between two marks tells about the positions, if the packet is
//! fresh. `before` is how many units an end had sent when the packet was sent, `sent` how many it
//! has sent now. A packet is fresh if fewer than 32,768 units lie between. `bound` is the most
//! units that an end has outstanding and the most buffers that it has, and each theorem gives the
//! range in which it holds. `windows` states them at this project's bound, 8,192.

ghost use Rattle.std.specs.Prelude.{ℕ, ◌≡◌, ◌≢◌, ◌↔◌, ◌+◌, ◌<◌, ◌≤◌, max};
ghost use Rattle.spx_link.specs.Limits.{max_allocation_ahead, most_units};
ghost use Rattle.spx_link.specs.SequenceMarks.{acknowledged, mark, distance, outstanding_after, room_after};

/// What marks say about positions.
pub fn marks()
    // Counting on from a mark gives the marks of the positions that follow.
    ensures carried { (n k : ℕ) → mark (mark n + k) ≡ mark (n + k) }
    // Positions that lie less than 65,536 apart have different marks.
    ensures apart { (a b : ℕ) → a < b → b < a + 65536 → mark a ≢ mark b }
    ensures ahead { (a b k : ℕ) → a ≡ b + k → k < 65536 → distance (mark a) (mark b) ≡ k }
    ensures behind { (a b k : ℕ) → a + k ≡ b → 0 < k → k ≤ 65536
        → distance (mark a) (mark b) + k ≡ 65536 }
    // The first outstanding position, from the next one and how many are outstanding.
    ensures base { (base out sent : ℕ) → base + out ≡ sent → out ≤ 65536
        → distance (mark sent) out ≡ mark base }
{}

/// An end has sent `sent` units, and `out` of them are outstanding, from `base` on. It reads the
/// acknowledge number `ack`.
pub fn acknowledgement()
    // An acknowledge number within the outstanding units is read exactly.
    ensures current { (base out sent ack : ℕ) → base + out ≡ sent → out < 65536 → base ≤ ack
        → ack ≤ sent → base + distance (mark ack) (distance (mark sent) out) ≡ ack }
    // An acknowledge number of a fresh packet is at most `bound` plus 32,767 below `sent`.
    ensures back { (bound sent ack before : ℕ) → before ≤ ack + bound → sent < before + 32768
        → sent ≤ ack + bound + 32767 }
    // So a stale one falls outside the outstanding units.
    ensures stale { (bound base out sent ack before : ℕ) → bound ≤ 32768 → base + out ≡ sent
        → ack < base → before ≤ ack + bound → sent < before + 32768
        → out < distance (mark ack) (distance (mark sent) out) }
    // Both together: afterwards the units from the greater of base and ack on are outstanding.
    ensures read { (bound base out sent ack before : ℕ) → bound ≤ 32768 → base + out ≡ sent
        → out ≤ bound → ack ≤ sent → before ≤ ack + bound → sent < before + 32768
        → max base ack + outstanding_after (mark sent) out (mark ack) ≡ sent }
    // The units below it leave the queue.
    ensures taken { (bound base out sent ack before : ℕ) → bound ≤ 32768 → base + out ≡ sent
        → out ≤ bound → ack ≤ sent → before ≤ ack + bound → sent < before + 32768
        → base + acknowledged (mark sent) out (mark ack) ≡ max base ack }
{}

/// An end has sent `sent` units and may send those below `limit`. It reads an allocation that
/// allows the positions below `allows`, and carries the mark of the last of them.
pub fn allocation()
    // What an end with `free` free buffers writes. The 16 bits of `read` are the number that it
    // expects.
    ensures carried { (read free allows : ℕ) → read + free ≡ allows
        → mark (mark read + free + 65535) ≡ mark (allows + 65535) }
    // An allocation that is not below what was sent is read exactly.
    ensures current { (sent allows : ℕ) → sent ≤ allows → allows < sent + 65536
        → sent + distance (mark (allows + 65535) + 1) (mark sent) ≡ allows }
    // When a packet is sent, its receiver has sent no more than it allows. So a stale allocation
    // appears to lie far ahead.
    ensures stale { (sent allows before : ℕ) → before ≤ allows → allows < sent
        → sent < before + 32768 → 32769 ≤ distance (mark (allows + 65535) + 1) (mark sent) }
    // Both together: afterwards the positions below the greater of limit and allows may be sent.
    ensures read { (bound sent room limit allows before : ℕ) → bound ≤ max_allocation_ahead
        → sent + room ≡ limit → allows ≤ sent + bound → before ≤ allows → sent < before + 32768
        → sent + room_after (mark sent) room (mark (allows + 65535)) ≡ max limit allows }
{}

/// An end has read the positions below `read` and has `free` free buffers. It reads the sequence
/// number of the unit at position `n`. `sent` and `before` belong to the end that sent it.
pub fn sequence()
    // A unit that was not read before is read exactly.
    ensures current { (read n : ℕ) → read ≤ n → n < read + 65536
        → read + distance (mark n) (mark read) ≡ n }
    // An old unit of a fresh packet is a repeat (32,768 or more), or appears to lie at least this
    // far ahead.
    ensures stale { (bound read n sent before : ℕ) → n < read → read ≤ sent
        → before ≤ n + bound → sent < before + 32768
        → 65536 ≤ distance (mark n) (mark read) + bound + 32767 }
    // An old unit whose packet was the first to carry it is a repeat.
    ensures first { (read n sent : ℕ) → n < read → read ≤ sent → sent < n + 1 + 32768
        → 32768 ≤ distance (mark n) (mark read) }
    // The distance is 0 only at the next position.
    ensures next { (bound read n sent before : ℕ) → bound ≤ 32768 → read ≤ sent → n < read + 65536
        → before ≤ n + bound → sent < before + 32768
        → (distance (mark n) (mark read) ≡ 0) ↔ (n ≡ read) }
    // The distance is less than `free` exactly at the positions that the free buffers are for.
    ensures window { (bound free read n sent before : ℕ) → bound ≤ 16384 → free ≤ bound
        → read ≤ sent → n < read + 65536 → before ≤ n + bound → sent < before + 32768
        → (distance (mark n) (mark read) < free) ↔ ((read ≤ n) × (n < read + free)) }
{}

/// The same at this project's bound: at most 8,192 units outstanding, and as many buffers. In each
/// of the three numbers an old value lies far outside the range that counts.
pub fn windows()
    // An acknowledge number below the base appears 24,577 or more ahead of it. At most 8,192 count.
    ensures acknowledgement { (base out sent ack before : ℕ) → base + out ≡ sent → ack < base
        → before ≤ ack + most_units → sent < before + 32768
        → 24577 ≤ distance (mark ack) (distance (mark sent) out) }
    // An allocation below what was sent appears 32,769 or more ahead of it, any other at most
    // 8,192. The limit of 16,383 separates the two.
    ensures allocation { (sent allows before : ℕ) → allows ≤ sent + most_units → before ≤ allows
        → sent < before + 32768
        → let beyond : ℕ = distance (mark (allows + 65535) + 1) (mark sent) in
        (allows < sent → 32769 ≤ beyond) × (sent ≤ allows → beyond ≤ most_units)
        × ((beyond ≤ max_allocation_ahead) ↔ (sent ≤ allows)) }
    // A unit before the next one is a repeat (32,768 or more), or appears 24,577 or more ahead of
    // it.
    ensures sequence { (read n sent before : ℕ) → n < read → read ≤ sent
        → before ≤ n + most_units → sent < before + 32768
        → 24577 ≤ distance (mark n) (mark read) }
    // So a distance less than the number of free buffers belongs to a position that they are for.
    ensures free { (free read n sent before : ℕ) → free ≤ most_units → read ≤ sent
        → n < read + 65536 → before ≤ n + most_units → sent < before + 32768
        → (distance (mark n) (mark read) < free) ↔ ((read ≤ n) × (n < read + free)) }
{}
