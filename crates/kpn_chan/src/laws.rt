//! What holds of every channel, as contracts of functions that do nothing. The layers above cite them.
ghost use Rattle.std.specs.Prelude.{◌≡◌, ℕ, ◌≤◌, ℤ, Bool, true, false, ◌⊎◌, ◌↔◌, IsTrue, [], ◌∷◌, ◌++◌, length, Some, None};
ghost use Rattle.kpn_chan.specs.Channel.{ChannelState, already_read, unread, is_channel_full, next_item, after_put, after_get, retired, grown_by_one};

/// The journal is what was read followed by what is unread.
pub fn journal_is_read_then_unread()
    ensures { (c : ChannelState) → c.journal ≡ already_read c ++ unread c }
{}

/// Items are read in the order in which they were put: a put adds its item after all that is unread. A read takes the
/// first unread item, which then comes last of what was read.
pub fn first_in_first_out()
    ensures put { (c : ChannelState) (item : ℤ) (reserved : Bool) → c.read ≤ length c.journal
        → unread (after_put item reserved c) ≡ unread c ++ item ∷ [] }
    ensures put_reads_nothing { (c : ChannelState) (item : ℤ) (reserved : Bool)
        → c.read ≤ length c.journal → already_read (after_put item reserved c) ≡ already_read c }
    ensures got { (c : ChannelState) (item : ℤ) (reserved : Bool) → next_item c ≡ Some item
        → unread c ≡ item ∷ unread (after_get (Some item) reserved c) }
    ensures got_is_read { (c : ChannelState) (item : ℤ) (reserved : Bool) → next_item c ≡ Some item
        → already_read (after_get (Some item) reserved c) ≡ already_read c ++ item ∷ [] }
{}

/// A read returns nothing if and only if the reader is gone or nothing is unread.
pub fn gives_nothing()
    ensures { (c : ChannelState)
        → ((next_item c ≡ None) ↔ (IsTrue c.is_retired ⊎ (unread c ≡ []))) }
{}

/// A channel is full if and only if its reader is there and its unread items have reached its capacity.
pub fn full_at_capacity()
    ensures { (c : ChannelState) → (IsTrue (is_channel_full c)
        ↔ ((c.is_retired ≡ false)
        × ((capacity : ℕ) × (c.capacity ≡ Some capacity) × (capacity ≤ length (unread c))))) }
{}

/// A channel whose unread items are within its capacity is not full once it has grown.
pub fn grown_is_not_full()
    ensures { (c : ChannelState) (reserved : Bool) (capacity : ℕ) → c.capacity ≡ Some capacity
        → length (unread c) ≤ capacity → is_channel_full (grown_by_one reserved c) ≡ false }
{}
