//! What holds of the whole network in every joined run of its parts, as contracts of functions that do nothing.
ghost use Rattle.std.specs.Prelude.{◌≡◌, ◌⊎◌, ℕ, ◌<◌, ◌≤◌, List, length, take};
ghost use Rattle.kpn_lang.specs.Prefix.{IsPrefix};
ghost use Rattle.kpn_net.specs.declared.wait.Wait.TheVariants.{Empty};
ghost use Rattle.kpn_net.specs.Tables.{Tables};
ghost use Rattle.kpn_net.specs.Faults.{IsNetwork};
ghost use Rattle.kpn_net.specs.Process.{Family};
ghost use Rattle.kpn_net.specs.Iteration.{IsPrefixOnSources, AgreeOnSources, IsBelowLeast, IsLeast};
ghost use Rattle.kpn_history.specs.declared.event.Event.{Event};
ghost use Rattle.kpn_history.specs.Talks.{has_ended};
ghost use Rattle.kpn_history.specs.Channels.{written_on, read_on, fed};
ghost use Rattle.kpn_history.specs.Waiting.{wait_of};
ghost use Rattle.kpn_history.specs.Legal.{Legal};
ghost use Rattle.kpn_history.specs.Ends.{IsQuiet};
ghost use Rattle.kpn_history.specs.Complete.{IsComplete, IsFedFrom};
ghost use Rattle.kpn_parts.specs.declared.order.PartEvent.{PartEvent};
ghost use Rattle.kpn_parts.specs.declared.link.PartLink.{PartLink};
ghost use Rattle.kpn_parts.specs.Cut.{Part, whole_process, whole_channel, part_at, IsCut, IsCutSource};
ghost use Rattle.kpn_parts.specs.Joined.{events_of_part, whole_history, IsJoined, HasAll, IsDelivered, AreQuiet, AreAtRest};
ghost use Rattle.kpn_parts.specs.Links.{AreLinks, history_at, IsJoinOf};

/// Kahn's theorem of networks in parts: in every joined run each journal of the whole is a prefix of the least solution
/// of the whole network for what was fed. So is the journal that each part has of each of its channels. Capacities and
/// the rules of growth of the parts play no role, nor does how many items are on the way.
pub fn journals_are_below()
    ensures whole { (t : Tables) → IsNetwork t → (cut : List Part) → IsCut t cut
        → (order : List PartEvent) → IsJoined t cut order
        → (given : Family) → IsPrefixOnSources t (fed t (whole_history t cut order)) given
        → (c : ℕ) → IsBelowLeast t given c (written_on (whole_history t cut order) c) }
    ensures parts { (t : Tables) → IsNetwork t → (cut : List Part) → IsCut t cut
        → (order : List PartEvent) → IsJoined t cut order
        → (given : Family) → IsPrefixOnSources t (fed t (whole_history t cut order)) given
        → (r c : ℕ) → c < length (part_at cut r).tables.channels
        → IsBelowLeast t given (whole_channel (part_at cut r) c)
        (written_on (events_of_part r order) c) }
{}

/// Parts at rest. If the processes of each part have ended or wait on empty channels, and each cut source was fed all
/// that was put, then all journals are the least solution of the whole network, and those of each part are too. So it
/// is whenever the history of the whole is quiet. It is if nothing is on the way to a process that waits for it.
pub fn rest_is_least()
    ensures whole { (t : Tables) → IsNetwork t → (cut : List Part) → IsCut t cut
        → (order : List PartEvent) → IsJoined t cut order
        → AreQuiet cut order → IsDelivered t cut order
        → (given : Family) → AgreeOnSources t (fed t (whole_history t cut order)) given
        → (c : ℕ) → IsLeast t given c (written_on (whole_history t cut order) c) }
    ensures parts { (t : Tables) → IsNetwork t → (cut : List Part) → IsCut t cut
        → (order : List PartEvent) → IsJoined t cut order
        → AreQuiet cut order → IsDelivered t cut order
        → (given : Family) → AgreeOnSources t (fed t (whole_history t cut order)) given
        → (r c : ℕ) → c < length (part_at cut r).tables.channels
        → IsLeast t given (whole_channel (part_at cut r) c) (written_on (events_of_part r order) c) }
    ensures quiet { (t : Tables) → IsNetwork t → (cut : List Part) → IsCut t cut
        → (order : List PartEvent) → IsJoined t cut order
        → IsQuiet t (whole_history t cut order)
        → (given : Family) → AgreeOnSources t (fed t (whole_history t cut order)) given
        → (c : ℕ) → IsLeast t given c (written_on (whole_history t cut order) c) }
    ensures settled { (t : Tables) → IsNetwork t → (cut : List Part) → IsCut t cut
        → (order : List PartEvent) → IsJoined t cut order → AreAtRest t cut order
        → IsQuiet t (whole_history t cut order) }
{}

/// The journal of a complete channel of the whole is the least solution there, for all lists from which the sources
/// were fed, also where the run has come to a stop with items on the way or with full channels. Which processes of the
/// whole have ended and which wait on empty channels, the parts show.
pub fn complete_is_least()
    ensures least { (t : Tables) → IsNetwork t → (cut : List Part) → IsCut t cut
        → (order : List PartEvent) → IsJoined t cut order
        → (given : Family) → IsFedFrom t (whole_history t cut order) given
        → (c : ℕ) → IsComplete t (whole_history t cut order) c
        → IsLeast t given c (written_on (whole_history t cut order) c) }
    ensures ended { (t : Tables) → IsNetwork t → (cut : List Part) → IsCut t cut
        → (order : List PartEvent) → IsJoined t cut order
        → (r p : ℕ) → p < length (part_at cut r).tables.instances
        → has_ended (whole_history t cut order) (whole_process (part_at cut r) p)
        ≡ has_ended (events_of_part r order) p }
    ensures waits { (t : Tables) → IsNetwork t → (cut : List Part) → IsCut t cut
        → (order : List PartEvent) → IsJoined t cut order
        → (r p c : ℕ) → p < length (part_at cut r).tables.instances
        → wait_of (part_at cut r).tables (events_of_part r order) p ≡ Empty c
        → (IsCutSource t (part_at cut r) c → HasAll t cut order r c)
        → wait_of t (whole_history t cut order) (whole_process (part_at cut r) p)
        ≡ Empty (whole_channel (part_at cut r) c) }
{}

/// A cut changes no item. Take a joined run and a legal history of the whole network in one piece, or two joined runs
/// of cuts of it, fed from the same lists. One journal of each channel begins the other, and the first items read from
/// the channel are the same.
pub fn cuts_change_no_item()
    ensures journals { (t : Tables) → IsNetwork t → (cut : List Part) → IsCut t cut
        → (order : List PartEvent) → IsJoined t cut order → (H : List Event) → Legal t H
        → (given : Family) → IsPrefixOnSources t (fed t (whole_history t cut order)) given
        → IsPrefixOnSources t (fed t H) given
        → (c : ℕ) → (IsPrefix (written_on (whole_history t cut order) c) (written_on H c)
        ⊎ IsPrefix (written_on H c) (written_on (whole_history t cut order) c)) }
    ensures first_items { (t : Tables) → IsNetwork t → (cut : List Part) → IsCut t cut
        → (order : List PartEvent) → IsJoined t cut order → (H : List Event) → Legal t H
        → (given : Family) → IsPrefixOnSources t (fed t (whole_history t cut order)) given
        → IsPrefixOnSources t (fed t H) given
        → (c k : ℕ) → k ≤ length (read_on (whole_history t cut order) c)
        → k ≤ length (read_on H c)
        → take k (read_on (whole_history t cut order) c) ≡ take k (read_on H c) }
    ensures two_cuts { (t : Tables) → IsNetwork t → (cut other : List Part) → IsCut t cut
        → IsCut t other → (order : List PartEvent) → IsJoined t cut order
        → (another : List PartEvent) → IsJoined t other another
        → (given : Family) → IsPrefixOnSources t (fed t (whole_history t cut order)) given
        → IsPrefixOnSources t (fed t (whole_history t other another)) given
        → (c k : ℕ) → k ≤ length (read_on (whole_history t cut order) c)
        → k ≤ length (read_on (whole_history t other another) c)
        → take k (read_on (whole_history t cut order) c)
        ≡ take k (read_on (whole_history t other another) c) }
    ensures complete { (t : Tables) → IsNetwork t → (cut : List Part) → IsCut t cut
        → (order : List PartEvent) → IsJoined t cut order → (H : List Event) → Legal t H
        → (given : Family) → IsFedFrom t (whole_history t cut order) given → IsFedFrom t H given
        → (c : ℕ) → IsComplete t (whole_history t cut order) c → IsComplete t H c
        → written_on (whole_history t cut order) c ≡ written_on H c }
    ensures at_rest { (t : Tables) → IsNetwork t → (cut : List Part) → IsCut t cut
        → (order : List PartEvent) → IsJoined t cut order → (H : List Event) → Legal t H
        → IsQuiet t (whole_history t cut order) → IsQuiet t H
        → AgreeOnSources t (fed t (whole_history t cut order)) (fed t H)
        → (c : ℕ) → written_on (whole_history t cut order) c ≡ written_on H c }
{}

/// An order that joins legal histories of the parts, on the links of their cut, is a joined run.
pub fn joins_are_joined_runs()
    ensures { (t : Tables) → IsNetwork t → (cut : List Part) → IsCut t cut
        → (links : List PartLink) → AreLinks t cut links
        → (histories : List (List Event))
        → ((r : ℕ) → Legal (part_at cut r).tables (history_at histories r))
        → (order : List PartEvent) → IsJoinOf histories links order → IsJoined t cut order }
{}
