//! What the definitions say of worked networks in parts, as contracts of functions that do nothing.
ghost use Rattle.std.specs.Prelude.{◌≡◌, ℕ, pos, [], ◌∷◌};
ghost use Rattle.kpn_net.specs.Faults.{IsNetwork};
ghost use Rattle.kpn_net.specs.Process.{Family};
ghost use Rattle.kpn_net.specs.Iteration.{IsBelowLeast};
ghost use Rattle.kpn_history.specs.Channels.{written_on};
ghost use Rattle.kpn_history.specs.Legal.{Legal};
ghost use Rattle.kpn_parts.specs.Cut.{part_at, IsCut};
ghost use Rattle.kpn_parts.specs.Joined.{events_of_part, whole_history, IsJoined, IsDelivered, AreQuiet};
ghost use Rattle.check_histories.specs.Cuts.{chain_network, chain_cut, ring_network, ring_cut};
ghost use Rattle.check_histories.specs.Orders.{chain_order, chain_run, ring_order, twice_order, ComesToRest};

/// A chain of two copies, each in a part of its own, comes to rest with the item on its sink. The events of the whole
/// are those of a run in one piece.
pub fn a_chain_comes_to_rest()
    ensures run { ComesToRest chain_network chain_cut chain_order }
    ensures whole { whole_history chain_network chain_cut chain_order ≡ chain_run }
    ensures sink { written_on (whole_history chain_network chain_cut chain_order) 2 ≡ pos 5 ∷ [] }
{}

/// Two copies in a ring vouch for each other: each part alone is legal and at rest, and was fed just what the other
/// put. But nobody made the item, so it is not below the least solution. Only the order shows it: the run is not
/// joined.
pub fn parts_may_vouch_for_each_other()
    ensures network { IsNetwork ring_network }
    ensures cut { IsCut ring_network ring_cut }
    ensures legal { (r : ℕ) → Legal (part_at ring_cut r).tables (events_of_part r ring_order) }
    ensures quiet { AreQuiet ring_cut ring_order }
    ensures delivered { IsDelivered ring_network ring_cut ring_order }
    ensures nobody_made { (given : Family) → ¬ IsBelowLeast ring_network given 0
        (written_on (whole_history ring_network ring_cut ring_order) 0) }
    ensures not_joined { ¬ IsJoined ring_network ring_cut ring_order }
{}

/// An item that is sent twice shows, though each part alone is legal: the run is not joined.
pub fn an_item_is_sent_once()
    ensures legal { (r : ℕ) → Legal (part_at chain_cut r).tables (events_of_part r twice_order) }
    ensures not_joined { ¬ IsJoined chain_network chain_cut twice_order }
{}
