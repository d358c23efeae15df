//! Histories that a run may bring, and what they come to, as contracts of functions that do nothing.
ghost use Rattle.std.specs.Prelude.{◌≡◌, pos, [], ◌∷◌, Some};
ghost use Rattle.kpn_history.specs.declared.state.Verdict.TheVariants.{Ended, Clogged, Jammed};
ghost use Rattle.kpn_history.specs.Channels.{written_on, capacity_after};
ghost use Rattle.kpn_history.specs.Legal.{Legal};
ghost use Rattle.kpn_net.specs.Faults.{IsNetwork};
ghost use Rattle.check_histories.specs.Claims.{StopsAs, RunsToItsEnd};
ghost use Rattle.check_histories.specs.Networks.{copy_network, kahn_network, two_network, two_at_limit, larger_network, tie_network, self_loop_network, two_readers_network, ended_reader_network, clogged_network, zero_divisor_network, overflow_network, doubling_network, doubling_to_limit_network, resolved_network, resolved_to_limit_network, small_full_network, outside_network, cycle_below_limit, cycle_at_limit};
ghost use Rattle.check_histories.specs.Runs.{copy_run, left_sink_run, two_run, reader_closes_run, larger_run, tie_run, self_loop_run, two_readers_run, ended_reader_run, freed_writer_run, zero_divisor_run, overflow_run, kahn_run, two_at_limit_run, clogged_run, doubling_run, doubled_to_limit_run, resolved_run, reader_waits_last_run, resolved_to_limit_run, small_full_run, end_settles_run, close_settles_run, take_settles_run, leave_settles_run, cycle_goes_first_run, other_grows_run};

// ---- runs to the end

/// A copy of 1, 2 and 3 ends if its source is closed and read.
pub fn copies_three_items()
    ensures run { RunsToItsEnd copy_network copy_run }
    ensures sink { written_on copy_run 1 ≡ pos 1 ∷ pos 2 ∷ pos 3 ∷ [] }
{}

/// The copy goes on if its sink is left, however full that is.
pub fn copies_into_a_left_sink()
    ensures run { RunsToItsEnd copy_network left_sink_run }
{}

/// Two channels between two processes: the first grows once, whoever closes the cycle.
pub fn two_channels_grow_once()
    ensures run { RunsToItsEnd two_network two_run }
    ensures first { capacity_after two_network two_run 0 ≡ Some 2 }
    ensures second { capacity_after two_network two_run 1 ≡ Some 1 }
    ensures sink { written_on two_run 2 ≡ pos 312 ∷ [] }
    ensures reader_closes { RunsToItsEnd two_network reader_closes_run }
{}

/// Of two full channels in one cycle the one with the smaller capacity grows.
pub fn the_smaller_grows()
    ensures run { RunsToItsEnd larger_network larger_run }
    ensures larger { capacity_after larger_network larger_run 0 ≡ Some 2 }
    ensures smaller { capacity_after larger_network larger_run 1 ≡ Some 2 }
{}

/// Of two full channels with one capacity the one with the smaller number grows.
pub fn the_first_of_a_tie_grows()
    ensures run { RunsToItsEnd tie_network tie_run }
    ensures first { capacity_after tie_network tie_run 0 ≡ Some 2 }
    ensures second { capacity_after tie_network tie_run 1 ≡ Some 1 }
{}

/// A channel from a process to itself grows once.
pub fn a_self_loop_grows_once()
    ensures run { RunsToItsEnd self_loop_network self_loop_run }
    ensures capacity { capacity_after self_loop_network self_loop_run 0 ≡ Some 2 }
{}

/// A channel that doubles grows from 1 to 2 and to 4.
pub fn a_channel_doubles_twice()
    ensures run { RunsToItsEnd doubling_network doubling_run }
    ensures capacity { capacity_after doubling_network doubling_run 0 ≡ Some 4 }
{}

/// Two readers wait for each other, and nothing grows.
pub fn two_readers_wait()
    ensures run { RunsToItsEnd two_readers_network two_readers_run }
{}

/// A writer never waits for a reader that has ended, even if it waited before.
pub fn a_writer_outlives_its_reader()
    ensures run { RunsToItsEnd ended_reader_network ended_reader_run }
    ensures freed { RunsToItsEnd ended_reader_network freed_writer_run }
{}

/// A fault ends only its process, and what it wrote before stays.
pub fn a_fault_ends_its_process()
    ensures zero_divisor { RunsToItsEnd zero_divisor_network zero_divisor_run }
    ensures overflow { RunsToItsEnd overflow_network overflow_run }
    ensures sink { written_on zero_divisor_run 0 ≡ pos 1 ∷ [] }
{}

// ---- runs that stop, or go on

/// Kahn's example until its sink had six items.
pub fn kahn_gives_six_items()
    ensures network { IsNetwork kahn_network }
    ensures legal { Legal kahn_network kahn_run }
    ensures sink { written_on kahn_run 5 ≡ pos 0 ∷ pos 1 ∷ pos 0 ∷ pos 1 ∷ pos 0 ∷ pos 1 ∷ [] }
{}

/// Two channels between two processes, under a limit that forbids the growth: the cycle stays.
pub fn two_channels_jam_at_the_limit()
    ensures { StopsAs two_at_limit two_at_limit_run Jammed }
{}

/// A channel of capacity 2 that doubles grows to the limit, which is 3, and the cycle stays there.
pub fn a_channel_doubles_to_the_limit()
    ensures run { StopsAs doubling_to_limit_network doubled_to_limit_run Jammed }
    ensures capacity { capacity_after doubling_to_limit_network doubled_to_limit_run 0 ≡ Some 3 }
{}

/// A writer waits on a full channel, in no cycle, for a process that waits in a cycle of empty channels.
pub fn a_writer_is_clogged()
    ensures { StopsAs clogged_network clogged_run Clogged }
{}

// ---- runs under the policy `all`

/// The same network runs to its end: the channel on which the writer waits grows when all stand still.
pub fn a_clogged_writer_goes_on()
    ensures run { RunsToItsEnd resolved_network resolved_run }
    ensures capacity { capacity_after resolved_network resolved_run 0 ≡ Some 3 }
{}

/// A channel grows whatever settles the run last: a wait on a full or an empty channel, an end, or a call of the
/// outside. Such a call closes a source, takes the last item of a sink or leaves it.
pub fn whatever_settles_lets_a_channel_grow()
    ensures wait_on_empty { Legal resolved_network reader_waits_last_run }
    ensures end { Legal outside_network end_settles_run }
    ensures close { Legal outside_network close_settles_run }
    ensures take { Legal outside_network take_settles_run }
    ensures leave { Legal outside_network leave_settles_run }
{}

/// A full channel on which nobody waits stays as it is, however small.
pub fn an_awaited_channel_grows()
    ensures run { RunsToItsEnd small_full_network small_full_run }
    ensures awaited { capacity_after small_full_network small_full_run 0 ≡ Some 3 }
    ensures other { capacity_after small_full_network small_full_run 3 ≡ Some 1 }
{}

/// A channel that doubles grows to the limit, which is 3, and the writer stays clogged there.
pub fn a_clogged_writer_stops_at_the_limit()
    ensures run { StopsAs resolved_to_limit_network resolved_to_limit_run Clogged }
    ensures capacity { capacity_after resolved_to_limit_network resolved_to_limit_run 0 ≡ Some 3 }
{}

/// The growth for a cycle goes first. A cycle whose channel is at the limit has none, and the other growth comes.
pub fn the_cycle_goes_first()
    ensures below_limit { RunsToItsEnd cycle_below_limit cycle_goes_first_run }
    ensures at_limit { StopsAs cycle_at_limit other_grows_run Jammed }
{}
