//! Which channels of worked histories are complete, as contracts of functions that do nothing.
ghost use Rattle.std.specs.Prelude.{◌≡◌, pos, [], ◌∷◌};
ghost use Rattle.kpn_history.specs.declared.state.Verdict.TheVariants.{Clogged};
ghost use Rattle.kpn_history.specs.Channels.{written_on};
ghost use Rattle.kpn_history.specs.Complete.{IsComplete};
ghost use Rattle.check_histories.specs.Claims.{StopsAs};
ghost use Rattle.check_histories.specs.Networks.{copy_network, two_network, two_at_limit, two_readers_network, clogged_network, resolved_network, zero_divisor_network, delayed_network, scaled_network, scaled_to_limit_network};
ghost use Rattle.check_histories.specs.Runs.{copy_run, two_run, two_at_limit_run, two_readers_run, clogged_run, resolved_run, zero_divisor_run, delayed_run, scaled_run, scaled_to_limit_run, open_run};

/// Behind a used-up source a delay has written an item that nobody will read, and waits for room. The sink is complete.
pub fn a_delay_hides_no_item()
    ensures run { StopsAs delayed_network delayed_run Clogged }
    ensures sink { IsComplete delayed_network delayed_run 3 }
    ensures surplus { ¬ IsComplete delayed_network delayed_run 2 }
{}

/// A generator beside a used-up source is clogged under each policy, and the sink is complete.
pub fn a_generator_hides_no_item()
    ensures run { StopsAs scaled_network scaled_run Clogged }
    ensures sink { IsComplete scaled_network scaled_run 2 }
    ensures surplus { ¬ IsComplete scaled_network scaled_run 1 }
    ensures run_to_limit { StopsAs scaled_to_limit_network scaled_to_limit_run Clogged }
    ensures sink_at_limit { IsComplete scaled_to_limit_network scaled_to_limit_run 2 }
{}

/// The channels of a true deadlock are complete.
pub fn a_deadlock_is_complete()
    ensures first { IsComplete two_readers_network two_readers_run 0 }
    ensures second { IsComplete two_readers_network two_readers_run 1 }
{}

/// The channel of a clogged writer is not complete: under the policy `all` it gets more. Those of the deadlock are.
pub fn a_clogged_writer_has_more()
    ensures writer { ¬ IsComplete clogged_network clogged_run 0 }
    ensures deadlock { IsComplete clogged_network clogged_run 1 }
    ensures had { written_on clogged_run 0 ≡ pos 1 ∷ [] }
    ensures gets { written_on resolved_run 0 ≡ pos 1 ∷ pos 2 ∷ pos 3 ∷ [] }
    ensures whole { IsComplete resolved_network resolved_run 0 }
{}

/// The sink after a channel that is full at the limit is not complete: with more room it gets an item, and is.
pub fn a_sink_behind_a_full_channel_has_more()
    ensures sink { ¬ IsComplete two_at_limit two_at_limit_run 2 }
    ensures had { written_on two_at_limit_run 2 ≡ [] }
    ensures gets { written_on two_run 2 ≡ pos 312 ∷ [] }
    ensures whole { IsComplete two_network two_run 2 }
{}

/// What a process wrote before it faulted is all that it writes.
pub fn a_faulted_writer_is_complete()
    ensures { IsComplete zero_divisor_network zero_divisor_run 0 }
{}

/// A copy of what was fed is complete only if its source is closed.
pub fn an_open_source_has_more()
    ensures source { ¬ IsComplete copy_network open_run 0 }
    ensures sink { ¬ IsComplete copy_network open_run 1 }
    ensures closed { IsComplete copy_network copy_run 1 }
{}
