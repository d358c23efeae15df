//! In what two runs differ of which one is not final, or is fed less, or leaves a sink, as contracts of functions that
//! do nothing. All final runs from the same lists end alike (`one_end` of `kpn_history`), and these show what that
//! needs.
ghost use Rattle.std.specs.Prelude.{◌≡◌, pos, [], ◌∷◌, take};
ghost use Rattle.kpn_net.specs.Iteration.{IsPrefixOnSources};
ghost use Rattle.kpn_history.specs.Channels.{written_on, read_on, fed};
ghost use Rattle.kpn_history.specs.Legal.{Legal};
ghost use Rattle.kpn_history.specs.Ends.{IsSettled};
ghost use Rattle.kpn_history.specs.Stops.{OwesNothing};
ghost use Rattle.kpn_history.specs.OneEnd.{growths_of, IsRunFrom, IsFinalRun};
ghost use Rattle.check_histories.specs.Networks.{copy_network, resolved_network};
ghost use Rattle.check_histories.specs.Runs.{copy_run, left_after_one_run, early_close_run, resolved_run};

/// A run at a stop that owes a growth has made less than the final one.
pub fn a_stop_that_owes_a_growth_has_less()
    ensures run { IsRunFrom resolved_network (λ c. []) (take 4 resolved_run) }
    ensures settled { IsSettled resolved_network (take 4 resolved_run) }
    ensures growths { growths_of (take 4 resolved_run) 0 ≡ 0 }
    ensures end { IsFinalRun resolved_network (λ c. []) resolved_run }
    ensures more { growths_of resolved_run 0 ≡ 2 }
{}

/// A run whose source was closed before its list was fed whole has made less, though it is settled and owes nothing.
pub fn a_source_that_is_closed_early_gives_less()
    ensures legal { Legal copy_network early_close_run }
    ensures settled { IsSettled copy_network early_close_run }
    ensures nothing_owed { OwesNothing copy_network early_close_run }
    ensures begun { IsPrefixOnSources copy_network (fed copy_network early_close_run)
        (fed copy_network copy_run) }
    ensures sink { written_on early_close_run 1 ≡ [] }
{}

/// Two final runs end alike though one leaves the sink. Only what was read of that differs.
pub fn a_sink_that_is_left_keeps_items()
    ensures reads { IsFinalRun copy_network (fed copy_network copy_run) copy_run }
    ensures leaves { IsFinalRun copy_network (fed copy_network copy_run) left_after_one_run }
    ensures whole { read_on copy_run 1 ≡ pos 1 ∷ pos 2 ∷ pos 3 ∷ [] }
    ensures one { read_on left_after_one_run 1 ≡ pos 1 ∷ [] }
{}
