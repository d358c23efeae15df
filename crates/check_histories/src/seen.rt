//! Views of worked histories, as contracts of functions that do nothing.
ghost use Rattle.std.specs.Prelude.{take};
ghost use Rattle.kpn_history.specs.Views.{Agrees};
ghost use Rattle.check_histories.specs.Networks.{copy_network, two_network};
ghost use Rattle.check_histories.specs.Runs.{two_run};
ghost use Rattle.check_histories.specs.Views.{fed_closed_left, fed_closed_left_view, two_waiting_view, stale_waits_view, stale_counts_view, two_ended_view};

/// Views after the outside has fed and closed a source and left a sink, at a moment when two processes wait for each
/// other, and after both have ended.
pub fn views_agree()
    ensures fed_closed_left { Agrees copy_network fed_closed_left fed_closed_left_view }
    ensures waiting { Agrees two_network (take 3 two_run) two_waiting_view }
    ensures ended { Agrees two_network two_run two_ended_view }
{}

/// Once the channel has grown, its writer no longer waits in a view, and is no longer counted among those that wait.
pub fn stale_views_do_not_agree()
    ensures waits { ¬ Agrees two_network (take 4 two_run) stale_waits_view }
    ensures counts { ¬ Agrees two_network (take 4 two_run) stale_counts_view }
{}
