//! What holds of the findings of audits and of stored traces, as contracts of functions with nothing to do.
ghost use Rattle.std.specs.Prelude.{◌≡◌, ◌≢◌, ◌<◌, ◌+◌, ℕ, suc, List, length, take, count_by, Some, slice_get};
ghost use Rattle.kpn_net.specs.Tables.{Tables, channel_at, capacity};
ghost use Rattle.kpn_history.specs.declared.event.Event.{Event};
ghost use Rattle.kpn_history.specs.declared.event.Event.TheVariants.{Grow};
ghost use Rattle.kpn_history.specs.declared.stored.Version.TheVariants.{One};
ghost use Rattle.kpn_history.specs.Channels.{is_growth_of};
ghost use Rattle.kpn_history.specs.Legal.{Legal};
ghost use Rattle.kpn_audit.specs.declared.findings.AuditFault.{AuditFault};
ghost use Rattle.kpn_audit.specs.declared.findings.AuditFault.TheVariants.{NoMemory, Illegal};
ghost use Rattle.kpn_audit.specs.declared.scene.Scene.{Scene};
ghost use Rattle.kpn_audit.specs.declared.scene.Scene.TheVariants.{Process};
ghost use Rattle.kpn_audit.specs.declared.scene.Doing.TheVariants.{Elsewhere};
ghost use Rattle.kpn_audit.specs.Audit.{AreWithinSteps, IsFault};
ghost use Rattle.kpn_audit.specs.Scene.{IsSceneAt};
ghost use Rattle.kpn_audit.specs.Stored.{audited_under, history_of};

/// A network, a list of events and a quota have one finding: two faults that are not want of memory are the same, so
/// `Illegal` and `Budget` exclude each other; and a list that is accepted has no such fault.
pub fn one_finding()
    ensures faults { (t : Tables) (H : List Event) (quota : ℕ) (fault other : AuditFault)
        → IsFault t H quota fault → IsFault t H quota other
        → fault ≢ NoMemory → other ≢ NoMemory → fault ≡ other }
    ensures accepted { (t : Tables) (H : List Event) (quota : ℕ) (fault : AuditFault)
        → Legal t H → AreWithinSteps t H quota (length H)
        → IsFault t H quota fault → fault ≡ NoMemory }
{}

/// The events before an event that an audit finds illegal have no fault but want of memory. Nor is its process
/// elsewhere: within the quota of the audit it came to its next stop.
pub fn what_stands_before_an_illegal_event()
    ensures fault { (t : Tables) (H : List Event) (quota k : ℕ) → IsFault t H quota (Illegal k)
        → (fault : AuditFault) → IsFault t (take k H) quota fault → fault ≡ NoMemory }
    ensures somewhere { (t : Tables) (H : List Event) (quota k : ℕ) → IsFault t H quota (Illegal k)
        → (scene : Scene) → IsSceneAt t H k quota scene
        → (p : ℕ) → scene ≢ Process p Elsewhere }
{}

/// In a trace of version 1 a growth of a channel stands for the channel's first capacity, and one more for each growth
/// of the channel up to this one.
pub fn growths_of_version_one_are_counted()
    ensures { (t : Tables) (events : List Event) (k p c n first : ℕ)
        → slice_get events k ≡ Some (Grow p c n)
        → c < length t.channels → capacity (channel_at t c) ≡ Some first
        → slice_get (history_of One (audited_under One t) events) k
        ≡ Some (Grow p c (first + count_by (is_growth_of c) (take (suc k) events))) }
{}
