//! What is asked between the steps of a process and their commit.
ghost use Rattle.std.specs.Prelude.{◌≡◌};
ghost use Rattle.kpn_pool_desk.specs.declared.gate.Go.TheVariants.{On};

/// Whether a worker goes on.
#[derive(Clone, Copy, Debug, PartialEq, Eq)]
pub enum Go {
    /// The steps are committed.
    On,
    /// The steps are dropped, the process is put back, as are those that the worker claimed after it, and the worker
    /// ends.
    Abandon,
}

/// Is asked after the steps of a process and before they are committed, while nobody holds the lock on its behalf.
pub trait Gate: Sync {
    ghost use Rattle.std.specs.Prelude.{ℕ, ◌≡◌, true};
    ghost use Rattle.kpn_pool_desk.specs.Gate.{LetsAll};
    ghost use Rattle.kpn_pool_desk.specs.declared.gate.Go.{Go};

    /// What it may answer when it is asked for this worker and this process; by default either.
    ghost may_answer: { Self → (worker process : ℕ) → Go → Type 0 } = { λ _ _ _ _. Unit {0} };

    /// Whether this worker, which has stepped this process, goes on. Both are numbers from 0. However long the answer
    /// takes, other workers go on with other processes. A worker claims up to eight at once, and asks for each in the
    /// order of its claims: so a gate that waits here for one that the same worker asks for later never meets
    /// it.
    fn between(&self, worker: usize, process: usize) -> Go
        ensures { may_answer self.now worker process result };

    /// Whether it lets everything through, so that it need not be asked. By default it does not say so, and is asked
    /// for each turn.
    fn lets_all(&self) -> bool
        ensures { (result ≡ true) → LetsAll (may_answer self.now) }
    {
        false
    }
}

/// The commit gate that lets every commit through.
#[derive(Clone, Copy, PartialEq, Eq)]
pub struct CommitsAll;

impl Gate for CommitsAll {
    ghost may_answer = { λ _ _ _ go. go ≡ On };

    fn between(&self, _worker: usize, _process: usize) -> Go {
        Go::On
    }

    fn lets_all(&self) -> bool {
        true
    }
}
