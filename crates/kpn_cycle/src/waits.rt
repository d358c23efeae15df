//! Wait tables: what each process of a network waits for.
ghost use Rattle.std.specs.Prelude.{◌≡◌, ◌<◌, length, replicate, slice_set, IfOk};
ghost use Rattle.kpn_net.specs.declared.wait.Wait.TheVariants.{Nobody};
ghost use Rattle.kpn_net.specs.Waits.{wait_at};

use kpn_net::Wait;
use std::alloc::{AllocError, Allocator, Global};
use std::marker::Model;

/// A wait for each process, in order of number. Contracts see it as the list of these.
#[derive(Debug, Drop)]
pub struct Waits<A: Allocator = Global> {
    waits: Vec<Wait, A>,
}

impl<A: Allocator> Model for Waits<A> {
    ghost use Rattle.std.specs.Prelude.{List};
    ghost use Rattle.kpn_net.specs.declared.wait.Wait.{Wait};

    ghost Value = { List Wait };

    ghost view = { λ w. w.waits.items };
}

impl<A: Allocator> Waits<A> {
    /// The table of `n` processes that wait for nobody. The error is that memory ran out.
    pub fn new(alloc: A, n: usize) -> Result<Self, AllocError>
        ensures { IfOk result (λ waits. waits ≡ replicate n Nobody) }
    {
        let waits = vec![in alloc; Wait::Nobody; n]?;
        Ok(Waits { waits })
    }

    /// From now on process `p` waits for this. All others wait for what they did.
    pub fn set(&mut self, p: usize, wait: Wait)
        requires { p < length self.old }
        ensures { self.new ≡ slice_set self.old p wait }
    {
        self.waits[p] = wait;
    }

    /// What process `p` waits for.
    pub fn get(&self, p: usize) -> Wait
        requires { p < length self.now }
        ensures { result ≡ wait_at self.now p }
    {
        self.waits[p]
    }
}
