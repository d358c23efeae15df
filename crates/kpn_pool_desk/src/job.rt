//! Which run the parts of a pool belong to, for contracts.
ghost use Rattle.std.specs.Prelude.{[]};
ghost use Rattle.kpn_net.specs.declared.tables.Growth.TheVariants.{One};
ghost use Rattle.kpn_net.specs.declared.tables.Policy.TheVariants.{Cycles};
ghost use Rattle.kpn_net.specs.Tables.{Tables};
ghost use Rattle.kpn_net.specs.View.{tables_with};
ghost use Rattle.kpn_history.specs.declared.keeping.Keeping.{Keeping};
ghost use Rattle.kpn_history.specs.declared.keeping.Keeping.TheVariants.{All};

use std::marker::Brand;
use std::sync::ledger::Ledger;

/// Names one run: its ledger, in which commits are counted and which has a part for each worker, its network, and what
/// is kept of it.
///
/// No value of it is made. A caller opens a run in a function of its own over `J: Job`, which it calls with `Brand` for
/// `J`. The proof of the call picks the members.
pub trait Job: Ledger {
    /// The network of the run, by value.
    ghost network: { Tables };

    /// What is kept in memory of what happens.
    ghost keeping: { Keeping };
}

impl Job for Brand {
    ghost network = { tables_with [] [] [] 0 Cycles One };

    ghost keeping = { All };
}
