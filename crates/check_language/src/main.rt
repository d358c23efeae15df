//! The operators of the process language on a table of operands; and tests of the language and of its stepper, only by
//! their public calls, in a crate of their own, so that the two libraries are proved once.
//!
//! Each line of standard input is `LEFT OP RIGHT`, `- OPERAND`, `! OPERAND`, `~ OPERAND` or `OPERAND ? OPERAND :
//! OPERAND`, and the answer is the value or the fault. The stored table is at the ends of the range, and for shifts at
//! those of the counts. Another program (tools/operator_table.py) computed what must come, with whole numbers that have
//! no bound.
#![tactic(auto)]

#[cfg(test)]
mod language;
mod operators;
#[cfg(test)]
mod stepper;
#[cfg(test)]
mod worked;

use crate::operators::answer;
use anyhow::Result;
use kpn_lang::Fault;

fn main(rt: HostRuntime) -> Result<()> {
    for line in rt.lines(rt.alloc()) {
        match answer(rt.alloc(), line?.as_str())? {
            Ok(value) => println!(rt; "{value}")?,
            Err(Fault::Overflow) => println!(rt; "overflow")?,
            Err(Fault::ZeroDivisor) => println!(rt; "zero-divisor")?,
            Err(Fault::Index) => println!(rt; "index")?,
            Err(Fault::Shift) => println!(rt; "shift")?,
        }
    }
    Ok(())
}
