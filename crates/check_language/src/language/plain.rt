//! The plain program on small programs: how it ends, what it said, and what remains.
use crate::worked::{COPY, Line, Value, Worked, program_of};
use kpn_lang::{Ending, Fault, Program, Run, Said, Sequence, run_alone};
use std::alloc::Global;
use std::process::Abort;
use std::test::Fail;

// The run with 3 turns of a program with an in port.
fn ran(rt: &impl Abort, alloc: Global, program: &Program, items: &[i64]) -> Result<Run, Fail> {
    assert!(rt; program.pars() == 0);
    assert!(rt; program.ins() == 1);
    let lists = [Sequence::from_vec(items.to_vec(alloc)?)];
    Ok(run_alone(alloc, program, &[], &lists, 3)?)
}

// Writes 7, and then a quotient by a variable that is 0.
const FAULTY: Worked<'static> = (
    1,
    1,
    1,
    &[&[
        Line::Write(0, Value::Num(7)),
        Line::Write(0, Value::QuotientBy(1, 0)),
    ]],
);

/// A program, its items, how its run ends after which talk, its variables then, and the items that remain.
type Row<'a> = (
    Worked<'a>,
    &'a [i64],
    Ending,
    &'a [Said],
    &'a [i64],
    &'a [i64],
);

// It copies until it starves. A fault ends the run after its talk.
const ROWS: [Row<'static>; 2] = [
    (
        COPY,
        &[5],
        Ending::Starved(0),
        &[Said::Got(0, 5), Said::Put(0, 5)],
        &[5],
        &[],
    ),
    (
        FAULTY,
        &[5, 6],
        Ending::Faulted(Fault::ZeroDivisor),
        &[Said::Put(0, 7)],
        &[0],
        &[5, 6],
    ),
];

// Whether a run has come to what a row says.
fn came_to(run: &Run, row: &Row<'_>) -> bool {
    let (_, _, ending, talk, variables, rest) = row;
    run.ending() == *ending
        && run.talk() == *talk
        && run.variables() == *variables
        && matches!(run.rest(), [items] if items.as_slice() == *rest)
}

// Whether the run of a program comes to what a row says.
fn comes_to(
    rt: &impl Abort,
    alloc: Global,
    program: &Program,
    row: &Row<'_>,
) -> Result<bool, Fail> {
    let run = ran(rt, alloc, program, row.1)?;
    Ok(came_to(&run, row))
}

#[test]
fn runs_of_the_plain_program(rt: HostRuntime) -> Result<(), Fail> {
    for (k, row) in ROWS.iter().enumerate() {
        let program = program_of(rt.alloc(), row.0)?;
        let come = comes_to(&rt, rt.alloc(), &program, row);
        drop(program);
        assert!(rt; come?, "row {k}");
    }
    Ok(())
}
