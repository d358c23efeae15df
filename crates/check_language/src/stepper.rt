//! Rows of the stepper: how many steps it may make, and what the process says within them.
ghost use Rattle.std.specs.Prelude.{IfOk, IsTrue};
ghost use Rattle.kpn_step.specs.Frame.{fits};

use crate::worked::{COPY, Line, Value, Worked, celled, program_of};
use kpn_lang::{Fault, Program, ProgramFault, Sequence};
use kpn_step::{Advance, AloneStop, Frame, Said, Stop, advance, alone, try_advance};
use std::alloc::{AllocError, Global};
use std::process::Abort;
use std::test::Fail;

// `if 1 { if 0 { } else { k = 7; } } else { } write o k;`
const NESTED: Worked<'static> = (
    0,
    1,
    1,
    &[
        &[Line::If(Value::Num(1), 1, 4), Line::Write(0, Value::Var(0))],
        &[Line::If(Value::Num(0), 2, 3)],
        &[],
        &[Line::Assign(0, Value::Num(7))],
        &[],
    ],
);

const EMPTY: Worked<'static> = (0, 0, 0, &[&[]]);

// `if 0 { write o 1; } else { write o 2; }`
const ELSE: Worked<'static> = (
    0,
    1,
    0,
    &[
        &[Line::If(Value::Num(0), 1, 2)],
        &[Line::Write(0, Value::Num(1))],
        &[Line::Write(0, Value::Num(2))],
    ],
);

// `while (k < 2) { k = (k + 1); } write o k;`
const COUNTING: Worked<'static> = (
    0,
    1,
    1,
    &[
        &[
            Line::While(Value::Less(0, 2), 1),
            Line::Write(0, Value::Var(0)),
        ],
        &[Line::Assign(0, Value::Plus(0, 1))],
    ],
);

// It copies by the last of five variables.
const WIDE: Worked<'static> = (
    1,
    1,
    5,
    &[
        &[Line::While(Value::Num(1), 1)],
        &[Line::Read(0, 4), Line::Write(0, Value::Var(4))],
    ],
);

// `write o (1 / 0);`
const FAULTY_AT_ONCE: Worked<'static> = (0, 1, 0, &[&[Line::Write(0, Value::Quotient(1, 0))]]);

// `k = 1;`, and then `k = (1 / 0);` or `write o (1 / 0);`
const FAULTY: Worked<'static> = (
    0,
    1,
    1,
    &[&[
        Line::Assign(0, Value::Num(1)),
        Line::Assign(0, Value::Quotient(1, 0)),
    ]],
);

const FAULTY_WRITE: Worked<'static> = (
    0,
    1,
    1,
    &[&[
        Line::Assign(0, Value::Num(1)),
        Line::Write(0, Value::Quotient(1, 0)),
    ]],
);

// It writes `(k ? (7 / k) : 9)` and `(1 << k)` for each k that it reads.
const CHOOSING: Worked<'static> = (
    1,
    1,
    1,
    &[
        &[Line::While(Value::Num(1), 1)],
        &[
            Line::Read(0, 0),
            Line::Write(0, Value::QuotientOr(7, 0, 9)),
            Line::Write(0, Value::ShiftedBy(1, 0)),
        ],
    ],
);

// An array of two cells and the table 5, 7: for each k that it reads, `a[k] = t[k]; write o a[k]; write o a[0];`.
const SETTING: Worked<'static> = (
    1,
    1,
    1,
    &[
        &[Line::While(Value::Num(1), 1)],
        &[
            Line::Read(0, 0),
            Line::Set(64, 2, 0, Value::Cell(66, 2, 0)),
            Line::Write(0, Value::Cell(64, 2, 0)),
            Line::Assign(0, Value::Num(0)),
            Line::Write(0, Value::Cell(64, 2, 0)),
        ],
    ],
);

const SET: &[Said] = &[
    Said::Got(0, 1),
    Said::Put(0, 7),
    Said::Put(0, 0),
    Said::Got(0, 0),
    Said::Put(0, 5),
    Said::Put(0, 5),
    Said::Got(0, 2),
];

/// A program, the items of its in port, a quota, and what it then has said and where it has stopped.
type Row<'a> = (Worked<'a>, &'a [i64], u64, &'a [Said], AloneStop);

const COPIED: &[Said] = &[Said::Got(0, 5), Said::Put(0, 5)];

const FAULT: AloneStop = AloneStop::Faulted(Fault::ZeroDivisor);

const CHOSEN: &[Said] = &[
    Said::Got(0, 0),
    Said::Put(0, 9),
    Said::Put(0, 1),
    Said::Got(0, 2),
    Said::Put(0, 3),
    Said::Put(0, 4),
    Said::Got(0, 64),
    Said::Put(0, 0),
];

const SHIFT: AloneStop = AloneStop::Faulted(Fault::Shift);

const ROWS: [Row<'static>; 14] = [
    (COPY, &[5], 0, &[], AloneStop::Paused),
    (COPY, &[5], 1, COPIED, AloneStop::Paused),
    (COPY, &[5], 2, COPIED, AloneStop::Paused),
    (COPY, &[5], 3, COPIED, AloneStop::Starved(0)),
    (EMPTY, &[], 0, &[], AloneStop::Done),
    (NESTED, &[], 4, &[], AloneStop::Paused),
    (NESTED, &[], 5, &[Said::Put(0, 7)], AloneStop::Done),
    (ELSE, &[], 1, &[Said::Put(0, 2)], AloneStop::Paused),
    (COUNTING, &[], 6, &[], AloneStop::Paused),
    (COUNTING, &[], 7, &[Said::Put(0, 2)], AloneStop::Done),
    (FAULTY, &[], 1, &[], AloneStop::Paused),
    (FAULTY, &[], 2, &[], FAULT),
    (FAULTY_WRITE, &[], 1, &[], FAULT),
    (CHOOSING, &[0, 2, 64], 9, CHOSEN, SHIFT),
];

// Whether a program says so and stops so.
fn says(
    rt: &impl Abort,
    alloc: Global,
    program: &Program,
    row: &Row<'_>,
) -> Result<bool, AllocError> {
    let (_, items, quota, talk, stop) = row;
    let lists = [Sequence::from_vec(items.to_vec(alloc)?)];
    let lists = &lists[..program.ins().min(1)];
    assert!(rt; program.ins() == lists.len());
    assert!(rt; program.pars() == 0);
    let run = alone(alloc, program, &[], lists, *quota)?;
    Ok(run.talk.as_slice() == *talk && run.stop == *stop)
}

#[test]
fn goes_on_within_each_quota(rt: HostRuntime) -> Result<(), Fail> {
    for (k, row) in ROWS.iter().enumerate() {
        let program = program_of(rt.alloc(), row.0)?;
        let said = says(&rt, rt.alloc(), &program, row);
        drop(program);
        assert!(rt; said?, "row {k}");
    }
    Ok(())
}

// It takes four steps until it reads again. With one of the fourth round the index is none.
#[test]
fn sets_cells(rt: HostRuntime) -> Result<(), Fail> {
    const INDEX: AloneStop = AloneStop::Faulted(Fault::Index);
    for (quota, talk, stop) in [
        (1, &SET[..1], AloneStop::Paused),
        (2, &SET[..2], AloneStop::Paused),
        (9, &SET[..7], AloneStop::Paused),
        (10, SET, INDEX),
    ] {
        let program = celled(rt.alloc(), SETTING, 2, &[5, 7])??;
        let said = says(
            &rt,
            rt.alloc(),
            &program,
            &(SETTING, &[1, 0, 2], quota, talk, stop),
        );
        drop(program);
        assert!(rt; said?, "within {quota} steps");
    }
    // all cells are those of a table
    let refused = celled(rt.alloc(), SETTING, 0, &[0, 0, 5, 7])?;
    assert!(rt; matches!(refused, Err(ProgramFault::NoSuchVar)));
    Ok(())
}

// The frame past the read, or past the write, where an advance stopped.
fn given(rt: &impl Abort, reading: &Advance<'_>, item: i64) -> Result<Frame, AllocError>
    ensures { IfOk result (λ frame. IsTrue (fits reading.now.program frame)) }
{
    reading.known();
    let frame = reading.to().try_copy()?;
    match reading.stop() {
        Stop::WantRead(_) => Ok(frame.give(reading.program(), item)),
        _ => panic!(rt; "no read"),
    }
}

fn written(rt: &impl Abort, writing: &Advance<'_>) -> Result<Frame, AllocError>
    ensures { IfOk result (λ frame. IsTrue (fits writing.now.program frame)) }
{
    writing.known();
    let frame = writing.to().try_copy()?;
    match writing.stop() {
        Stop::WantWrite(..) => Ok(frame.wrote(writing.program())),
        _ => panic!(rt; "no write"),
    }
}

// Whether it made this many steps to this stop.
fn came_to(advance: &Advance<'_>, steps: u32, stop: Stop) -> bool {
    advance.steps() == steps && advance.stop() == stop
}

// Where a program first stops within this many steps.
fn first_stop(
    rt: &impl Abort,
    alloc: Global,
    worked: Worked<'_>,
    quota: u32,
) -> Result<Stop, Fail> {
    let program = program_of(alloc, worked)?;
    assert!(rt; program.pars() == 0 && program.cells() == 0);
    let stop = advance(&program, Frame::start(&program, &[]), quota).stop();
    drop(program);
    Ok(stop)
}

// The last two steps of a quota go by the statements, the others by codes.
fn refutes_faulting_write_puts_zero(rt: &impl Abort, alloc: Global) -> Result<(), Fail> {
    for quota in [2, 9] {
        let stop = first_stop(rt, alloc, FAULTY_AT_ONCE, quota)?;
        assert!(rt;
            stop == Stop::Faulted(Fault::ZeroDivisor),
            "within {quota} steps"
        );
    }
    Ok(())
}

#[test]
fn advances_from_stop_to_stop(rt: HostRuntime) -> Result<(), Fail> {
    refutes_faulting_write_puts_zero(&rt, rt.alloc())?;
    let program = program_of(rt.alloc(), COPY)?;
    assert!(rt; program.pars() == 0 && program.cells() == 0);
    let start = Frame::start(&program, &[]);
    assert!(rt; start.fits(&program));
    let reading = advance(&program, start.copy(), 9);
    assert!(rt; *reading.from() == start);
    assert!(rt; came_to(&reading, 1, Stop::WantRead(0)));
    let past = given(&rt, &reading, 5)?;
    let writing = try_advance(&program, past, 9)?;
    assert!(rt; came_to(&writing, 0, Stop::WantWrite(0, 5)));
    let past = written(&rt, &writing)?;
    let paused = try_advance(&program, past, 1)?;
    assert!(rt; came_to(&paused, 1, Stop::Paused));
    Ok(())
}

#[test]
fn frames_differ_by_each_field(rt: HostRuntime) -> Result<(), Fail> {
    let program = program_of(rt.alloc(), WIDE)?;
    assert!(rt; program.pars() == 0 && program.cells() == 0);
    let start = Frame::start(&program, &[]);
    let reading = advance(&program, start.copy(), 9);
    let five = given(&rt, &reading, 5)?;
    let zero = given(&rt, &reading, 0)?;
    let six = given(&rt, &reading, 6)?;
    let same = reading.to().try_copy()?;
    assert!(rt; *reading.to() == same);
    assert!(rt; *reading.to() != start, "by the places");
    assert!(rt; *reading.to() != zero, "by the innermost place");
    assert!(rt; five != six, "by the variables");
    let same = five.try_copy()?;
    assert!(rt; five == same);
    Ok(())
}

#[test]
fn refutes_always_pauses_in_place(rt: HostRuntime) -> Result<(), Fail> {
    let program = program_of(rt.alloc(), COPY)?;
    assert!(rt; program.pars() == 0 && program.cells() == 0);
    let start = Frame::start(&program, &[]);
    let mut frame = start.copy();
    let (_, stop) = frame.run(&program, 0);
    assert!(rt; stop == Stop::Paused);
    let (steps, stop) = frame.run(&program, 9);
    assert!(rt; steps == 1 && stop == Stop::WantRead(0));
    assert!(rt; *advance(&program, start.copy(), 9).to() == frame);
    frame.copy_from(&start);
    assert!(rt; frame == start);
    Ok(())
}
