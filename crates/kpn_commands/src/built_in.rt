//! The processes that `kpn alone` knows.
ghost use Rattle.std.specs.Prelude.{◌≡◌, ◌≢◌, IfOk, IfErr, MatchOption, map};
ghost use Rattle.kpn_lang.specs.Syntax.{term_of, Bin, statement_of};

use kpn_command_base::Refusal;
use kpn_lang::{Expr, Op, Program, Stmt};
use kpn_text::TextFault;
use std::alloc::{AllocError, Global};

/// A process with one in port and one out port that goes on as long as items come.
#[derive(Clone, Copy, PartialEq, Eq)]
pub enum BuiltIn {
    /// Puts each item: `while 1 { read i x; write o x; }`.
    Copy,
    /// Puts twice each item: `while 1 { read i x; write o (x * 2); }`.
    Double,
    /// Puts the sum of the items so far: `while 1 { read i x; t = (t + x); write o t; }`.
    Sum,
}

// The one port on either side, and the variables in order of first target.
const PORT: usize = 0;

const X: usize = 0;

const T: usize = 1;

impl BuiltIn {
    ghost use Rattle.kpn_commands.specs.BuiltIn.{name_of, turn_of, variables_of, built_in_program};
    ghost use Rattle.kpn_commands.specs.Refused.{WantsMemory};

    /// The process of this name.
    pub fn named(name: &str) -> Option<BuiltIn>
        ensures { MatchOption result ((process : _) → name_of process ≢ name.now)
            (λ process. name_of process ≡ name.now) }
    {
        match name {
            "copy" => Some(BuiltIn::Copy),
            "double" => Some(BuiltIn::Double),
            "sum" => Some(BuiltIn::Sum),
            _ => None,
        }
    }

    /// Its name.
    pub fn name(self) -> &'static str
        ensures { result.now ≡ name_of self }
    {
        match self {
            BuiltIn::Copy => "copy",
            BuiltIn::Double => "double",
            BuiltIn::Sum => "sum",
        }
    }

    /// Its program. A turn of its loop takes 2 steps, and 3 in `sum`: the test, what is assigned, and the leaving of
    /// the finished block.
    ///
    /// If memory runs out, the refusal is 42 while the code makes the parts. In the program that is made of them it is
    /// 28, as in a program of a description.
    pub fn program(self, alloc: Global) -> Result<Program, Refusal>
        ensures program { IfOk result (λ program. program ≡ built_in_program self) }
        ensures refused { IfErr result WantsMemory }
    {
        let body = vec![in alloc; Stmt::While(Expr::Num(1), 1)]?;
        let blocks = vec![in alloc; body, self.turn(alloc)?]?;
        match Program::new(alloc, 1, 1, 0, self.variables(), blocks) {
            Ok(program) => Ok(program),
            // These parts keep each rule of the language, so memory ran out.
            Err(_) => Err(Refusal::Description(TextFault::NoMemory)),
        }
    }

    // How many variables it has: `x`, and in `sum` the total `t`.
    fn variables(self) -> usize
        ensures { result ≡ variables_of self }
    {
        match self {
            BuiltIn::Copy | BuiltIn::Double => 1,
            BuiltIn::Sum => 2,
        }
    }

    // What it does with one item.
    fn turn(self, alloc: Global) -> Result<Vec<Stmt>, AllocError>
        ensures { IfOk result (λ turn. map statement_of turn.items ≡ turn_of self) }
    {
        let read = Stmt::Read(PORT, X);
        let turn = match self {
            BuiltIn::Copy => vec![in alloc; read, Stmt::Write(PORT, Expr::Var(X))]?,
            BuiltIn::Double => {
                let twice = binary(alloc, Op::Mul, Expr::Var(X), Expr::Num(2))?;
                vec![in alloc; read, Stmt::Write(PORT, twice)]?
            }
            BuiltIn::Sum => {
                let sum = binary(alloc, Op::Add, Expr::Var(T), Expr::Var(X))?;
                vec![in alloc; read, Stmt::Assign(T, sum), Stmt::Write(PORT, Expr::Var(T))]?
            }
        };
        Ok(turn)
    }
}

fn binary(alloc: Global, op: Op, left: Expr, right: Expr) -> Result<Expr, AllocError>
    ensures { IfOk result (λ whole. term_of whole ≡ Bin op (term_of left) (term_of right)) }
{
    let left = Box::new(alloc, left)?;
    let right = Box::new(alloc, right)?;
    Ok(Expr::Bin(op, left, right))
}
