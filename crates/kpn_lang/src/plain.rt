//! The plain program: it runs a program alone on whole lists by recursion over its blocks, as the
//! definition of a run says.
ghost use Rattle.std.specs.Prelude.{◌≡◌, ◌≤◌, ◌<◌, [], ◌∷◌, ◌++◌, length, drop, IfOk, IsTrue, slice_set};
ghost use Rattle.kpn_lang.specs.Syntax.{Set, term_of, statement_of};
ghost use Rattle.kpn_lang.specs.Value.{value};
ghost use Rattle.kpn_lang.specs.Parts.{is_there, names_its_own, names_ports_below, places};
ghost use Rattle.kpn_lang.specs.Tree.{tree_of, tree_over};
ghost use Rattle.kpn_lang.specs.Run.{run, turns};
ghost use Rattle.kpn_lang.specs.Lists.{remaining, next_at, without_next};
ghost use Rattle.kpn_lang.specs.Alone.{alone, start_of};
ghost use Rattle.kpn_lang.specs.Plain.{Does, holds, goes_on, LeadsTo, MayRun};

use crate::program::Program;
use crate::sequence::{Sequence, next_item};
use crate::syntax::{BlockId, Expr, Stmt};
use crate::talk::{Ending, Said};
use crate::value::{Fault, eval_in, index_in};
use std::alloc::{AllocError, Global};
use std::marker::Model;

/// What a run came to: how it ended, the variables then, what remained of the lists, and what the process said, in
/// order.
#[derive(Drop)]
pub struct Run {
    ending: Ending,
    variables: Sequence<i64>,
    rest: Sequence<Sequence<i64>>,
    talk: Sequence<Said>,
}

impl Model for Run {
    ghost use Rattle.kpn_lang.specs.Run.{Ran};

    ghost Value = { Ran };

    ghost view = { λ r.
        record { ending = r.ending; variables = r.variables; rest = r.rest; talk = r.talk } };
}

impl Run {
    /// How the run ended.
    pub fn ending(&self) -> Ending
        ensures { result ≡ self.now.ending }
    {
        self.ending
    }

    /// The variables at the end, the parameters first, and the cells after them.
    pub fn variables(&self) -> &[i64]
        ensures { result.now ≡ self.now.variables }
    {
        self.variables.as_slice()
    }

    /// What remained of the list of each in port, in order of port.
    pub fn rest(&self) -> &[Sequence<i64>]
        ensures { result.now ≡ self.now.rest }
    {
        self.rest.as_slice()
    }

    /// What the process said, in order.
    pub fn talk(&self) -> &[Said]
        ensures { result.now ≡ self.now.talk }
    {
        self.talk.as_slice()
    }
}

/// Runs a program alone with these parameters on these lists, one for each in port. Each loop that the run enters has
/// this many turns. If a loop would begin one more, the run is cut.
pub fn run_alone(
    alloc: Global,
    program: &Program,
    pars: &[i64],
    lists: &[Sequence<i64>],
    turns: u32,
) -> Result<Run, AllocError>
    requires pars { length pars.now ≡ program.now.pars }
    requires lists { length lists.now ≡ program.now.ins }
    ensures { IfOk result (λ run. run ≡ alone program.now pars.now turns lists.now) }
{
    program.known();
    let mut state = State::start(alloc, program, pars, lists)?;
    let answer = Interpreter { program, turns }.block(&mut state, 0)?;
    state.end(alloc, answer.unwrap_or(Ending::Done))
}

/// A program, and how many turns each loop has that a run enters.
#[derive(Clone, Copy)]
struct Interpreter<'a> {
    program: &'a Program,
    turns: u32,
}

impl Interpreter<'_> {
    // Runs a block. `None` if it came to its end, else the ending of the whole run.
    #[cycle(interpreter)]
    fn block(&self, state: &mut State<'_>, block: BlockId) -> Result<Option<Ending>, AllocError>
        requires { MayRun self.now.program.now state.old }
        ensures { let tree = tree_of self.now.program.now.blocks block in
            IfOk result (λ answer.
            LeadsTo (run tree self.now.turns) (goes_on answer) state.old state.new) }
    {
        let Some(statements) = self.program.block(block) else {
            return Ok(None);
        };
        for statement in statements {
            if let Some(ending) = self.statement(state, statement)? {
                return Ok(Some(ending));
            }
        }
        Ok(None)
    }

    // Runs a statement, with the blocks inside it.
    #[cycle(interpreter)]
    fn statement(
        &self,
        state: &mut State<'_>,
        statement: &Stmt,
    ) -> Result<Option<Ending>, AllocError>
        requires may_run { MayRun self.now.program.now state.old }
        requires names { IsTrue (names_its_own self.now.program.now (statement_of statement.now)) }
        requires ports { let parts = self.now.program.now in
            IsTrue (names_ports_below parts.ins parts.outs (statement_of statement.now)) }
        ensures { let inner = tree_of self.now.program.now.blocks in
            let tree = tree_over inner (statement_of statement.now ∷ []) in
            IfOk result (λ answer.
            LeadsTo (run tree self.now.turns) (goes_on answer) state.old state.new) }
    {
        match statement {
            Stmt::Assign(variable, expr) => match state.value(self.program, expr) {
                Ok(value) => {
                    state.assign(*variable, value);
                    Ok(None)
                }
                Err(fault) => Ok(Some(Ending::Faulted(fault))),
            },
            Stmt::Read(port, variable) => match state.next_item(*port) {
                Some(item) => {
                    state.assign(*variable, item);
                    state.say(Said::Got(*port, item))?;
                    Ok(None)
                }
                None => Ok(Some(Ending::Starved(*port))),
            },
            Stmt::Write(port, expr) => match state.value(self.program, expr) {
                Ok(value) => {
                    state.say(Said::Put(*port, value))?;
                    Ok(None)
                }
                Err(fault) => Ok(Some(Ending::Faulted(fault))),
            },
            Stmt::If(test, first, second) => match state.test(self.program, test) {
                Ok(true) => self.block(state, *first),
                Ok(false) => self.block(state, *second),
                Err(fault) => Ok(Some(Ending::Faulted(fault))),
            },
            Stmt::While(test, body) => self.repeat(state, test, *body),
            Stmt::Set(base, size, index, item) => {
                match state.set(self.program, *base, *size, index, item) {
                    Ok(()) => Ok(None),
                    Err(fault) => Ok(Some(Ending::Faulted(fault))),
                }
            }
        }
    }

    // Runs a loop that the run enters now.
    #[cycle(interpreter)]
    fn repeat(
        &self,
        state: &mut State<'_>,
        test: &Expr,
        body: BlockId,
    ) -> Result<Option<Ending>, AllocError>
        requires may_run { MayRun self.now.program.now state.old }
        requires names { IsTrue (is_there self.now.program.now (term_of test.now)) }
        ensures { let round = run (tree_of self.now.program.now.blocks body) self.now.turns in
            IfOk result (λ answer.
            LeadsTo (turns self.now.turns (term_of test.now) round) (goes_on answer)
            state.old state.new) }
    {
        for _turn in 0..self.turns {
            match state.test(self.program, test) {
                Ok(true) => {}
                Ok(false) => return Ok(None),
                Err(fault) => return Ok(Some(Ending::Faulted(fault))),
            }
            if let Some(ending) = self.block(state, body)? {
                return Ok(Some(ending));
            }
        }
        match state.test(self.program, test) {
            Ok(true) => Ok(Some(Ending::Cut)),
            Ok(false) => Ok(None),
            Err(fault) => Ok(Some(Ending::Faulted(fault))),
        }
    }
}

/// Where a run is: the place of the next item in each list, the variables and the talk so far.
#[derive(Drop)]
struct State<'a> {
    lists: &'a [Sequence<i64>],
    places: Vec<usize>,
    variables: Vec<i64>,
    talk: Vec<Said>,
}

impl<'a> Model for State<'a> {
    ghost use Rattle.std.specs.Prelude.{◌≡◌, length};
    ghost use Rattle.kpn_lang.specs.Lists.{remaining};
    ghost use Rattle.kpn_lang.specs.Plain.{Standing};

    ghost Value = { Standing };

    ghost view = { λ s. record {
      variables = s.variables.items;
      lists = remaining s.lists.now s.places.items;
      talk = s.talk.items;
    } };

    ghost invariant = { λ s. length s.places.items ≡ length s.lists.now };
}

impl<'a> State<'a> {
    // The parameters, zeros and the cells, and nothing read or said.
    fn start(
        alloc: Global,
        program: &Program,
        pars: &[i64],
        lists: &'a [Sequence<i64>],
    ) -> Result<Self, AllocError>
        requires { length pars.now ≤ program.now.vars }
        ensures { IfOk result (λ state. state ≡
            record { variables = start_of program.now pars.now; lists = lists.now; talk = [] }) }
    {
        let mut variables = pars.to_vec(alloc)?;
        variables.resize(program.vars(), 0)?;
        program.push_cells(&mut variables)?;
        Ok(State {
            lists,
            places: vec![in alloc; 0; lists.len()]?,
            variables,
            talk: Vec::new(alloc),
        })
    }

    fn value(&self, program: &Program, expr: &Expr) -> Result<i64, Fault>
        requires all { length self.now.variables ≡ places program.now }
        requires there { IsTrue (is_there program.now (term_of expr.now)) }
        ensures { result ≡ value (term_of expr.now) self.now.variables }
    {
        let (variables, cells) = self.variables.as_slice().split_at(program.vars());
        eval_in(expr, variables, cells)
    }

    fn test(&self, program: &Program, expr: &Expr) -> Result<bool, Fault>
        requires all { length self.now.variables ≡ places program.now }
        requires there { IsTrue (is_there program.now (term_of expr.now)) }
        ensures { result ≡ holds (value (term_of expr.now) self.now.variables) }
    {
        Ok(self.value(program, expr)? != 0)
    }

    // Sets a cell, or finds the fault of its index or of the expression.
    fn set(
        &mut self,
        program: &Program,
        base: usize,
        size: usize,
        index: &Expr,
        item: &Expr,
    ) -> Result<(), Fault>
        requires all { length self.old.variables ≡ places program.now }
        requires there { let i = term_of index.now in let e = term_of item.now in
            IsTrue (names_its_own program.now (Set base size i e)) }
        ensures { let i = term_of index.now in let e = term_of item.now in
            Does (Set base size i e) result self.old self.new }
    {
        program.known();
        let number = self.value(program, index)?;
        let place = index_in(size, number)?;
        let new = self.value(program, item)?;
        self.assign(base + place, new);
        Ok(())
    }

    fn assign(&mut self, variable: usize, value: i64)
        requires { variable < length self.old.variables }
        ensures { self.new ≡ record self.old {
          variables = slice_set self.old.variables variable value;
        } }
    {
        self.variables[variable] = value;
    }

    fn say(&mut self, said: Said) -> Result<(), AllocError>
        ensures { IfOk result (λ _.
            self.new ≡ record self.old { talk = self.old.talk ++ said ∷ [] }) }
    {
        self.talk.push(said)?;
        Ok(())
    }

    // The next item of the list of a port, if there is one, which is then read.
    fn next_item(&mut self, port: usize) -> Option<i64>
        requires { port < length self.old.lists }
        ensures item { result ≡ next_at self.old.lists port }
        ensures rest { let rest = without_next self.old.lists port in
            self.new ≡ record self.old { lists = rest } }
    {
        next_item(self.lists, &mut self.places, port)
    }

    fn end(self, alloc: Global, ending: Ending) -> Result<Run, AllocError>
        ensures { let here = self.entry in
            IfOk result (λ run. run ≡ record {
              ending = ending;
              variables = here.variables;
              rest = here.lists;
              talk = here.talk;
            }) }
    {
        let rest = rest_of(alloc, self.lists, &self.places)?;
        Ok(Run {
            ending,
            variables: Sequence::from_vec(self.variables),
            rest,
            talk: Sequence::from_vec(self.talk),
        })
    }
}

fn items_from(alloc: Global, items: &[i64], place: usize) -> Result<Sequence<i64>, AllocError>
    ensures { IfOk result (λ rest. rest ≡ drop place items.now) }
{
    let place = place.min(items.len());
    Ok(Sequence::from_vec(items[place..].to_vec(alloc)?))
}

// What remains of each list.
fn rest_of(
    alloc: Global,
    lists: &[Sequence<i64>],
    places: &[usize],
) -> Result<Sequence<Sequence<i64>>, AllocError>
    requires { length places.now ≡ length lists.now }
    ensures { IfOk result (λ rest. rest ≡ remaining lists.now places.now) }
{
    let mut rest = Vec::new(alloc);
    for (port, list) in lists.iter().enumerate() {
        rest.push(items_from(alloc, list.as_slice(), places[port])?)?;
    }
    Ok(Sequence::from_vec(rest))
}
