//! An advance of a process. It names its own input, so that it can be judged later.
ghost use Rattle.std.specs.Prelude.{◌≡◌};
ghost use Rattle.kpn_step.specs.Stops.{IsAdvance, IsAtPort, advanced_of};

use crate::frame::Frame;
use crate::stop::Stop;
use kpn_lang::Program;
use std::marker::Model;

/// Steps that a process made: its program, the frames before and after, how many steps lie between,
/// and the stop at which they ended.
#[derive(Debug, Drop)]
pub struct Advance<'p> {
    program: &'p Program,
    from: Frame,
    to: Frame,
    steps: u32,
    stop: Stop,
}

impl<'p> Model for Advance<'p> {
    ghost use Rattle.kpn_step.specs.Stops.{Advanced, advanced_of, IsAdvance};
    ghost use Rattle.kpn_step.specs.Codes.{advanced_code};

    ghost Value = { Advanced };

    ghost coded = { advanced_code };

    ghost view = { λ a. advanced_of a.program.now a.from a.to a.steps a.stop };

    ghost invariant = { λ a. IsAdvance (advanced_of a.program.now a.from a.to a.steps a.stop) };
}

impl<'p> Advance<'p> {
    pub(crate) fn new(program: &'p Program, from: Frame, to: Frame, steps: u32, stop: Stop) -> Self
        requires { IsAdvance (advanced_of program.now from to steps stop) }
        ensures { result ≡ advanced_of program.now from to steps stop }
    {
        Advance {
            program,
            from,
            to,
            steps,
            stop,
        }
    }

    /// The program that was handed in.
    pub fn program(&self) -> &'p Program
        ensures { result.now ≡ self.now.program }
    {
        self.program
    }

    /// The frame that was handed in.
    pub fn from(&self) -> &Frame
        ensures { result.now ≡ self.now.from }
    {
        &self.from
    }

    /// The frame after the steps.
    pub fn to(&self) -> &Frame
        ensures { result.now ≡ self.now.to }
    {
        &self.to
    }

    /// How many steps were made.
    pub fn steps(&self) -> u32
        ensures { result ≡ self.now.steps }
    {
        self.steps
    }

    /// Why they ended: the stop at the frame after them.
    pub fn stop(&self) -> Stop
        ensures { result ≡ self.now.stop }
    {
        self.stop
    }

    /// Does nothing. A caller's proof learns from it what the steps are, and that a stop at a read or a write names a
    /// port of the program.
    pub fn known(&self)
        ensures advance { IsAdvance self.now }
        ensures port { IsAtPort self.now.program self.now.to self.now.stop }
    {
        self.program.known();
    }
}
