//! A process that was claimed, to be stepped.
use kpn_lang::Program;
use kpn_step::Frame;

/// A process that is held, its program and its frame.
#[derive(Debug, Drop)]
pub struct Claim<'n> {
    pub process: usize,
    pub program: &'n Program,
    pub frame: Frame,
}
