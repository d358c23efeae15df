//! The first lines of a trace: its version, and from version 2 on by which rules its channels grew.
ghost use Rattle.std.specs.Prelude.{◌≡◌, ◌≢◌, ◌++◌, ◌∷◌, [], ◌↔◌, IsTrue, MatchOption};
ghost use Rattle.kpn_net.specs.declared.tables.Policy.{Policy};
ghost use Rattle.kpn_net.specs.declared.tables.Growth.{Growth};
ghost use Rattle.kpn_history.specs.declared.stored.Version.{Version};
ghost use Rattle.kpn_trace.specs.TraceText.{version_line, rules_line, head_text, IsHead, head_lines, HasBadHead};

use crate::words::parted;
use kpn_history::Version;
use kpn_net::{Growth, Policy};

/// What the first lines of a trace say.
#[derive(Clone, Copy)]
pub struct HeadRead {
    pub version: Version,
    pub policy: Policy,
    pub growth: Growth,
}

impl HeadRead {
    /// How many lines these are.
    pub fn lines(&self) -> usize
        ensures { result ≡ head_lines self.now.version }
    {
        match self.version {
            Version::One => 1,
            Version::Two => 2,
        }
    }
}

/// What the first lines of a trace say, and the bytes after them.
pub fn head_before(bytes: &[u8]) -> Option<(HeadRead, &[u8])>
    ensures { MatchOption result (HasBadHead bytes.now) (λ read.
        IsHead read.0.version read.0.policy read.0.growth
        × (bytes.now ≡ head_text read.0.version read.0.policy read.0.growth ++ read.1.now)) }
{
    let (line, rest) = parted(bytes, b'\n')?;
    let version = version_named(line)?;
    match version {
        Version::One => {
            let head = HeadRead {
                version: Version::One,
                policy: Policy::Cycles,
                growth: Growth::One,
            };
            Some((head, rest))
        }
        Version::Two => {
            let (second, lines) = parted(rest, b'\n')?;
            let (policy, growth) = rules_named(second)?;
            let head = HeadRead {
                version: Version::Two,
                policy,
                growth,
            };
            Some((head, lines))
        }
    }
}

/// The version that a first line names.
#[tactic(auto, using(crate::proofs::Traces::neither))]
fn version_named(line: &[u8]) -> Option<Version>
    ensures { MatchOption result ((version : Version) → line.now ≢ version_line version)
        (λ version. line.now ≡ version_line version) }
{
    if is_line(line, b"kpn-trace 1") {
        Some(Version::One)
    } else if is_line(line, b"kpn-trace 2") {
        Some(Version::Two)
    } else {
        None
    }
}

fn is_line(line: &[u8], other: &[u8]) -> bool
    ensures { IsTrue result ↔ (line.now ≡ other.now) }
{
    line == other
}

/// The policy and the growth that a second line names.
fn rules_named(line: &[u8]) -> Option<(Policy, Growth)>
    ensures { MatchOption result
        ((policy : Policy) (growth : Growth) → line.now ≢ rules_line policy growth)
        (λ read. line.now ≡ rules_line read.0 read.1) }
{
    match line {
        b"policy cycles grow one" => Some((Policy::Cycles, Growth::One)),
        b"policy cycles grow double" => Some((Policy::Cycles, Growth::Double)),
        b"policy all grow one" => Some((Policy::All, Growth::One)),
        b"policy all grow double" => Some((Policy::All, Growth::Double)),
        _ => None,
    }
}

/// The first lines of a trace of version 2.
pub fn head(policy: Policy, growth: Growth) -> &'static [u8]
    ensures { result.now ≡ head_text Version.Two policy growth }
{
    match policy {
        Policy::Cycles => head_of_cycles(growth),
        Policy::All => head_of_all(growth),
    }
}

fn head_of_cycles(growth: Growth) -> &'static [u8]
    ensures { result.now ≡ head_text Version.Two Policy.Cycles growth }
{
    match growth {
        Growth::One => b"kpn-trace 2\npolicy cycles grow one\n",
        Growth::Double => b"kpn-trace 2\npolicy cycles grow double\n",
    }
}

fn head_of_all(growth: Growth) -> &'static [u8]
    ensures { result.now ≡ head_text Version.Two Policy.All growth }
{
    match growth {
        Growth::One => b"kpn-trace 2\npolicy all grow one\n",
        Growth::Double => b"kpn-trace 2\npolicy all grow double\n",
    }
}
