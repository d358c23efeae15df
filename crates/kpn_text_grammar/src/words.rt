//! The words that stand for settings of a network: one table, for reading and for printing.

ghost use Rattle.std.specs.Prelude.{◌≡◌};
ghost use Rattle.kpn_text_grammar.specs.Words as table;

use kpn_net::{Growth, Policy};

const POLICIES: [Policy; 2] = [Policy::Cycles, Policy::All];

const GROWTHS: [Growth; 2] = [Growth::One, Growth::Double];

/// The word that stands for a policy behind `policy`.
pub fn policy_word(policy: Policy) -> &'static [u8]
    ensures { result.now ≡ table.policy_word policy }
{
    match policy {
        Policy::Cycles => b"cycles",
        Policy::All => b"all",
    }
}

/// The policy that these bytes spell.
#[tactic(auto, unfolding(crate::specs::Words::policy_spelled))]
pub(crate) fn policy_spelled(word: &[u8]) -> Option<Policy>
    ensures { result ≡ table.policy_spelled word.now }
{
    POLICIES
        .iter()
        .copied()
        .find(|policy| policy_word(*policy) == word)
}

/// The word that stands for a growth behind `grow`.
pub fn growth_word(growth: Growth) -> &'static [u8]
    ensures { result.now ≡ table.growth_word growth }
{
    match growth {
        Growth::One => b"one",
        Growth::Double => b"double",
    }
}

/// The growth that these bytes spell.
#[tactic(auto, unfolding(crate::specs::Words::growth_spelled))]
pub(crate) fn growth_spelled(word: &[u8]) -> Option<Growth>
    ensures { result ≡ table.growth_spelled word.now }
{
    GROWTHS
        .iter()
        .copied()
        .find(|growth| growth_word(*growth) == word)
}
