//! Lists that stand in one flat list.
ghost use Rattle.std.specs.Prelude.{◌≡◌, ◌∷◌, [], ◌++◌, map, length, IfOk, IfErr, OnOk};
ghost use Rattle.kpn_c.specs.declared.lists.CutFault.TheVariants.{NoMemory};
ghost use Rattle.kpn_c.specs.Lists.{AreLists, RefusesCut, first_wanted};

use kpn_lang::Sequence;
use std::alloc::{AllocError, AllocFailed, Global};

/// Why a flat list is not cut.
#[derive(Clone, Copy)]
pub enum CutFault {
    /// The lengths do not sum up to the number of items.
    Lengths,
    /// Memory ran out.
    NoMemory,
}

impl From<AllocError> for CutFault {
    ghost from_gives = { λ _ fault. fault ≡ NoMemory };

    fn from(_error: AllocError) -> CutFault {
        CutFault::NoMemory
    }
}

impl<T: Drop> From<AllocFailed<T>> for CutFault {
    ghost from_gives = { λ _ fault. fault ≡ NoMemory };

    fn from(_failed: AllocFailed<T>) -> CutFault {
        CutFault::NoMemory
    }
}

/// The lists of these lengths that stand in one flat list, one after the other.
pub(crate) fn cut(
    alloc: Global,
    items: &[i64],
    lengths: &[usize],
) -> Result<Vec<Sequence<i64>>, CutFault>
    ensures lists { IfOk result (λ lists. AreLists items.now lengths.now lists.items) }
    ensures fault { IfErr result (RefusesCut items.now lengths.now) }
{
    let mut lists = Vec::new(alloc);
    let mut at = 0;
    'lists: for k in 0..lengths.len() {
        let length = lengths[k];
        if items.len() - at < length {
            return Err(CutFault::Lengths);
        }
        push_list(alloc, &mut lists, &items[at..at + length])?;
        at += length;
    }
    if at < items.len() {
        return Err(CutFault::Lengths);
    }
    Ok(lists)
}

fn push_list(alloc: Global, lists: &mut Vec<Sequence<i64>>, items: &[i64]) -> Result<(), AllocError>
    ensures { OnOk result (lists.new.items ≡ lists.old.items ++ items.now ∷ []) }
{
    let list = Sequence::from_vec(items.to_vec(alloc)?);
    lists.push(list)?;
    Ok(())
}

/// The items of these lists, list by list, and how many are of each: the first ones, as many as are wanted, or all.
pub(crate) fn flat_of(
    alloc: Global,
    lists: &[Sequence<i64>],
    wanted: Option<u64>,
) -> Result<(Vec<i64>, Vec<usize>), AllocError>
    ensures { IfOk result (λ told.
        AreLists told.0.items told.1.items (map (first_wanted wanted) lists.now)) }
{
    let mut items = Vec::new(alloc);
    let mut lengths = Vec::new(alloc);
    'lists: for k in 0..lists.len() {
        let list = first_wanted(lists[k].as_slice(), wanted);
        items.extend_from_slice(list)?;
        lengths.push(list.len())?;
    }
    Ok((items, lengths))
}

/// The first items of a list, as many as are wanted at most, or all.
fn first_wanted(items: &[i64], wanted: Option<u64>) -> &[i64]
    ensures { result.now ≡ first_wanted wanted items.now }
{
    match wanted {
        Some(most) if most < items.len() as u64 => &items[..most as usize],
        _ => items,
    }
}
