//! The items that events put on channels and feed to them.
ghost use Rattle.std.specs.Prelude.{◌≡◌, ◌++◌, ◌∷◌, if◌then◌else◌, [], OnOk};
ghost use Rattle.kpn_history.specs.Channels.{written_in};
ghost use Rattle.kpn_parts.specs.Links.{items_of, items_on};

use crate::order::PartEvent;
use kpn_history::Event;
use std::alloc::AllocError;

/// The item that an event puts on channel `c` of part `r` or feeds to it, if it does.
pub(crate) fn item_of(placed: PartEvent, r: usize, c: usize) -> Option<i64>
    ensures { items_on r c placed ≡ items_of result }
{
    if placed.part == r {
        item_on(placed.event, c)
    } else {
        None
    }
}

fn item_on(event: Event, c: usize) -> Option<i64>
    ensures { written_in c event ≡ items_of result }
{
    match event {
        Event::Put(_, d, v) => item_if(usize::from(d) == c, v),
        Event::Feed(d, v) => item_if(usize::from(d) == c, v),
        _ => None,
    }
}

fn item_if(is: bool, v: i64) -> Option<i64>
    ensures { items_of result ≡ if is then v ∷ [] else [] }
{
    if is { Some(v) } else { None }
}

pub(crate) fn push_item(items: &mut Vec<i64>, put: Option<i64>) -> Result<(), AllocError>
    ensures { OnOk result (items.new.items ≡ items.old.items ++ items_of put) }
{
    if let Some(v) = put {
        items.push(v)?;
    }
    Ok(())
}
