//! The link of the next entry.

ghost use Rattle.std.specs.Prelude.{◌≡◌, ◌<◌, ◌≤◌, true};
ghost use Rattle.trace_model.specs.Theory.Trace.{last_place};
ghost use Rattle.segments.specs.Linking.{IsLink};

use crate::MaybeIndex;
use crate::links::link::{Link, Linked};

/// Returns the entry to which the next passing entry jumps. `number` entries pass before it, and
/// the last of them is at `index`. The jump goes back to `number` without its lowest binary one, so
/// a path of jumps has few steps.
fn further<L: Linked>(list: &L, index: u32, link: Link, number: u32) -> u32
    requires within { index < L.size list.now }
    requires passing { L.matches list.now index ≡ true }
    requires link { IsLink (L.matches list.now) index link }
    ensures within { result ≤ index }
    ensures matches { L.matches list.now result ≡ true }
{
    let rounds = number.trailing_zeros();
    if rounds == 0 {
        return index;
    }
    let mut jump = link.jump;
    for _ in 1..rounds {
        jump = list.link_at(jump).jump;
    }
    jump
}

/// Returns the link of the next entry, if it matches. `last` is the last entry that matches, and
/// `index` is the length of the list.
#[inline(always)]
pub fn link_after<L: Linked>(list: &L, last: Option<u32>, index: u32) -> Link
    requires last { last ≡ last_place (L.matches list.now) (L.size list.now) }
    requires index { index ≡ L.size list.now }
    ensures { IsLink (L.matches list.now) index result }
{
    let Some(before) = last else {
        return Link {
            number: 0,
            earlier: MaybeIndex::none(),
            jump: index,
        };
    };
    let link = list.link_at(before);
    let number = link.number + 1;
    Link {
        number,
        earlier: MaybeIndex::at(before),
        jump: further(list, before, link, number),
    }
}
