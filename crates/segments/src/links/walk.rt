//! Look-ups along the links.

ghost use Rattle.std.specs.Prelude.{◌≡◌, ◌<◌, ◌≤◌, true};
ghost use Rattle.trace_model.specs.Theory.Trace.{last_place};
ghost use Rattle.segments.specs.Linking.{count_below};

use crate::links::link::Linked;

/// Returns the passing entry that `number` passing entries precede. `from` is that entry or a later
/// one.
fn entry_before<L: Linked>(list: &L, from: u32, number: u32) -> u32
    requires within { from < L.size list.now }
    requires passing { L.matches list.now from ≡ true }
    requires number { number ≤ count_below (L.matches list.now) from }
    ensures within { result < L.size list.now }
    ensures matches { L.matches list.now result ≡ true }
    ensures number { count_below (L.matches list.now) result ≡ number }
{
    let mut index = from;
    let mut link = list.link_at(index);
    while link.number > number {
        let further = list.link_at(link.jump);
        if link.jump < index && further.number >= number {
            index = link.jump;
            link = further;
        } else {
            let Some(earlier) = link.earlier.get() else {
                unreachable!()
            };
            index = earlier;
            link = list.link_at(index);
        }
    }
    index
}

/// Returns the passing entry that `number` passing entries precede. `last` is the last passing
/// entry.
pub fn entry_at<L: Linked>(list: &L, last: Option<u32>, number: usize) -> u32
    requires last { last ≡ last_place (L.matches list.now) (L.size list.now) }
    requires number { number < count_below (L.matches list.now) (L.size list.now) }
    requires few { L.size list.now ≤ 4294967296 }
    ensures within { result < L.size list.now }
    ensures matches { L.matches list.now result ≡ true }
    ensures number { count_below (L.matches list.now) result ≡ number }
{
    let Some(from) = last else { unreachable!() };
    entry_before(list, from, number as u32)
}

/// Returns the number of passing entries. `last` is the last of them.
pub fn count_passing<L: Linked>(list: &L, last: Option<u32>) -> usize
    requires { last ≡ last_place (L.matches list.now) (L.size list.now) }
    ensures { result ≡ count_below (L.matches list.now) (L.size list.now) }
{
    match last {
        Some(last) => list.link_at(last).number as usize + 1,
        None => 0,
    }
}

/// Returns the last passing entry with an index below `bound`. `last` is the last passing entry of
/// all.
pub fn last_below<L: Linked>(list: &L, last: Option<u32>, bound: usize) -> Option<u32>
    requires last { last ≡ last_place (L.matches list.now) (L.size list.now) }
    requires within { bound ≤ L.size list.now }
    ensures { result ≡ last_place (L.matches list.now) bound }
{
    let mut at = last;
    while let Some(index) = at {
        if (index as usize) < bound {
            return Some(index);
        }
        let link = list.link_at(index);
        if link.jump < index && link.jump as usize >= bound {
            at = Some(link.jump);
        } else {
            at = link.earlier.get();
        }
    }
    None
}
