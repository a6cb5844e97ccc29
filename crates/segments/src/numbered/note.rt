//! Notes: entries of the list of places.

use crate::links::Link;
use trace_model::Place;

/// One place of a number, with the link to earlier notes of that number. A note never changes.
#[derive(Clone, Copy)]
pub(crate) struct Note {
    pub(crate) number: u32,
    pub(crate) place: Place,
    pub(crate) link: Link,
}
