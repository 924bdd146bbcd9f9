//! Where the event of a notification is likely to stand among the events: a guess, which the reader looks at before it takes it.

use indexmap::IndexSet;
use std::alloc::Global;
use tdf_base::Memory;

/// A map from names to their places.
pub(crate) fn places_of<'t>(
    alloc: Global,
    names: &'t [Vec<u8>],
) -> Result<IndexSet<&'t [u8]>, Memory> {
    let mut places = IndexSet::new(alloc);
    for k in 0..names.len() {
        places.insert(names[k].as_slice())?;
    }
    Ok(places)
}

/// The bytes up to the first LF.
fn first_line<'t>(text: &'t [u8]) -> Option<&'t [u8]> {
    match text.iter().position(|byte| *byte == b'\n') {
        Some(end) => Some(&text[..end]),
        None => None,
    }
}

/// The bytes up to the last space of the first line.
fn likely_name<'t>(text: &'t [u8]) -> Option<&'t [u8]> {
    let Some(line) = first_line(text) else {
        return None;
    };
    match line.iter().rposition(|byte| *byte == b' ') {
        Some(end) => Some(&line[..end]),
        None => None,
    }
}

/// The place of the name up to the last space of a line.
pub(crate) fn likely_place(places: &IndexSet<&[u8]>, text: &[u8]) -> Option<usize> {
    match likely_name(text) {
        Some(name) => places.get_index_of(name),
        None => None,
    }
}
