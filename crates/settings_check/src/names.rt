// Names that are not known, and the known ones nearest to them.

use std::alloc::{AllocError, Global};
use strsim::osa_distance;

/// A name with more bytes than this is like none that is known.
const LONGEST: usize = 24;

/// Of these names the nearest to one that is none of them, if one is near: by at most one letter that is wrong, missing, too many
/// or in its neighbour's place, in a long name by two or three.
pub(crate) fn nearest(
    alloc: Global,
    name: &str,
    known: &[&'static str],
) -> Result<Option<&'static str>, AllocError> {
    if name.len() > LONGEST {
        return Ok(None);
    }
    let lower = name.to_ascii_lowercase(alloc)?;
    let mut near = None;
    let mut least = 1 + name.len() / 4;
    for other in known {
        let distance = distance_of(alloc, lower.as_str(), other)?;
        if distance < least || (distance == least && near.is_none()) {
            least = distance;
            near = Some(*other);
        }
    }
    Ok(near)
}

/// How far two names are apart. Where one holds the other, as `devaddr` holds `addr`, that is one.
fn distance_of(alloc: Global, name: &str, known: &str) -> Result<usize, AllocError> {
    let distance = osa_distance(alloc, name, known)?;
    if distance > 1 && known.len() > 2 && name.contains(known) {
        return Ok(1);
    }
    Ok(distance)
}
