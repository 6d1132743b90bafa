// Providers of a home that have one folder.
use crate::block_name::put_folder;
use crate::home::is_remote;
use file_parts::found::found;
use file_parts::unsynced::Place;
use hail_field::Memory;
use std::alloc::{AllocError, Global};
use std::fs::{self, Files};

/// Where a provider's folder is; none where it is not there, can't be looked at, or is on another machine.
fn place_of<R: Files>(rt: &R, alloc: Global, home: &str, k: u8) -> Result<Option<Place>, Memory> {
    if is_remote(rt, alloc, home, k)? {
        return Ok(None);
    }
    let mut path = String::new(alloc);
    put_folder(&mut path, home, k)?;
    match found(fs::metadata(rt, &path)) {
        Ok(Some(metadata)) => Ok(Some(Place::of(&metadata))),
        _ => Ok(None),
    }
}

/// Whether one of these places is this one.
fn has(places: &[Place], place: Place) -> bool {
    for other in places {
        if other.is_also(place) {
            return true;
        }
    }
    false
}

/// The first provider of a home whose folder is also that of one with a lower number: a put would go to both, and
/// each would answer for the other. Looks at all folders, and opens nothing. Want of memory is its one refusal.
pub fn first_twin<R: Files>(rt: &R, alloc: Global, home: &str) -> Result<Option<u8>, Memory> {
    let mut places = Vec::new(alloc);
    for k in 0..16u8 {
        if let Some(place) = place_of(rt, alloc, home, k)? {
            if has(&places, place) {
                return Ok(Some(k));
            }
            places.push(place).map_err(AllocError::from)?;
        }
    }
    Ok(None)
}
