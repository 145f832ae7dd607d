// Reading a file that may be longer than what is wanted of it.
use rows::file::LONGEST;
use std::fs::File;
use std::io;
use std::io::Read;

// The room for a file that tells no length, as a pipe. A full list grows by an eighth at first, and is doubled then: from this room on to 8,193 bytes times a power of two, so that a file of a power of two leaves room to look for its end.
const LEAST_ROOM: usize = 7_283;

// The first bytes of a file, so many at most; no more is read. Room is taken for the length that the file tells, if it tells one, and for one byte more: a full list grows to look for the end.
pub fn read_up_to(rt: &HostRuntime, name: &str, most: usize) -> io::Result<Vec<u8>> {
    let file = File::open(rt, name)?;
    let length = file
        .metadata()
        .map_or(0, |told| usize::try_from(told.len()).unwrap_or(most));
    let room = length.min(most).saturating_add(1).max(LEAST_ROOM);
    let mut bytes = Vec::with_capacity(rt.alloc(), room)?;
    file.take(most as u64).read_to_end(&mut bytes)?;
    Ok(bytes)
}

// The bytes of a file, or none where there are more than a file may have: then one byte past the limit is read, and no more.
pub fn read_file(rt: &HostRuntime, name: &str) -> io::Result<Option<Vec<u8>>> {
    let bytes = read_up_to(rt, name, LONGEST + 1)?;
    Ok((bytes.len() <= LONGEST).then_some(bytes))
}
