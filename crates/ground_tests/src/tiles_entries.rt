use crate::shown::shows;
use log_tiles::{Entries, push_entry};

// The bundle of an empty entry, one of two bytes and one of 259, by hand.
fn are_put(bytes: &mut Vec<u8>) -> bool {
    push_entry(bytes, &[]).is_ok()
        && push_entry(bytes, &[0xaa, 0xbb]).is_ok()
        && push_entry(bytes, &[7; 259]).is_ok()
}

fn is_next(reader: &mut Entries<'_>, entry: &[u8]) -> bool {
    match reader.next_entry() {
        Ok(Some(found)) => found == entry,
        _ => false,
    }
}

fn are_read(bytes: &[u8]) -> bool {
    let mut reader = Entries::of(bytes, 3);
    bytes.len() == 267
        && bytes.starts_with(&[0, 0, 0, 2, 0xaa, 0xbb, 1, 3])
        && is_next(&mut reader, &[])
        && is_next(&mut reader, &[0xaa, 0xbb])
        && is_next(&mut reader, &[7; 259])
        && reader.next_entry() == Ok(None)
}

#[test]
fn three_entries_are_put_and_read(rt: HostRuntime) {
    let mut bytes = Vec::new(rt.alloc());
    shows(&rt, are_put(&mut bytes) && are_read(&bytes));
}
