//! `contents`: contents in one file, on disks in memory.

use crate::harness::{Tester, unwrap};
use contents::{ContentsFault, Draft, LARGEST_END, Region, Regions, read, sync, trim};
use sqlite_disk::{Crash, Disk, Fuse, Memory, Rot};

/// The region of `size` bytes from `start` on.
fn place(start: u64, size: u64) -> Region {
    Region { start, size }
}

/// A draft of these bytes in the lowest free room, all of them written.
fn written<D: Disk>(rt: &impl Tester, disk: &mut D, regions: &mut Regions, bytes: &[u8]) -> Draft {
    let found = unwrap(rt, regions.reserve(bytes.len() as u64));
    let mut draft = Draft::new(unwrap(rt, found.ok_or(())));
    unwrap(rt, draft.append(disk, bytes));
    draft
}

/// The region of a content with these bytes, which is finished.
fn kept<D: Disk>(rt: &impl Tester, disk: &mut D, regions: &mut Regions, bytes: &[u8]) -> Region {
    let draft = written(rt, disk, regions, bytes);
    unwrap(rt, draft.finish(disk))
}

/// Whether a content has these four bytes.
fn has<D: Disk>(disk: &mut D, region: Region, bytes: [u8; 4]) -> bool {
    let mut found = [0; 4];
    read(disk, region, 0, &mut found).is_ok() && found == bytes
}

#[test]
fn a_content_is_written_in_pieces_and_read_in_pieces(rt: HostRuntime) {
    let mut disk = Memory::new(rt.alloc());
    let mut draft = Draft::new(place(3, 6));
    unwrap(&rt, draft.append(&mut disk, b"abcd"));
    draft.truncate(2);
    assert_eq!(rt; draft.written(), 2);
    draft.truncate(5);
    assert_eq!(rt; draft.written(), 2);
    unwrap(&rt, draft.append(&mut disk, b"xy"));
    let mut front = [0; 3];
    unwrap(&rt, draft.read(&mut disk, 1, &mut front));
    assert_eq!(rt; front, *b"bxy");
    assert!(rt; matches!(draft.finish(&mut disk), Err(ContentsFault::Unfinished)));
    unwrap(&rt, draft.append(&mut disk, b"z!"));
    let region = unwrap(&rt, draft.finish(&mut disk));
    assert_eq!(rt; region, draft.region());
    let mut end = [0; 2];
    unwrap(&rt, read(&mut disk, region, 4, &mut end));
    assert_eq!(rt; end, *b"z!");
    assert_eq!(rt; disk.bytes(), b"\0\0\0abxyz!".as_slice());
}

#[test]
fn the_lowest_room_is_reserved_and_the_file_is_cut(rt: HostRuntime) {
    let mut disk = Memory::new(rt.alloc());
    let mut regions = Regions::new(rt.alloc());
    assert_eq!(rt; regions.end(), 0);
    let first = kept(&rt, &mut disk, &mut regions, b"aaaa");
    let second = kept(&rt, &mut disk, &mut regions, b"bbbb");
    let third = kept(&rt, &mut disk, &mut regions, b"cccc");
    assert_eq!(rt; (first.start, second.start, third.start), (0, 4, 8));
    assert_eq!(rt; (third.end(), regions.end()), (Some(12), 12));
    assert!(rt; regions.release(second));
    assert!(rt; !regions.release(second));
    assert_eq!(rt; unwrap(&rt, regions.reserve(5)), Some(place(12, 5)));
    assert_eq!(rt; unwrap(&rt, regions.reserve(3)), Some(place(4, 3)));
    assert_eq!(rt; unwrap(&rt, regions.reserve(1)), Some(place(7, 1)));
    assert_eq!(rt; regions.as_slice().len(), 5);
    assert!(rt; regions.release(place(12, 5)));
    assert!(rt; regions.release(third));
    unwrap(&rt, trim(&mut disk, &regions));
    assert_eq!(rt; disk.bytes(), b"aaaabbbb".as_slice());
    assert!(rt; has(&mut disk, first, *b"aaaa"));
}

#[test]
fn regions_follow_each_other_and_end_where_a_file_may_end(rt: HostRuntime) {
    let mut regions = Regions::new(rt.alloc());
    let cases = [
        (place(5, 2), true),
        (place(6, 2), false),
        (place(7, 2), true),
        (place(LARGEST_END, 1), false),
        (place(u64::MAX, 1), false),
        (place(LARGEST_END - 3, 3), true),
    ];
    for &case in &cases {
        let (region, is_added) = case;
        assert_eq!(rt; unwrap(&rt, regions.push(region)), is_added, "{region:?}");
    }
    assert_eq!(rt; regions.end(), LARGEST_END);
    assert_eq!(rt; place(u64::MAX, 1).end(), None);
    assert_eq!(rt; unwrap(&rt, regions.reserve(LARGEST_END - 11)), None);
    let last = place(9, LARGEST_END - 12);
    assert_eq!(rt; unwrap(&rt, regions.reserve(LARGEST_END - 12)), Some(last));
}

#[test]
fn a_crash_leaves_what_was_finished(rt: HostRuntime) {
    let mut disk = Memory::new(rt.alloc());
    let mut regions = Regions::new(rt.alloc());
    let first = kept(&rt, &mut disk, &mut regions, b"aaaa");
    let second = written(&rt, &mut disk, &mut regions, b"bbbb");
    assert!(rt; has(&mut disk, second.region(), *b"bbbb"));
    disk.crash();
    assert!(rt; has(&mut disk, first, *b"aaaa"));
    let mut buf = [0; 1];
    let past_end = read(&mut disk, second.region(), 3, &mut buf);
    assert!(rt; matches!(past_end, Err(ContentsFault::Failed(_))));
    let third = written(&rt, &mut disk, &mut regions, b"cccc");
    unwrap(&rt, sync(&mut disk));
    disk.crash();
    assert!(rt; has(&mut disk, third.region(), *b"cccc"));
}

#[test]
fn nothing_is_read_or_written_outside_a_content(rt: HostRuntime) {
    let mut disk = Memory::new(rt.alloc());
    let mut regions = Regions::new(rt.alloc());
    let other = written(&rt, &mut disk, &mut regions, b"aaaa");
    let mut draft = Draft::new(place(4, 3));
    unwrap(&rt, draft.append(&mut disk, b"bb"));
    let too_long = draft.append(&mut disk, b"cc");
    assert!(rt; matches!(too_long, Err(ContentsFault::Outside)));
    let mut buf = [0; 2];
    let unwritten = draft.read(&mut disk, 1, &mut buf);
    assert!(rt; matches!(unwritten, Err(ContentsFault::Outside)));
    let past_region = read(&mut disk, other.region(), 3, &mut buf);
    assert!(rt; matches!(past_region, Err(ContentsFault::Outside)));
    let past_last = read(&mut disk, place(u64::MAX, 4), 2, &mut buf);
    assert!(rt; matches!(past_last, Err(ContentsFault::Outside)));
    unwrap(&rt, draft.read(&mut disk, 0, &mut buf));
    assert_eq!(rt; buf, *b"bb");
    assert_eq!(rt; disk.bytes(), b"aaaabb".as_slice());
}

#[test]
fn a_failed_write_leaves_the_draft_and_a_failed_sync_ends_the_file(rt: HostRuntime) {
    let mut disk = Fuse::new(Memory::new(rt.alloc()), 1);
    let mut draft = Draft::new(place(0, 4));
    unwrap(&rt, draft.append(&mut disk, b"ab"));
    let failed = draft.append(&mut disk, b"cd");
    assert!(rt; matches!(failed, Err(ContentsFault::Failed(_))));
    assert_eq!(rt; draft.written(), 2);
    assert_eq!(rt; disk.inner().bytes(), b"ab".as_slice());
    assert!(rt; matches!(sync(&mut disk), Err(ContentsFault::Failed(_))));
    assert!(rt; matches!(sync(&mut disk), Err(ContentsFault::Unusable)));
    let refused = draft.append(&mut disk, b"cd");
    assert!(rt; matches!(refused, Err(ContentsFault::Unusable)));
    let regions = Regions::new(rt.alloc());
    assert!(rt; matches!(trim(&mut disk, &regions), Err(ContentsFault::Unusable)));
}

#[test]
fn each_call_of_the_disk_may_fail(rt: HostRuntime) {
    for calls in 0..5 {
        let mut disk = Fuse::new(Memory::new(rt.alloc()), calls);
        let mut regions = Regions::new(rt.alloc());
        let region = unwrap(&rt, unwrap(&rt, regions.reserve(4)).ok_or(()));
        let mut draft = Draft::new(region);
        let is_written = draft.append(&mut disk, b"aaaa").is_ok();
        let is_finished = draft.finish(&mut disk).is_ok();
        let is_read = has(&mut disk, region, *b"aaaa");
        let is_cut = trim(&mut disk, &regions).is_ok();
        let expected = (calls > 0, calls > 1, calls > 2, calls > 3);
        assert_eq!(rt;
            (is_written, is_finished, is_read, is_cut),
            expected,
            "{calls}"
        );
    }
}

#[test]
fn a_spoiled_byte_is_read_as_it_is_and_spoils_one_content(rt: HostRuntime) {
    let mut disk = Rot::new(Memory::new(rt.alloc()), 1);
    let mut regions = Regions::new(rt.alloc());
    let first = kept(&rt, &mut disk, &mut regions, b"aaaa");
    let second = kept(&rt, &mut disk, &mut regions, b"bbbb");
    assert!(rt; has(&mut disk, first, *b"aaaa"));
    let mut spoiling = Draft::new(place(1, 1));
    unwrap(&rt, spoiling.append(&mut disk, b"?"));
    assert!(rt; has(&mut disk, first, *b"a?aa"));
    assert!(rt; has(&mut disk, second, *b"bbbb"));
}

#[test]
fn faults_print_what_is_wrong(rt: HostRuntime) {
    let mut disk = Fuse::new(Memory::new(rt.alloc()), 0);
    let mut failed = String::new(rt.alloc());
    if let Err(fault) = sync(&mut disk) {
        failed = unwrap(&rt, format!(in rt.alloc(); "{fault}"));
    }
    assert_eq!(rt;
        failed.as_str(),
        "the file of contents failed: the fuse is blown"
    );
}
