use command_fixtures::KEY;
use folder_fixtures::{
    Deed, Row, done_about_a_failed_sync, first_wrong_deed, goes_over_forgetful_files,
};

// A store over a block makes a file, writes and syncs it, gives it the block's name, and syncs the folder.
#[test]
fn a_store_over_a_block_leaves_one_of_the_two(rt: HostRuntime) {
    assert_eq!(rt; first_wrong_deed(rt.alloc(), Deed::StoreOver, 7), None);
}

#[test]
fn a_disk_whose_sync_failed_does_nothing_more(rt: HostRuntime) {
    let wanted = ([(true, true), (true, false), (false, false)], false);
    assert_eq!(rt; done_about_a_failed_sync(rt.alloc()), Some(wanted));
}

// The store makes and syncs a folder, and a file, and gives it its name, which the disk syncs before it
// makes, writes and syncs its own.
#[test]
fn a_block_is_firm_before_the_journal_is_written(rt: HostRuntime) {
    assert_eq!(rt; first_wrong_deed(rt.alloc(), Deed::StoreAndWrite, 14), None);
}

// The same over a stack: the store makes and syncs a folder, and makes a file and writes its beginning and the
// block; the disk syncs the file and its name.
#[test]
fn a_block_of_a_stack_is_firm_before_the_journal_is_written(rt: HostRuntime) {
    assert_eq!(rt; first_wrong_deed(rt.alloc(), Deed::StackAndWrite, 14), None);
}

const STORED: &[Row] = &[
    Row {
        line: "init 4 1 1 0 1 1 0",
        input: KEY,
        status: 0,
        text: b"ready\n",
    },
    Row {
        line: "put a",
        input: b"abc",
        status: 0,
        text: b"stored a 3\n",
    },
];

// A put over a name, whose first store is read back.
const PUT_OVER: &Row = &Row {
    line: "put a",
    input: b"other",
    status: 13,
    text: b"",
};

const GIVEN: &[Row] = &[Row {
    line: "get a",
    input: b"",
    status: 0,
    text: b"abc",
}];

#[test]
fn a_put_over_files_that_keep_nothing_is_told_and_leaves_the_file(rt: HostRuntime) {
    let went = goes_over_forgetful_files(rt.alloc(), STORED, PUT_OVER, GIVEN);
    assert_eq!(rt; went, true);
}
