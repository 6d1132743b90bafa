use crate::check::check;
use command_fixtures::Rows;

/// A disk of nine bytes at most, and one whose journal has no record. Eight calls set the first up; the empty
/// journal of the second one is there, and its write and sync fall away. A stop leaves what was written, or
/// takes it back, or leaves other bytes in its place.
const STOPS: &[Rows] = &[
    Rows::Stopped(b"", 8, &[]),
    Rows::Stopped(b"", 8, &[0; 60]),
    Rows::Stopped(b"", 8, &[1; 60]),
    Rows::Stopped(b"", 8, &[255; 60]),
    Rows::Stopped(b"HAILJRN1\x01", 8, &[]),
    Rows::Stopped(b"HAILJRN1\x01", 8, &[0; 60]),
    Rows::Stopped(b"HAILJRN1\x01", 8, &[1; 60]),
    Rows::Stopped(b"HAILJRN1\x01", 8, &[255; 60]),
    Rows::Stopped(b"anything", 8, &[]),
    Rows::Stopped(b"anything", 8, &[0; 60]),
    Rows::Stopped(b"anything", 8, &[1; 60]),
    Rows::Stopped(b"anything", 8, &[255; 60]),
    Rows::Stopped(b"HAILJRN1\0 and other bytes", 7, &[]),
    Rows::Stopped(b"HAILJRN1\0 and other bytes", 7, &[0; 60]),
    Rows::Stopped(b"HAILJRN1\0 and other bytes", 7, &[1; 60]),
    Rows::Stopped(b"HAILJRN1\0 and other bytes", 7, &[255; 60]),
    Rows::Stopped(b"HAILJRN1\x02\x01\x01\x01", 7, &[]),
    Rows::Stopped(b"HAILJRN1\x02\x01\x01\x01", 7, &[0; 60]),
    Rows::Stopped(b"HAILJRN1\x02\x01\x01\x01", 7, &[1; 60]),
    Rows::Stopped(b"HAILJRN1\x02\x01\x01\x01", 7, &[255; 60]),
];

#[test]
fn a_failed_set_up_leaves_what_was_or_this_setup(rt: HostRuntime) {
    check(&rt, STOPS);
}
