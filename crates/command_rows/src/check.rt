use command_fixtures::{Rows, first_wrong};
use std::alloc::AllocGlobal;
use std::process::Abort;

/// Ends the test where one of these rows goes otherwise: it tells the place of the first, and the place in
/// it.
pub fn check(rt: &(impl Abort + AllocGlobal), all: &[Rows]) {
    assert_eq!(rt; first_wrong(rt.alloc(), all), None);
}
