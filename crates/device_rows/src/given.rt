use std::process::Abort;

/// Passes where no row goes otherwise. Else the test ends with the place of the first that does.
pub fn no_other(rt: &impl Abort, place: Option<usize>) {
    assert_eq!(rt; place, None);
}
