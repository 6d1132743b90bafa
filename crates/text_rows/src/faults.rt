use hail_client::ReopenFault;
use std::alloc::Global;
use std::fmt::Display;
use vault::{InitFault, StartFault};

/// Whether a fault is told so.
fn is_told(alloc: Global, fault: impl Display + Drop, wanted: &str) -> bool {
    match format!(in alloc; "{fault}") {
        Ok(text) => text.as_str() == wanted,
        Err(_) => false,
    }
}

#[test]
fn faults_are_told_by_their_names(rt: HostRuntime) {
    let alloc = rt.alloc();
    let right = [
        is_told(alloc, InitFault::BadSetup, "BadSetup"),
        is_told(alloc, InitFault::DiskFault, "DiskFault"),
        is_told(alloc, InitFault::BadJournal { at: 9 }, "BadJournal 9"),
        is_told(alloc, InitFault::Already, "Already"),
        is_told(alloc, InitFault::Memory, "Memory"),
        is_told(alloc, StartFault::DiskFault, "DiskFault"),
        is_told(alloc, StartFault::NotSetUp, "NotSetUp"),
        is_told(alloc, StartFault::BadJournal { at: 9 }, "BadJournal 9"),
        is_told(alloc, StartFault::Memory, "Memory"),
        is_told(
            alloc,
            ReopenFault::NotOpened(StartFault::BadJournal { at: 9 }),
            "BadJournal 9",
        ),
        is_told(alloc, ReopenFault::TooFewProviders, "TooFewProviders"),
    ];
    assert_eq!(rt; right, [true; 11]);
}
