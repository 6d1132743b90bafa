//! Real devices: a file as a disk, folders as providers, and the standard streams as a source and a sink.
#![tactic(auto)]

mod asked_folder;
mod block_name;
mod file_disk;
mod folder;
mod folder_provider;
mod form;
mod home;
mod last_blocks;
mod provider_folders;
mod std_sink;
mod std_source;
mod twins;

pub use file_disk::FileDisk;
pub use file_parts::transfer;
pub use file_parts::unsynced::Unsynced;
pub use folder_provider::FolderProvider;
pub use home::{folder_providers, journal_disk};
pub use provider_folders::ProviderFolders;
pub use std_sink::StdSink;
pub use std_source::StdSource;
pub use twins::first_twin;
