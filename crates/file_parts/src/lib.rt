//! What the devices over files stand on: blocks as bytes, plain files, whole reads and writes, answers to
//! challenges, faults that are counted, and marks of what is not on the medium yet.
#![tactic(auto)]

pub mod block_bytes;
pub mod found;
pub mod kept_file;
pub mod one_block;
pub mod plain;
pub mod seen_rows;
pub mod slot;
pub mod transfer;
pub mod tried;
pub mod unsynced;
pub mod written;
