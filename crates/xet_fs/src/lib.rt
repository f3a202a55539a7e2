//! The traits of `xet_io` over files of the operating system: a disk over a folder, and inputs by path. Their
//! contents are not observable; contracts see the failures that they count.
#![tactic(auto)]

mod file_source;
mod folder_disk;
mod folder_files;
mod folder_inputs;
mod folder_name;
mod root_lock;

pub use file_source::FileSource;
pub use folder_disk::FolderDisk;
pub use folder_inputs::FolderInputs;
