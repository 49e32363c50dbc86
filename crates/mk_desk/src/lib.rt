//! A folder of files and two channels: its contract, one in memory, one over real files, and whole files over it; and how a tool
//! that works on a folder ends.
#![tactic(auto)]

mod faults;
mod folder;
mod memory_folder;
mod part_file;
mod real_folder;
mod sure_folder;
mod tool_status;
mod transfer;

pub use folder::{Channel, DeskFault, Folder, Found, no_fault_rose_to_none};
pub use memory_folder::MemoryFolder;
pub use real_folder::RealFolder;
pub use sure_folder::{SureFolder, sure_folder_has_no_fault};
pub use tool_status::ToolStatus;
pub use transfer::{LoadFault, load, put_all, say_all};
