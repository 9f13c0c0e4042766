//! What no clause says: calls that find memory, the files of the system, disks, and calls that are interrupted.

mod disk_files;
mod disks;
mod files;
mod interrupted;
mod transfer;
