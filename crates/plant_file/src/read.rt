//! The reading of a document: the entries of each section, key by key.

mod document;
mod entries;
mod entry;
mod form;
mod level;
mod names;
mod section;
mod sections;
mod server;
mod values;

pub use document::read_text;
