//! The names of replica files, in the folder layouts -57 and -56, and the header of metadata files
//! (HDFS block metadata version 1). Takes no memory.
#![tactic(auto)]

mod headers;
mod names;

pub use headers::{MetaFault, header, read_header};
pub use names::{Folder, NameFault, Named, data_name, meta_name, read_name};
