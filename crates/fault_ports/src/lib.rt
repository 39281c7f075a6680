//! Files, shelves and roads that fail on purpose: files that lose what wasn't synced, files that
//! stop at a call, shelves whose drawers can refuse writes, and roads whose connections end.
#![tactic(auto)]

mod certain;
mod copies;
mod cuts;
mod cutting;
mod entries;
mod fused;
mod fused_shelves;
mod halves;
mod listings;
mod losing;
mod lossy;
mod made_calls;
mod offers;
mod passes;
mod piece_counts;
mod refusals;
mod refused_writes;
mod stop_at;
mod stored_files;

pub use cuts::CutRoads;
pub use cutting::Cutting;
pub use fused::FusedDrawer;
pub use fused_shelves::Fused;
pub use halves::{CutIn, CutOut};
pub use lossy::LossyFiles;
pub use stop_at::{Keep, StopAt};
