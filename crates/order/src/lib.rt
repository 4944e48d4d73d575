// The order of a message's segments: the follower table of the seven contexts (C4), the order watcher (V1, V2), levels and owners (O1 to O3).
#![tactic(auto)]

pub mod followers;
pub mod level_table;
pub mod levels;
pub mod owners;
pub mod watcher;
