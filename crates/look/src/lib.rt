// Looking things up in a table (F1 to F4): a leaf by its place, a row by kind and owner, whether two rows are the same order, and whether two
// texts are the same. Every card and every buffer gets its answer, however inconsistent they are; entries past the counted ones are never read (T7).
#![tactic(auto)]

pub mod leaf;
pub mod order_rows;
pub mod row;
pub mod text;
