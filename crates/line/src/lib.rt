// Lines, joining and cutting: the definitions and laws that reader, writer and line walk share; the line finder and the line walk.
#![tactic(auto)]

pub mod finder;
pub mod walk;
