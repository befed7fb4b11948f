// The types of every answer about an ASDF file. The meaning of the file format is in specs/.
#![tactic(auto)]

pub mod answer;
pub mod block;
pub mod layout;
pub mod limits;
pub mod line;
pub mod offset;
pub mod refusal;
pub mod row;
