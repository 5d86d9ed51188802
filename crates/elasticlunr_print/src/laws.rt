//! Laws over the definitions: functions that do nothing, whose contracts are the laws.

pub mod removal;
pub mod values;
