//! The stages that languages are made of.
pub mod ar;
pub mod common;
pub mod en;
