//! The template of a page, as tools/write_page writes it.

pub mod frame;
pub mod lists;
pub mod picture;
pub mod reading;
pub mod steps;
pub mod style;
pub mod tasks;
