//! Drawings as SVG: elements that close in order, with quoted attributes and escaped texts.
#![tactic(auto)]

mod document;
mod drawing;
pub mod pieces;

pub use document::Document;
pub use drawing::{Drawing, Frame};
