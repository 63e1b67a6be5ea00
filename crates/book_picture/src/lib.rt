//! A picture of one gateway's hour, as an SVG that stands alone: a row for each sub-band, with a mark for each transmission.
#![tactic(auto)]

mod drawing;
mod fixed;
mod hour;
mod law_calls;
mod laws;
mod marks;
mod opening;
mod rows;
mod scale;

pub use drawing::write_picture;
pub use laws::law_picture_shows_hour;
