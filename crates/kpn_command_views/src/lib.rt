//! `kpn draw`, `kpn stats` and `kpn timeline` show a network or what a trace has done: a drawing, tables, and when its
//! gets and puts take place.
#![tactic(auto)]

mod boxes;
mod counters;
mod digits;
mod draw;
mod drawing;
mod figures;
mod found;
mod frame;
mod knots;
mod measured;
mod picture;
mod rates;
mod scale;
mod sending;
mod shares;
mod slices;
mod stats;
mod stats_text;
mod steps;
mod svg_command;
mod timeline;
mod timelines;
mod times;
mod waits;

pub use draw::draw_command;
pub use stats::stats_command;
pub use svg_command::picture_command;
pub use timelines::timeline_command;
