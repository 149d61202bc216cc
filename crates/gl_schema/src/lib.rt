//! Schemas, and what a stream of beats puts on the ports of a module and shows there: the few
//! words that queries and hardware share.
//!
//! Here belongs what both sides speak of: names, schemas and their texts, beats, the profile of
//! ports, what is seen on them, and when a run is right. What a query means and how a module runs
//! do not.
#![tactic(auto)]

pub mod beats;
pub mod fault;
pub mod kind;
mod lexing;
pub mod name;
pub mod profile;
mod reading;
pub mod right;
pub mod schema;
pub mod text;
pub mod value;

pub use beats::{rows_have_places, rows_have_times};
pub use fault::SchemaFault;
pub use kind::{kind_front, kind_named, kind_size};
pub use name::is_name;
pub use profile::pins_go_by_the_profile;
pub use right::right_at_each_cycle;
pub use schema::{Column, Columns, NameText, Schema, Stream, Streams};
pub use text::{one_reading, read_schema};
pub use value::text_number;
