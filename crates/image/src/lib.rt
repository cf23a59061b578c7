#![tactic(auto)]

// The sign's record (J1) as an image of 106 bytes (N251), for a caller that keeps the record in memory of its own.
//   layout  each field's place in the image: any image to its record, and a record to its image
mod layout;

pub use layout::{Image, SIZE, image_of, record_of};
