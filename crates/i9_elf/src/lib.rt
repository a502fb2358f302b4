//! Images of memory as ELF files, 32 bits, low byte first, for the i960; and files in either format,
//! ELF or Intel HEX text.
#![tactic(auto)]

mod error;
mod header;
mod image_laws;
mod images;
mod laws;
mod reading;
mod writing;

pub use error::{ElfError, WriteError};
pub use image_laws::one_image;
pub use images::{ImageError, ImageFault, read_image};
pub use laws::one_answer;
pub use reading::{has_magic, read};
pub use writing::write;
