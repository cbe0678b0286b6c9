//! Texts with one thing changed.
use std::alloc::{AllocError, Global};

/// A text that stands in a file, what stands there in its place, and what is told then, without the end of the line.
pub type Edit = (&'static str, &'static str, &'static str);

/// The file with the new text in the place of the first old one. A file without the old one stays as it is.
pub fn edited(alloc: Global, file: &str, old: &str, new: &str) -> Result<String, AllocError> {
    let mut text = String::new(alloc);
    match file.split_once(old) {
        Some((before, after)) => {
            text.push_str(before)?;
            text.push_str(new)?;
            text.push_str(after)?;
        }
        None => text.push_str(file)?,
    }
    Ok(text)
}
