//! Texts that are made.

/// Whether there is a text, and is this one.
pub(crate) fn is_text<E: Drop>(made: Result<String, E>, wanted: &str) -> bool {
    match made {
        Ok(text) => text.as_str() == wanted,
        Err(_) => false,
    }
}
