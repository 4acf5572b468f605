// Bytes as characters, one a byte, as texts of cases give them.

use anyhow::{Result, bail};
use std::alloc::{AllocError, Global};

/// The bytes of a text whose characters are below 256, one each.
pub fn bytes_of(alloc: Global, text: &str) -> Result<Vec<u8>> {
    let mut bytes = Vec::new(alloc);
    for character in text.chars() {
        match u8::try_from(u32::from(character)) {
            Ok(byte) => bytes.push(byte)?,
            Err(_) => bail!("{character:?} is no byte"),
        }
    }
    Ok(bytes)
}

/// The text that has these bytes, one a character.
pub fn text_of(alloc: Global, bytes: &[u8]) -> Result<String, AllocError> {
    let mut text = String::new(alloc);
    for byte in bytes {
        text.push(char::from(*byte))?;
    }
    Ok(text)
}
