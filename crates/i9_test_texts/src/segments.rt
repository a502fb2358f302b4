//! Segments, as texts and beside bytes.
use i9_hex::{Segment, Segments};
use std::alloc::Global;
use std::test::Fail;

/// The segments of a text, each of them `ADDRESS:BYTES`.
pub(crate) fn segments_of(alloc: Global, text: &str) -> Result<Segments, Fail> {
    let mut segments = Segments::new(alloc);
    for segment in text.split(" ") {
        let (address, bytes) = segment.split_once(":").unwrap_or((segment, ""));
        let address = u32::from_str_radix(address, 16)?;
        segments.push(address, hex::decode(alloc, bytes.as_bytes())?)?;
    }
    Ok(segments)
}

/// The address and the bytes of a segment, in hexadecimal digits.
fn segment_text(alloc: Global, segment: &Segment) -> Result<String, Fail> {
    let mut text = format!(in alloc; "{:X}", segment.address)?;
    for byte in &segment.bytes {
        text.push_str(&format!(in alloc; " {byte:02X}")?)?;
    }
    Ok(text)
}

/// Those of each segment, split by commas, or `none`.
pub(crate) fn segments_text(alloc: Global, segments: &Segments) -> Result<String, Fail> {
    let Some((first, rest)) = segments.as_slice().split_first() else {
        return Ok(format!(in alloc; "none")?);
    };
    let mut text = segment_text(alloc, first)?;
    for segment in rest {
        text.push_str(", ")?;
        text.push_str(&segment_text(alloc, segment)?)?;
    }
    Ok(text)
}

/// Whether an image has segments with these addresses and bytes, and no others.
pub(crate) fn has(image: &Segments, wanted: &[(u32, &[u8])]) -> bool {
    let segments = image.as_slice();
    if segments.len() != wanted.len() {
        return false;
    }
    for (index, segment) in segments.iter().enumerate() {
        let (address, bytes) = wanted[index];
        if segment.address != address || segment.bytes.as_slice() != bytes {
            return false;
        }
    }
    true
}
