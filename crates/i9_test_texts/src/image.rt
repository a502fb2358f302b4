//! Files in either format, worked out by hand.
use crate::check::{must, same};
use i9_elf::{ImageError, ImageFault, one_image, read_image};
use i9_hex::HexFault;
use std::alloc::Global;
use std::test::Fail;

/// The byte 41 at 1000, in Intel HEX,
const TEXT: &[u8] = b":0110000041AE\n:00000001FF\n";

/// and in ELF.
const ELF: &[u8] = b"\x7FELF\x01\x01\x01\0\0\0\0\0\0\0\0\0\
    \x02\0\x13\0\x01\0\0\0\0\0\0\0\x34\0\0\0\0\0\0\0\0\0\0\0\
    \x34\0\x20\0\x01\0\0\0\0\0\0\0\
    \x01\0\0\0\x54\0\0\0\0\x10\0\0\0\x10\0\0\x01\0\0\0\x01\0\0\0\x07\0\0\0\x01\0\0\0A";

#[test]
fn reads_either_format(rt: HostRuntime) -> Result<(), Fail> {
    for file in [TEXT, ELF] {
        let image = read_image(rt.alloc(), file)?;
        same(&rt, image.as_slice().len(), 1);
        for segment in image.as_slice() {
            same(&rt, segment.address, 0x1000);
            must(&rt, segment.bytes.as_slice() == b"A".as_slice());
        }
    }
    one_image();
    Ok(())
}

/// The fault of a file.
fn fault(alloc: Global, file: &[u8]) -> Option<ImageFault> {
    match read_image(alloc, file) {
        Err(ImageError::Bad(fault)) => Some(fault),
        _ => None,
    }
}

// A file that is cut within the first four bytes of ELF is a text.
#[test]
fn refuses_by_the_first_four_bytes(rt: HostRuntime) -> Result<(), Fail> {
    let rows: [(&[u8], ImageFault); 6] = [
        (b"", ImageFault::Line(HexFault { line: 1, kind: 6 })),
        (b"\x7FEL", ImageFault::Line(HexFault { line: 1, kind: 1 })),
        (
            b"\n\x7FELF",
            ImageFault::Line(HexFault { line: 2, kind: 1 }),
        ),
        (
            b"\x7FELf\n",
            ImageFault::Line(HexFault { line: 1, kind: 1 }),
        ),
        (b"\x7FELF", ImageFault::Elf(1)),
        (
            b"\x7FELF\x02\x01\x01\0\0\0\0\0\0\0\0\0:00000001FF\n:00000001FF\n:00000001FF\n",
            ImageFault::Elf(2),
        ),
    ];
    for (file, wanted) in rows {
        same(&rt, fault(rt.alloc(), file), Some(wanted));
    }
    Ok(())
}

#[test]
fn tells_what_is_wrong(rt: HostRuntime) -> Result<(), Fail> {
    let bad = ImageError::Bad(ImageFault::Elf(3));
    let text = format!(in rt.alloc(); "{}, {}", bad, ImageError::Memory)?;
    same(&rt, text.as_str(), "refused, no memory");
    Ok(())
}
