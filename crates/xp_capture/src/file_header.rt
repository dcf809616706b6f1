//! The header of a capture file.

ghost use Rattle.std.specs.Prelude.{◌≡◌, ◌++◌, OnErr, OnOk};
ghost use Rattle.xp_capture.specs.FileHeader.{file_header};

use crate::words::{Head, push_words};
use std::alloc::{AllocError, Allocator};

/// Appends the header of a capture file. The frames follow it.
///
/// # Errors
///
/// An allocation failed. Then `out` is as it was.
pub fn write_file_header<A: Allocator>(out: &mut Vec<u8, A>) -> Result<(), AllocError>
    ensures written { OnOk result (out.new.items ≡ out.old.items ++ file_header) }
    ensures refused { OnErr result (out.new.items ≡ out.old.items) }
{
    let mut head = Head::new();
    push_words(
        &mut head,
        &[0xa1b2, 0xc3d4, 2, 4, 0, 0, 0, 0, 0, 0xffff, 0, 228],
    );
    out.extend_from_slice(head.as_slice())
}
