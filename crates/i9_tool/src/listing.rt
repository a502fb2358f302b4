//! The form `dis`: the listing of an image.
ghost use Rattle.std.specs.Prelude.{IfOk};
ghost use Rattle.i9_model.specs.Image.{pairs_of};
ghost use Rattle.i9_tool.specs.Outcome.{DisGives};
ghost use Rattle.i9_tool.specs.Values.{IsMade};

use crate::made::Made;
use i9_dis::listing;
use i9_hex::Segments;
use i9_isa::NoMemory;
use std::alloc::Global;

/// The listing of an image.
pub(crate) fn listing_of(alloc: Global, image: &Segments) -> Result<Made, NoMemory>
    ensures { IfOk result (IsMade (DisGives (pairs_of image.now))) }
{
    match listing(alloc, image) {
        Ok(text) => Ok(Made::Text(text)),
        Err(NoMemory) => Err(NoMemory),
    }
}
