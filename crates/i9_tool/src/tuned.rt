//! The form `tune`: a block of an image in an order that takes fewer turns.
ghost use Rattle.std.specs.Prelude.{IfOk};
ghost use Rattle.i9_model.specs.Image.{pairs_of};
ghost use Rattle.i9_tune.specs.Tuning.{fault_line};
ghost use Rattle.i9_tool.specs.Words.{IsBlock};
ghost use Rattle.i9_tool.specs.Outcome.{Only, TuneGives};
ghost use Rattle.i9_tool.specs.Values.{IsMade};

use crate::made::Made;
use crate::words::Block;
use i9_hex::Segments;
use i9_isa::NoMemory;
use i9_tune::{BlockError, BlockFault, block_in, block_line, tuning};
use std::alloc::Global;

/// The line of the first instruction at fault.
fn line_of(alloc: Global, fault: &BlockFault) -> Result<Made, NoMemory>
    ensures { IfOk result (IsMade (Only 3 (fault_line fault.now))) }
{
    match block_line(alloc, fault) {
        Ok(line) => Ok(Made::Fault(line)),
        Err(NoMemory) => Err(NoMemory),
    }
}

/// The text of a block of an image, tuned, or the line of its first instruction at fault.
pub(crate) fn tuned_of(alloc: Global, image: &Segments, words: Block) -> Result<Made, NoMemory>
    requires block { IsBlock words }
    ensures { IfOk result (IsMade (TuneGives words.address words.count (pairs_of image.now))) }
{
    match block_in(alloc, image, words.address, words.count) {
        Ok(block) => {
            let text = tuning(alloc, words.address, &block)?;
            Ok(Made::Text(text))
        }
        Err(BlockError::Bad(fault)) => line_of(alloc, &fault),
        Err(BlockError::Memory) => Err(NoMemory),
    }
}
