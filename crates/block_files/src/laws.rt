//! Laws of calls on the two files of a block.

ghost use Rattle.block_files.specs.Laws.{CallsPlaceFiles, StoppedCallsPlaceFiles, CallsFindFiles};

/// Calls on a block's two files make of the files what they make of where these lie, all of them and
/// also where one failed, and each finds its file.
pub fn block_calls_place_files()
    ensures all { CallsPlaceFiles }
    ensures stopped { StoppedCallsPlaceFiles }
    ensures found { CallsFindFiles }
{}
