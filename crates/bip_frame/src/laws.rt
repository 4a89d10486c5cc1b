//! The laws above the definitions: what a reviewer reads to know what they mean. The call does
//! nothing, and has the laws for its contract.
ghost use Rattle.bip_frame.specs.Laws.{CutIsShort, FrameOrFault, HasLength, IsWithin};
ghost use Rattle.bip_frame.specs.Laws.{LimitsAreReached, MoreIsLong};
ghost use Rattle.bip_frame.specs.Laws.{NoneBegins, NotBoth, OneFrameFault, OneFrame, OneMessage};
ghost use Rattle.bip_frame.specs.Laws.{ReadIsWritten, WrittenIsRead};

/// A message has one frame, a frame one message, and no frame begins another. Any bytes are a frame
/// or have one first fault, and not both. What is written is read back, and what is read is written
/// back. A frame that is cut is too short, and one with more behind it too long. Frames have 13 to
/// 875 bytes, by their kind and by how many parts they have (docs/FRAMES.md, "Laws").
pub fn frame_laws()
    ensures one_frame { OneFrame }
    ensures one_message { OneMessage }
    ensures none_begins { NoneBegins }
    ensures frame_or_fault { FrameOrFault }
    ensures not_both { NotBoth }
    ensures one_fault { OneFrameFault }
    ensures written { WrittenIsRead }
    ensures read { ReadIsWritten }
    ensures cut { CutIsShort }
    ensures more { MoreIsLong }
    ensures lengths { HasLength }
    ensures within { IsWithin }
    ensures reached { LimitsAreReached }
{}
