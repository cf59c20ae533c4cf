ghost use Rattle.mvo_recovery.specs.image.Laws.{SlotIsExact, PickIsExact, SegmentIsExact};
ghost use Rattle.mvo_recovery.specs.image.Laws.{HasOneAnswer, IsExact, RowsAreLive};

/// The laws of opening an image. What the readers of slots and segments find is what the formats
/// say of the bytes, and nothing else is said. Opening has one answer, which is rows and a mark
/// exactly where the image is well formed; and the rows before the groups are those of the live
/// records. The call does nothing.
pub fn laws_of_opening()
    ensures slot { SlotIsExact }
    ensures pick { PickIsExact }
    ensures segment { SegmentIsExact }
    ensures one { HasOneAnswer }
    ensures exact { IsExact }
    ensures live { RowsAreLive }
{}
