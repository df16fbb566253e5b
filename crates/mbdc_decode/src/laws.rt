//! Theorems about the definitions of `decode`.

ghost use Rattle.std.specs.Prelude.{◌≡◌, ℕ, List, map, flat_map};
ghost use Rattle.std.specs.List.{AllByRecursion, concat};
ghost use Rattle.dc_linkframe.specs.Frame.{FrameSeen, HasRoom, spelling};
ghost use Rattle.mbdc_decode.specs.Frames.{frames_of, frame_text, all_shown};

use dc_linkframe::need_agrees_with_parse;

/// The bytes of a line split into frames.
pub fn frames_are_told_in_turn()
    // Each byte belongs to one text, whatever the bytes are.
    ensures whole { (bytes : List ℕ) → concat (frames_of bytes) ≡ bytes }
    // Consecutive frames are printed one by one.
    ensures frames { (frames : List FrameSeen) → AllByRecursion HasRoom frames
        → frames_of (flat_map spelling frames) ≡ map spelling frames }
    ensures text { (frames : List FrameSeen) → AllByRecursion HasRoom frames
        → all_shown (frames_of (flat_map spelling frames)) ≡ flat_map frame_text frames }
{
    need_agrees_with_parse();
}
