//! What holds of the definitions alone.

ghost use Rattle.std.specs.Prelude.{◌≡◌, ℕ, true, List, [], ◌∷◌, ◌≤◌, ◌<◌, ◌⊎◌, ◌++◌, length};
ghost use Rattle.std.specs.Prelude.{slice_index, take, Some};
ghost use Rattle.dc_linkframe.specs.declared.fault.FrameFault.{FrameFault};
ghost use Rattle.dc_linkframe.specs.Frame.{FrameSeen, ack, spelling, Spells};
ghost use Rattle.dc_linkframe.specs.Control.{application_error, is_rsp_ud, selected, selection};
ghost use Rattle.dc_linkframe.specs.Control.{snd_nke, snd_ud, variable_data};
ghost use Rattle.dc_linkframe.specs.Fault.{fault_of};
ghost use Rattle.dc_linkframe.specs.Reading.{frame_of};
ghost use Rattle.dc_linkframe.specs.Need.{need_of};

use crate::control::{
    APPLICATION_ERROR, RSP_UD, SELECTED, SELECTION, SND_NKE, SND_UD, VARIABLE_DATA,
};
use crate::fault::FrameFault;
use crate::frame::ACK;
use crate::needs::Need;

/// No two frames share a spelling, so `parse` of what was written gives the frame.
pub fn spellings_differ()
    ensures { (one other : FrameSeen) → spelling one ≡ spelling other → one ≡ other }
{}

/// A frame is read where it is spelled, and only there. That the second byte is one stands for all: a long
/// frame's length is that byte, so its body has at most 252.
pub fn frames_are_read_as_spelled()
    ensures read { (text : List ℕ) (frame : FrameSeen) → Spells text frame
        → frame_of text ≡ Some frame }
    ensures spelled { (text : List ℕ) (frame : FrameSeen) → slice_index text 1 < 256
        → frame_of text ≡ Some frame → Spells text frame }
{}

/// The bytes of [`control`](crate::control) are the ones that the definitions name.
pub fn control_bytes_are_the_standards()
    ensures requests { (SND_NKE ≡ snd_nke) × (SND_UD ≡ snd_ud) × (SELECTED ≡ selected) }
    ensures answers { (is_rsp_ud RSP_UD ≡ true) × (spelling ack ≡ ACK ∷ []) }
    ensures information { (VARIABLE_DATA ≡ variable_data) × (APPLICATION_ERROR ≡ application_error)
        × (SELECTION ≡ selection) }
{}

/// What `need` says of what `parse` will answer.
pub fn need_agrees_with_parse()
    // A whole frame lies in what came, and no fault of its length or its start stands in it.
    ensures whole { (text : List ℕ) (n : ℕ) → need_of text ≡ Need.Whole n → n ≤ length text }
    ensures length { (text : List ℕ) (n : ℕ) (fault : FrameFault) → need_of text ≡ Need.Whole n
        → fault_of (take n text) ≡ Some fault → (fault ≡ FrameFault.Stop)
        ⊎ (fault ≡ FrameFault.Checksum) }
    // Bytes are missing, and with fewer than those no frame is whole.
    ensures some { (text : List ℕ) (n : ℕ) → need_of text ≡ Need.More n → 1 ≤ n }
    ensures more { (text further : List ℕ) (n k : ℕ) → need_of text ≡ Need.More n
        → length further < n
        → need_of (text ++ further) ≡ Need.Whole k → ⊥ }
    // A frame at the front is found, whatever follows it.
    ensures found { (text further : List ℕ) (frame : FrameSeen) → Spells text frame
        → need_of (text ++ further) ≡ Need.Whole (length text) }
{}
