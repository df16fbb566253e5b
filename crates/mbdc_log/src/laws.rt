//! Theorems about images. The functions have no effect; their contracts state the theorems.

ghost use Rattle.mbdc_log.specs.Behind.{OneBehind};
ghost use Rattle.mbdc_log.specs.Refusal.{OneRefusal, RefusedIsNotRead, UnreadIsNotRead};
ghost use Rattle.mbdc_log.specs.Stands.{ReadsOnce};

use mbdc_io::kept::Kept;

/// An image reads as at most one state.
pub fn reads_as_one_state<K: Kept>()
    ensures { ReadsOnce K.Language }
{}

/// The refusals of an image exclude each other: if the fact of one holds, no other's does, nor that
/// of another damaged sector.
pub fn one_refusal<K: Kept>()
    ensures { OneRefusal K.Language }
{}

/// A refused image reads as no state, unless a counter is exhausted.
pub fn a_refused_image_is_not_read<K: Kept>()
    ensures { RefusedIsNotRead K.Language }
{}

/// An image that reads as a state is read.
pub fn an_unread_image_is_not_read<K: Kept>()
    ensures { UnreadIsNotRead K.Language }
{}

/// An image that stands for a state has no sector that is ahead, as each image that a crash leaves; another has one
/// first sector that is.
pub fn one_first_ahead<K: Kept>()
    ensures { OneBehind K.Language }
{}
