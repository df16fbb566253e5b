//! The theorems about groups, each stated by the contract of a function.

ghost use Rattle.dc_pages.specs.Laws.{CompleteAsWritten, PartIsIncomplete, CutIsIncomplete, OneCut};
ghost use Rattle.dc_pages.specs.Laws.{OneGroup};

/// By the stamps alone, a group is complete only as it was before, or as it was written.
pub fn complete_as_written()
    ensures { CompleteAsWritten }
{}

/// While no commit sector is written, a group is complete only as it was before.
pub fn part_is_incomplete()
    ensures { PartIsIncomplete }
{}

/// If a sector doesn't fit, no group is complete.
pub fn cut_is_incomplete()
    ensures { CutIsIncomplete }
{}

/// At a place exactly one sector is the first that doesn't fit.
pub fn one_cut_at_a_place()
    ensures { OneCut }
{}

/// A place has at most one group of a kind.
pub fn one_group_at_a_place()
    ensures { OneGroup }
{}
