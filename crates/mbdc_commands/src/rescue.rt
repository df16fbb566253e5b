//! The command `rescue`: what is left of an image, in a new one.

ghost use Rattle.std.specs.Prelude.{◌⊎◌, IfErr, IfOk};
ghost use Rattle.mbdc_files.specs.Copied.{IsUncopied};
ghost use Rattle.mbdc_files.specs.Formatted.{IsUnmade};
ghost use Rattle.mbdc_io.specs.Written.{Wrote};
ghost use Rattle.mbdc_commands.specs.Rescue.{IsUnrescued, Renews, rescued_text, source_line};

use crate::fit::commit_fault;
use dc_meters::House;
use dc_sectors::Disk;
use mbdc_decode::tokens::{Piece, put_pieces};
use mbdc_ending::{Ending, ProgramFault, STREAM, ending_of};
use mbdc_files::Shelf;
use mbdc_io::{IoFault, Sink, put_number_word};
use mbdc_log::{FormatFault, RenewFault, Rescued, Source, renew, rescue};
use std::alloc::Global;

/// Rescues what is left of the image in that file, and writes it to a new image of as many sectors under the name.
///
/// # Errors
/// The ending of the command: nothing can be rescued, or it can't be written.
pub fn rescue_to<'a, S: Shelf>(
    alloc: Global,
    shelf: &S,
    image: &'a str,
    name: &'a str,
) -> Result<(Rescued<House<Global>>, S::New), Ending<'a>>
    // Each image that a crash may leave of the new disk, which has the name, stands for the state that was rescued.
    ensures renewed { IfOk result (λ done. (copy : S.Old) × (cleared : S.Old) × S.copied shelf.now image.now copy
        × S.named shelf.now name.now done.1 × Renews S.Old.Disk S.New.Disk copy cleared done.0.source
        done.0.found.root done.0.found.place done.0.found.last done.0.found.house.state done.0.greatest done.1) }
    ensures refused { IfErr result (λ ending. (IsUncopied ending image.now ⊎ IsUnmade ending name.now)
        ⊎ ((copy : S.Old) × (cleared : S.Old) × S.copied shelf.now image.now copy
        × IsUnrescued S.Old.Disk copy cleared ending)) }
{
    let mut copy = match shelf.copy(image) {
        Ok(copy) => copy,
        Err(ending) => return Err(ending),
    };
    let (draft, new) = match shelf.begin(name, copy.count(), false) {
        Ok(begun) => begun,
        Err(ending) => return Err(ending),
    };
    match rescue_over(alloc, &mut copy, new) {
        Ok((rescued, made)) => match shelf.end(draft, &made, name) {
            Ok(()) => Ok((rescued, made)),
            Err(ending) => Err(ending),
        },
        Err(ending) => {
            shelf.give_up(draft);
            Err(ending)
        }
    }
}

/// Rescues what is left of an image, and writes it to a new disk of as many sectors. The sectors that are left out are
/// cleared in `copy`, so it has to be a copy of the image, in memory.
///
/// # Errors
/// The ending of the command: nothing can be rescued, or the new disk has another size or failed.
pub fn rescue_over<C: Disk, D: Disk + Drop>(
    alloc: Global,
    copy: &mut C,
    new: D,
) -> Result<(Rescued<House<Global>>, D), Ending<'static>>
    ensures renewed { IfOk result (λ done. Renews C.Disk D.Disk copy.old copy.new done.0.source done.0.found.root
        done.0.found.place done.0.found.last done.0.found.house.state done.0.greatest done.1) }
    ensures refused { IfErr result (λ ending. IsUnrescued C.Disk copy.old copy.new ending) }
{
    let rescued = match rescue::<House<Global>, C>(alloc, copy) {
        Ok(rescued) => rescued,
        Err(fault) => return Err(ending_of(Err(ProgramFault::Open(fault)), STREAM)),
    };
    if new.count() != copy.count() {
        return Err(Ending::Format(FormatFault::TooSmall));
    }
    match renew::<House<Global>, D>(alloc, new, &rescued.found.house) {
        Ok(disk) => Ok((rescued, disk)),
        Err((RenewFault::Format(fault), _)) => Err(Ending::Format(fault)),
        Err((RenewFault::Open(fault), _)) => {
            Err(ending_of(Err(ProgramFault::Open(fault)), STREAM))
        }
        Err((RenewFault::Store(fault), _)) => Err(Ending::Disk(commit_fault(fault))),
    }
}

/// Writes what was rescued: the part of the image that the state is read from, and how many groups after it left a
/// trace.
#[tactic(auto, using(mbdc_io::proofs::Pieces::written), unfolding(crate::specs::Rescue::rescued_text))]
pub fn put_rescued<W: Sink>(rescued: &Rescued<House<Global>>, out: &mut W) -> Result<(), IoFault>
    ensures { Wrote W.Sink result out.old out.new (rescued_text rescued.now.source
        rescued.now.found.last rescued.now.greatest.sequence.number) }
{
    put_source(rescued.source, out)?;
    out.put(b"LOST")?;
    put_number_word(
        out,
        rescued
            .greatest
            .sequence
            .number
            .saturating_sub(rescued.found.last),
    )?;
    out.put(b"\n")
}

// Writes the part of an image.
#[tactic(auto, unfolding(crate::specs::Rescue::sector_line, crate::specs::Rescue::older_line))]
fn put_source<W: Sink>(source: Source, out: &mut W) -> Result<(), IoFault>
    ensures { Wrote W.Sink result out.old out.new (source_line source) }
{
    match source {
        Source::Whole => out.put(b"WHOLE\n"),
        Source::Without(sector) => put_pieces(
            out,
            &[
                Piece::Text(b"WITHOUT"),
                Piece::Word(u64::from(sector)),
                Piece::Text(b"\n"),
            ],
        ),
        Source::OtherRoot(sector, slot) => put_pieces(
            out,
            &[
                Piece::Text(b"OLDER"),
                Piece::Word(u64::from(sector)),
                Piece::Word(u64::from(slot)),
                Piece::Text(b"\n"),
            ],
        ),
    }
}
