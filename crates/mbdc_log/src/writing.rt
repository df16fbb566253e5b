//! Writes a group, without the sync that makes it durable.

ghost use Rattle.std.specs.Prelude.{◌≡◌, ◌<◌, ◌≤◌, ◌+◌, ◌*◌, length, IfOk, OnOk, OnErr, IsErr};
ghost use Rattle.dc_sectors.specs.Runs.{LeavesOnly, Counts, IsSettled};
ghost use Rattle.dc_pages.specs.Draft.{FitsAt};
ghost use Rattle.dc_pages.specs.PagesWriting.{SameOutside};
ghost use Rattle.dc_pages.specs.Streaming.{GoesInto, BreaksOff};
ghost use Rattle.mbdc_log.specs.Writing.{IsAttempt, IsWritten};

use dc_pages::{GroupSink, GroupWriter, Site};
use dc_sectors::{Disk, Failed};
use mbdc_io::IoFault;
use mbdc_io::kept::Kept;

/// Writes a group with these bytes, and returns its number of sectors.
pub(crate) fn write_group<D: Disk>(
    disk: &mut D,
    site: Site,
    session: u64,
    bytes: &[u8],
) -> Result<u32, Failed>
    requires some { 0 < length bytes.now }
    requires room { FitsAt site.first site.limit (length bytes.now) }
    requires limit { site.limit ≤ D.sectors disk.old }
    ensures written { IsSettled D.Disk disk.old
        → IfOk result (λ count. IsWritten site session bytes.now count (D.reads disk.old)
        (D.reads disk.new)) }
    ensures any_moment { IsSettled D.Disk disk.old
        → LeavesOnly D.Disk disk.old disk.new
        (IsAttempt site session bytes.now (D.reads disk.old)) }
    ensures within { IfOk result (λ count. site.first + count ≤ site.limit) }
    ensures elsewhere { SameOutside site (D.reads disk.old) (D.reads disk.new) }
    ensures before { D.keeps disk.new → D.keeps disk.old }
    ensures counts { Counts D.Disk disk.old disk.new (IsErr result) }
{
    let mut writer = GroupWriter::begin(site, session);
    writer.put(disk, bytes)?;
    let count = writer.finish(disk)?;
    Ok(count)
}

// Writes the bytes of the state into the group, piece by piece.
fn encode_into<K: Kept, D: Disk>(sink: &mut GroupSink<'_, D>, kept: &K) -> Result<(), Failed>
    ensures same_reference { sink.new.disk.ghost_name ≡ sink.old.disk.ghost_name }
    ensures goes_into { OnOk result (GoesInto D.Disk sink.old.disk.now sink.new.disk.now
        sink.old.writer sink.new.writer
        (K.bytes_of (K.state kept.now))) }
    ensures breaks_off { OnErr result (BreaksOff D.Disk
        sink.old.disk.now sink.new.disk.now sink.old.writer (K.bytes_of (K.state kept.now))) }
{
    match kept.encode(sink) {
        Ok(()) => Ok(()),
        Err(IoFault) => Err(Failed),
    }
}

/// Writes a group with the bytes of the state, and returns its number of sectors.
pub(crate) fn write_state<K: Kept, D: Disk>(
    disk: &mut D,
    site: Site,
    session: u64,
    kept: &K,
) -> Result<u32, Failed>
    requires some { 0 < length (K.bytes_of (K.state kept.now)) }
    requires room { FitsAt site.first site.limit (length (K.bytes_of (K.state kept.now))) }
    requires limit { site.limit ≤ D.sectors disk.old }
    ensures written { IsSettled D.Disk disk.old
        → IfOk result (λ count. IsWritten site session (K.bytes_of (K.state kept.now)) count
        (D.reads disk.old) (D.reads disk.new)) }
    ensures any_moment { IsSettled D.Disk disk.old
        → LeavesOnly D.Disk disk.old disk.new
        (IsAttempt site session (K.bytes_of (K.state kept.now)) (D.reads disk.old)) }
    ensures within { IfOk result (λ count. site.first + count ≤ site.limit) }
    ensures elsewhere { SameOutside site (D.reads disk.old) (D.reads disk.new) }
    ensures before { D.keeps disk.new → D.keeps disk.old }
    ensures counts { Counts D.Disk disk.old disk.new (IsErr result) }
{
    let mut sink = GroupSink {
        disk,
        writer: GroupWriter::begin(site, session),
        refused: 0,
    };
    encode_into(&mut sink, kept)?;
    let GroupSink { disk, writer, .. } = sink;
    let count = writer.finish(disk)?;
    Ok(count)
}
