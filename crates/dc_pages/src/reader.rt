//! Reads a group.

ghost use Rattle.std.specs.Prelude.{◌≡◌, ◌≢◌, ◌⊎◌, ◌<◌, ◌≤◌, ◌↔◌, ◌+◌, ◌-◌, ◌^◌, ◌++◌};
ghost use Rattle.std.specs.Prelude.{if◌then◌else◌, ℕ, IfOk, OnOk, IsErrOf, IsTrue, length, take};
ghost use Rattle.std.specs.Prelude.{drop};
ghost use Rattle.dc_sectors.specs.Disk.{IsImage};
ghost use Rattle.dc_sectors.specs.Runs.{Passes, OnlyLooked, Counts};
ghost use Rattle.dc_pages.specs.Group.{IsGroup, commit_kind, page_payload, head_len, site_of};
ghost use Rattle.dc_pages.specs.Judging.{Judged, IsStep};
ghost use Rattle.dc_pages.specs.Reading.{IsBegun, IsCutAt};

use crate::head::{COMMIT, HEAD, Head, PAYLOAD, read_head};
use crate::{GroupFault, Site};
use dc_sectors::{Disk, ReadFault};
use mbdc_io::NoMemory;
use std::alloc::Allocator;

/// A group that was read.
#[derive(Drop)]
pub struct Group<A: Allocator> {
    /// The used bytes of its pages, in order.
    pub payload: Vec<u8, A>,
    /// Number of sectors, pages and commit sector.
    pub sectors: u32,
}

impl Site {
    // Whether the head is that of a page of the group, at that index.
    fn is_page(&self, head: &Head, index: u32) -> bool
        ensures { IsTrue result ↔ ((head.now.kind ≡ self.now.kind)
            × (head.now.version ≡ self.now.version) × (head.now.sequence ≡ self.now.sequence)
            × (head.now.index ≡ index) × (0 < head.now.used) × (head.now.used ≤ page_payload)) }
    {
        head.kind == self.kind
            && head.version == self.version
            && head.sequence == self.sequence
            && head.index == index
            && head.used > 0
            && usize::from(head.used) <= PAYLOAD
    }

    // Whether the head is that of the group's commit sector, after this many pages of that session.
    fn is_commit(&self, head: &Head, session: u64, pages: u32) -> bool
        ensures { IsTrue result ↔ ((head.now.kind ≡ commit_kind)
            × (head.now.version ≡ self.now.version) × (head.now.sequence ≡ self.now.sequence)
            × (head.now.index ≡ pages) × (head.now.session ≡ session) × (head.now.used ≡ 0)) }
    {
        head.kind == COMMIT
            && head.version == self.version
            && head.sequence == self.sequence
            && head.index == pages
            && head.session == session
            && head.used == 0
    }

    // Whether a sector continues the group after this many pages of that session.
    fn judge(&self, bytes: &[u8; 512], session: u64, pages: u32) -> Fit
        requires { self.now.kind ≢ commit_kind }
        ensures { Judged self.now session pages bytes.now result }
    {
        let head = read_head(bytes);
        if self.is_page(&head, pages) {
            if pages == 0 || head.session == session {
                return Fit::Page(head.used, head.session);
            }
            return Fit::Neither;
        }
        if pages > 0 && self.is_commit(&head, session, pages) {
            return Fit::Commit;
        }
        Fit::Neither
    }
}

/// How a sector continues the pages that were read.
pub(crate) enum Fit {
    /// A page with this many used bytes, of that session.
    Page(u16, u64),
    /// The commit sector.
    Commit,
    /// It doesn't.
    Neither,
}

/// The pages that were read.
#[derive(Drop)]
struct Reading<A: Allocator> {
    site: Site,
    payload: Vec<u8, A>,
    session: u64,
    pages: u32,
}

impl<A: Allocator> Reading<A> {
    /// Appends the bytes of a page.
    fn take(&mut self, bytes: &[u8; 512], used: u16, session: u64) -> Result<(), NoMemory>
        requires used { used ≤ page_payload }
        requires more { self.old.pages < 2 ^ 32 - 1 }
        ensures long { length bytes.now ≡ 512 }
        ensures site { self.new.site ≡ self.old.site }
        ensures pages { OnOk result (self.new.pages ≡ self.old.pages + 1) }
        ensures session { OnOk result (self.new.session ≡ session) }
        ensures payload { OnOk result (self.new.payload.items ≡ self.old.payload.items
            ++ take used (drop head_len bytes.now)) }
    {
        self.payload
            .extend_from_slice(&bytes[HEAD..HEAD + used as usize])?;
        self.session = session;
        self.pages += 1;
        Ok(())
    }

    /// Reads the sector after the pages, and returns whether it completes the group.
    fn read_next<D: Disk>(&mut self, disk: &mut D, at: u32) -> Result<bool, GroupFault>
        requires kind { self.old.site.kind ≢ commit_kind }
        requires more { self.old.pages < 2 ^ 32 - 1 }
        requires within { at < D.sectors disk.old }
        ensures step { D.keeps disk.new → at ≡ self.old.site.first + self.old.pages
            → at < self.old.site.limit
            → IsBegun self.old.site self.old.session self.old.payload.items self.old.pages
            (D.reads disk.old)
            → IsStep self.old.site (D.reads disk.old) self.new.session self.new.pages
            self.new.payload.items result }
        ensures site { self.new.site ≡ self.old.site }
        ensures pages { IfOk result (λ done.
            self.new.pages ≡ (if done then self.old.pages else self.old.pages + 1)) }
        ensures reads { D.reads disk.new ≡ D.reads disk.old }
        ensures choices { D.choices disk.new ≡ D.choices disk.old }
        ensures time { Passes D.Disk disk.old disk.new (IsImage (D.choices disk.old)) }
        ensures before { D.keeps disk.new → D.keeps disk.old }
        ensures counts { Counts D.Disk disk.old disk.new (IsErrOf result GroupFault.Device) }
    {
        let bytes = match disk.read(at) {
            Ok(bytes) => bytes,
            Err(ReadFault::Unreadable) => return Err(GroupFault::Incomplete(at)),
            Err(ReadFault::Failed) => return Err(GroupFault::Device),
        };
        match self.site.judge(&bytes, self.session, self.pages) {
            Fit::Neither => Err(GroupFault::Incomplete(at)),
            Fit::Commit => Ok(true),
            Fit::Page(used, session) => {
                if self.payload.len() != PAYLOAD * self.pages as usize {
                    return Err(GroupFault::Incomplete(at));
                }
                match self.take(&bytes, used, session) {
                    Ok(()) => Ok(false),
                    Err(NoMemory) => Err(GroupFault::NoMemory),
                }
            }
        }
    }
}

/// Reads the group of that kind, version and sequence from `place` on, in the sectors before `limit`. Each sector
/// is read once.
///
/// # Errors
///
/// `Incomplete` if that group isn't complete, with the first sector that doesn't fit; `Device` if a
/// read failed; `NoMemory`.
pub fn read_group<A: Allocator, D: Disk>(
    alloc: A,
    disk: &mut D,
    place: u32,
    limit: u32,
    kind: u8,
    version: u8,
    sequence: u64,
) -> Result<Group<A>, GroupFault>
    requires kind { kind ≢ commit_kind }
    requires first { place ≤ limit }
    requires limit { limit ≤ D.sectors disk.old }
    ensures group { D.keeps disk.new
        → IfOk result (λ group. (session : ℕ) × (pages : ℕ)
        × IsGroup (site_of place limit kind version sequence) session group.payload.items pages
        (D.reads disk.old)
        × (group.sectors ≡ pages + 1)) }
    ensures incomplete { D.keeps disk.new → (n : ℕ) → IsErrOf result (GroupFault.Incomplete n)
        → IsCutAt (site_of place limit kind version sequence) n (D.reads disk.old) }
    ensures within { IfOk result (λ group.
        (1 ≤ group.sectors) × (place + group.sectors ≤ limit)) }
    ensures looked { OnlyLooked D.Disk disk.old disk.new }
    ensures counts { Counts D.Disk disk.old disk.new (IsErrOf result GroupFault.Device) }
{
    let mut reading = Reading {
        site: Site {
            kind,
            version,
            sequence,
            first: place,
            limit,
        },
        payload: Vec::new(alloc),
        session: 0,
        pages: 0,
    };
    for at in place..limit {
        if reading.read_next(disk, at)? {
            return Ok(Group {
                payload: reading.payload,
                sectors: reading.pages + 1,
            });
        }
    }
    Err(GroupFault::Incomplete(limit))
}
