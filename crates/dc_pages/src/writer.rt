//! Writes a group, page by page.

ghost use Rattle.std.specs.Prelude.{◌≡◌, ◌⊎◌, ◌<◌, ◌≤◌, ◌+◌, ◌-◌, ◌*◌, ◌++◌, [], List, ℕ, take, IsErr};
ghost use Rattle.std.specs.Prelude.{length, min, OnOk, OnErr, IfOk, IsTrue, ◌↔◌};
ghost use Rattle.dc_sectors.specs.Disk.{Image};
ghost use Rattle.dc_sectors.specs.Runs.{LeavesOnly, Counts};
ghost use Rattle.dc_pages.specs.Draft.{draft_len, HasRoom};
ghost use Rattle.dc_pages.specs.Group.{piece, page_payload};
ghost use Rattle.dc_pages.specs.PagesWriting.{SameOutside, IsPartOf, IsOnDisk, IsGoing, IsClosed};

use crate::Site;
use crate::head::{COMMIT, HEAD, Head, PAYLOAD, write_head};
use dc_sectors::{Disk, Failed};
use std::marker::Model;

/// A group that is being written. It holds one page, and uses no memory.
///
/// Once a call returned `Failed`, no contract states anything of the group: it is abandoned.
#[derive(Drop)]
pub struct GroupWriter {
    site: Site,
    session: u64,
    index: u32,
    used: u16,
    page: [u8; 512],
}

impl Model for GroupWriter {
    ghost use Rattle.dc_pages.specs.Draft.{Draft};

    ghost Value = { Draft };

    ghost use Rattle.std.specs.Prelude.{take, drop};
    ghost use Rattle.dc_pages.specs.Buffer.{IsBuffer};
    ghost use Rattle.dc_pages.specs.Group.{head_len};

    ghost view = { λ w. record {
      site = w.site;
      session = w.session;
      pages = w.index;
      buffer = take w.used (drop head_len w.page);
    } };

    ghost invariant = { λ w. IsBuffer w.used w.page };
}

impl GroupWriter {
    /// Begins the group of that site in that session, with no payload yet.
    pub fn begin(site: Site, session: u64) -> GroupWriter
        ensures { result ≡ record { site = site; session = session; pages = 0; buffer = [] } }
    {
        GroupWriter {
            site,
            session,
            index: 0,
            used: 0,
            page: [0; 512],
        }
    }

    /// The sector before which the half ends.
    pub fn limit(&self) -> u32
        ensures { result ≡ self.now.site.limit }
    {
        self.site.limit
    }

    /// Whether this many more bytes and the commit sector fit.
    pub fn has_room(&self, more: usize) -> bool
        ensures { IsTrue result ↔ HasRoom self.now more }
    {
        let written = PAYLOAD as u64 * (self.site.first as u64 + self.index as u64)
            + self.used as u64;
        let room = PAYLOAD as u64 * self.site.limit as u64;
        room.saturating_sub(written) >= PAYLOAD as u64
            && more as u64 <= room.saturating_sub(written) - PAYLOAD as u64
    }

    // Takes as many bytes as the page has room for, and returns how many.
    fn fill(&mut self, bytes: &[u8]) -> usize
        ensures count { result ≡ min (page_payload - length self.old.buffer) (length bytes.now) }
        ensures filled { self.new ≡ record self.old {
          buffer = self.old.buffer ++ take result bytes.now;
        } }
    {
        let used = self.used as usize;
        let count = bytes.len().min(PAYLOAD - used);
        self.page[HEAD + used..HEAD + used + count].copy_from_slice(&bytes[..count]);
        self.used += count as u16;
        count
    }

    // Writes the page in the buffer, and begins another.
    fn flush_page<D: Disk>(&mut self, disk: &mut D) -> Result<(), Failed>
        requires room { self.old.site.first + self.old.pages + 1 < self.old.site.limit }
        requires limit { self.old.site.limit ≤ D.sectors disk.old }
        ensures flushed { OnOk result (self.new
            ≡ record self.old { pages = self.old.pages + 1; buffer = [] }) }
        ensures on_disk { (start : D) (payload : List ℕ)
            → self.old.buffer ≡ piece self.old.pages payload
            → IsOnDisk D.Disk start disk.old self.old.site self.old.session self.old.pages payload
            → OnOk result (IsOnDisk D.Disk start disk.new
            self.old.site self.old.session (self.old.pages + 1) payload) }
        ensures any_moment { (start : D) (payload : List ℕ)
            → self.old.buffer ≡ piece self.old.pages payload
            → IsOnDisk D.Disk start disk.old self.old.site self.old.session self.old.pages payload
            → LeavesOnly D.Disk start disk.new
            (IsPartOf self.old.site self.old.session (D.reads start)) }
        ensures elsewhere { SameOutside self.old.site (D.reads disk.old) (D.reads disk.new) }
        ensures before { D.keeps disk.new → D.keeps disk.old }
        ensures counts { Counts D.Disk disk.old disk.new (IsErr result) }
    {
        let at = self.site.first + self.index;
        let head = Head {
            kind: self.site.kind,
            version: self.site.version,
            used: self.used,
            index: self.index,
            session: self.session,
            sequence: self.site.sequence,
        };
        write_head(&mut self.page, &head);
        disk.write(at, &self.page)?;
        self.page = [0; 512];
        self.used = 0;
        self.index += 1;
        Ok(())
    }

    // Writes the page in the buffer if it is full.
    fn make_room<D: Disk>(&mut self, disk: &mut D) -> Result<(), Failed>
        requires room { HasRoom self.old 1 }
        requires limit { self.old.site.limit ≤ D.sectors disk.old }
        ensures room { OnOk result (length self.new.buffer < page_payload) }
        ensures length { OnOk result (draft_len self.new ≡ draft_len self.old) }
        ensures same { OnOk result (self.new
            ≡ record self.old { pages = self.new.pages; buffer = self.new.buffer }) }
        ensures going { (start : D) (payload : List ℕ)
            → IsGoing D.Disk start disk.old self.old payload
            → OnOk result (IsGoing D.Disk start disk.new self.new payload) }
        ensures any_moment { (start : D) (payload : List ℕ)
            → IsGoing D.Disk start disk.old self.old payload
            → LeavesOnly D.Disk start disk.new
            (IsPartOf self.old.site self.old.session (D.reads start)) }
        ensures elsewhere { SameOutside self.old.site (D.reads disk.old) (D.reads disk.new) }
        ensures before { D.keeps disk.new → D.keeps disk.old }
        ensures counts { Counts D.Disk disk.old disk.new (IsErr result) }
    {
        if (self.used as usize) < PAYLOAD {
            return Ok(());
        }
        self.flush_page(disk)?;
        Ok(())
    }

    /// Appends bytes to the payload.
    pub fn put<D: Disk>(&mut self, disk: &mut D, bytes: &[u8]) -> Result<(), Failed>
        requires room { HasRoom self.old (length bytes.now) }
        requires limit { self.old.site.limit ≤ D.sectors disk.old }
        ensures length { OnOk result (draft_len self.new ≡ draft_len self.old + length bytes.now) }
        ensures some { 0 < length bytes.now → OnOk result (0 < length self.new.buffer) }
        ensures still_some { 0 < length self.old.buffer → OnOk result (0 < length self.new.buffer) }
        ensures same { OnOk result (self.new
            ≡ record self.old { pages = self.new.pages; buffer = self.new.buffer }) }
        ensures going { (start : D) (payload : List ℕ)
            → IsGoing D.Disk start disk.old self.old payload
            → OnOk result (IsGoing D.Disk start disk.new self.new (payload ++ bytes.now)) }
        ensures any_moment { (start : D) (payload : List ℕ)
            → IsGoing D.Disk start disk.old self.old payload
            → LeavesOnly D.Disk start disk.new
            (IsPartOf self.old.site self.old.session (D.reads start)) }
        ensures elsewhere { SameOutside self.old.site (D.reads disk.old) (D.reads disk.new) }
        ensures before { D.keeps disk.new → D.keeps disk.old }
        ensures counts { Counts D.Disk disk.old disk.new (IsErr result) }
    {
        let mut at = 0;
        while at < bytes.len() {
            self.make_room(disk)?;
            at += self.fill(&bytes[at..]);
        }
        Ok(())
    }

    /// Writes the last page and the commit sector, and returns the number of sectors of the group.
    /// It doesn't sync.
    pub fn finish<D: Disk>(mut self, disk: &mut D) -> Result<u32, Failed>
        requires some { 0 < length self.buffer }
        requires room { HasRoom self 0 }
        requires limit { self.site.limit ≤ D.sectors disk.old }
        ensures sectors { IfOk result (λ n. n ≡ self.pages + 2) }
        ensures closed { (start : D) (payload : List ℕ) → IsGoing D.Disk start disk.old self payload
            → OnOk result (IsClosed D.Disk start disk.new
            (D.reads start) self.site self.session (self.pages + 1) payload (D.reads disk.new)) }

        // Where a write failed, a crash leaves a part of the group without its commit sector, or the group torn.
        ensures any_moment { (start : D) (payload : List ℕ)
            → IsGoing D.Disk start disk.old self payload
            → OnErr result (LeavesOnly D.Disk start disk.new
            (IsPartOf self.site self.session (D.reads start))
            ⊎ ((written : Image) × IsClosed D.Disk start disk.new
            (D.reads start) self.site self.session (self.pages + 1) payload written)) }
        ensures elsewhere { SameOutside self.site (D.reads disk.old) (D.reads disk.new) }
        ensures before { D.keeps disk.new → D.keeps disk.old }
        ensures counts { Counts D.Disk disk.old disk.new (IsErr result) }
    {
        let pages = self.index + 1;
        let at = self.site.first + pages;
        let head = Head {
            kind: COMMIT,
            version: self.site.version,
            used: 0,
            index: pages,
            session: self.session,
            sequence: self.site.sequence,
        };
        self.flush_page(disk)?;
        let mut commit = [0; 512];
        write_head(&mut commit, &head);
        disk.write(at, &commit)?;
        Ok(pages + 1)
    }
}
