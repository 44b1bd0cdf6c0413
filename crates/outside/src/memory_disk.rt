//! A disk in memory, which keeps a record of all its calls.
ghost use Rattle.std.specs.Prelude.{◌≡◌, ◌⊎◌, ◌≤◌, ◌<◌, ◌^◌, [], ◌∷◌, ◌++◌, true, false, length};
ghost use Rattle.std.specs.Prelude.{IfOk, OnOk, OnErr};
ghost use Rattle.outside.specs.Disk.{Holds, Fills, Torn};
ghost use Rattle.outside.specs.Faults.{HasCause};
ghost use Rattle.outside.specs.Record.{bytes_after, bytes_after_operation, image_after_operation};
ghost use Rattle.outside.specs.Record.{IsImage, IsImageSince, IsRefusal};
ghost use Rattle.outside.specs.RecordLaws.{bytes_are_image, image_counts, image_only};

use crate::{Disk, Failed, Plan};
use std::alloc::{AllocError, Global};

/// What a call of a disk is asked to do.
#[derive(Drop)]
pub enum Operation {
    Length,
    Read { at: u64, length: usize },
    Write { at: u64, bytes: Vec<u8> },
    Sync,
}

/// A call of a disk, and whether it failed.
#[derive(Drop)]
pub struct Call {
    pub operation: Operation,
    pub failed: bool,
}

/// A disk in memory. It keeps a record of all its calls, and what a crash may leave follows from
/// that record.
#[derive(Drop)]
pub struct MemoryDisk {
    alloc: Global,
    first: Vec<u8>,
    bytes: Vec<u8>,
    calls: Vec<Call>,
    plan: Plan,
    faults: u64,
    ghost kept: { bytes.items ≡ bytes_after first.items calls.items },
}

impl MemoryDisk {
    ghost use Rattle.outside.specs.MemoryDisk.{memory_bytes, memory_calls, memory_faults};
    ghost use Rattle.outside.specs.MemoryDisk.{memory_moment, IsMemoryImage, IsMemoryImageSince};
    ghost use Rattle.outside.specs.MemoryDisk.{IsFresh};
    ghost use Rattle.outside.specs.Disk.{Only, Elapses};
    ghost use Rattle.outside.specs.Record.{IsReading};
    ghost use Rattle.outside.specs.declared.memory_disk.Operation.TheVariants.{Sync};
    ghost use Rattle.std.specs.Prelude.{List, ℕ};

    /// A disk that has these bytes, all of them synced, and that fails for want of memory alone.
    pub fn new(alloc: Global, bytes: Vec<u8>) -> Result<Self, AllocError>
        ensures fresh { IfOk result (IsFresh bytes.items) }
    {
        Self::with_plan(alloc, bytes, Plan::Never)
    }

    /// The same, where the calls of the plan fail. A failed write may leave any bytes in its range
    /// after a crash, and the disk goes on to read what it read before.
    pub fn with_plan(alloc: Global, bytes: Vec<u8>, plan: Plan) -> Result<Self, AllocError>
        ensures fresh { IfOk result (IsFresh bytes.items) }
    {
        let first = bytes.to_vec(alloc)?;
        Ok(MemoryDisk {
            alloc,
            first,
            bytes,
            calls: Vec::new(alloc),
            plan,
            faults: 0,
        })
    }

    /// The bytes that the disk reads.
    pub fn bytes(&self) -> &[u8]
        ensures { result.now ≡ memory_bytes self.now }
    {
        &self.bytes
    }

    /// An image that a crash may leave now. The number picks what is left of the writes since the
    /// last sync:
    /// nothing, all, bytes of one value over each range, a front of each piece, or all and more
    /// bytes past the end.
    pub fn crash_image(&self, alloc: Global, number: u64) -> Result<Vec<u8>, AllocError>
        ensures { IfOk result (λ image. IsMemoryImage self.now image.items) }
    {
        let mut bytes = self.first.to_vec(alloc)?;
        let mut image = self.first.to_vec(alloc)?;
        for call in &self.calls {
            let next = after_call(alloc, &bytes, &image, call, number)?;
            bytes = next.0;
            image = next.1;
        }
        Ok(image)
    }

    /// The count of faults.
    pub fn faults(&self) -> u64
        ensures { result ≡ memory_faults self.now }
    {
        self.faults
    }

    /// The record of all calls, the first of them first. A write that found no memory isn't in it.
    pub fn calls(&self) -> &[Call]
        ensures { result.now ≡ memory_calls self.now }
    {
        &self.calls
    }

    // Puts a call that changes no bytes into the record.
    fn note_reading(&mut self, operation: Operation) -> Result<(), Failed>
        requires { IsReading operation }
        ensures reads { memory_bytes self.new ≡ memory_bytes self.old }
        ensures images { (c : List ℕ) → IsMemoryImage self.new c → IsMemoryImage self.old c }
        ensures durable { operation ≡ Sync
            → OnOk result (Only (memory_bytes self.old) (IsMemoryImage self.new)) }
        ensures time { Elapses (memory_moment self.old) (memory_moment self.new)
            (IsMemoryImageSince self.old)
            (IsMemoryImageSince self.new) }
        ensures moments { (c : List ℕ) → IsMemoryImageSince self.new (memory_moment self.old) c
            → IsMemoryImage self.old c }
        ensures cause { HasCause (memory_faults self.old) (memory_faults self.new) result }
    {
        let fails = self.plan.fails(self.calls.len() as u64);
        note(&mut self.calls, &mut self.faults, operation, fails)
    }
}

// Puts a call into the record. It fails where it is to fail, or for want of memory.
fn note(
    calls: &mut Vec<Call>,
    faults: &mut u64,
    operation: Operation,
    failed: bool,
) -> Result<(), Failed>
    ensures ok { OnOk result (calls.new.items
        ≡ calls.old.items ++ record { operation = operation; failed = false } ∷ []) }
    ensures err { OnErr result (IsRefusal calls.old.items operation calls.new.items) }
    ensures cause { HasCause faults.old faults.new result }
{
    if calls.push(Call { operation, failed }).is_err() {
        *faults = faults.saturating_add(1);
        return Err(Failed);
    }
    if failed {
        *faults = faults.saturating_add(1);
        return Err(Failed);
    }
    Ok(())
}

// The bytes with a piece written over them.
fn overwrite(alloc: Global, bytes: &[u8], at: usize, piece: &[u8]) -> Result<Vec<u8>, AllocError>
    requires { at ≤ length bytes.now }
    ensures written { IfOk result (λ next. Holds bytes.now at piece.now next.items) }
    ensures fits { IfOk result (λ next. length next.items < 2 ^ 64) }
{
    let mut next = bytes[..at].to_vec(alloc)?;
    next.extend_from_slice(piece)?;
    if piece.len() < bytes.len() - at {
        next.extend_from_slice(&bytes[at + piece.len()..])?;
    }
    let _length = next.len();
    Ok(next)
}

impl Disk for MemoryDisk {
    ghost use Rattle.outside.specs.MemoryDisk.{memory_bytes, memory_faults, memory_moment};
    ghost use Rattle.outside.specs.MemoryDisk.{IsMemoryImage, IsMemoryImageSince};

    ghost tells = { Unit {0} };

    ghost reads = { memory_bytes };

    ghost image = { IsMemoryImage };

    ghost moment = { memory_moment };

    ghost image_since = { IsMemoryImageSince };

    ghost faults = { memory_faults };

    ghost tellable = { λ d. 2 ^ 64 };

    ghost heard = { λ disk number one. ⊥ };

    ghost origin = { λ d. [] };

    ghost read_is_image = { λ d told.
        bytes_are_image d.first.items d.calls.items d.bytes.items d.kept };

    ghost counts_now = { λ d t c le now. image_counts d.first.items d.calls.items t c le now };

    ghost only_now = { λ d c since. image_only d.first.items d.calls.items c since };

    fn length(&mut self) -> Result<u64, Failed> {
        self.note_reading(Operation::Length)?;
        Ok(self.bytes.len() as u64)
    }

    fn read_at(&mut self, at: u64, into: &mut [u8]) -> Result<usize, Failed> {
        let length = into.len();
        self.note_reading(Operation::Read { at, length })?;
        Ok(fill(&self.bytes, at, into))
    }

    fn write_at(&mut self, at: u64, bytes: &[u8]) -> Result<(), Failed> {
        let (Ok(next), Ok(piece)) = (
            overwrite(self.alloc, &self.bytes, at as usize, bytes),
            bytes.to_vec(self.alloc),
        ) else {
            self.faults = self.faults.saturating_add(1);
            return Err(Failed);
        };
        let fails = self.plan.fails(self.calls.len() as u64);
        let operation = Operation::Write { at, bytes: piece };
        note(&mut self.calls, &mut self.faults, operation, fails)?;
        self.bytes = next;
        Ok(())
    }

    fn sync(&mut self) -> Result<(), Failed> {
        self.note_reading(Operation::Sync)
    }

    fn tell(&mut self, _number: u64, _kind: u8, _text: &[u8]) -> Result<(), Failed> {
        Ok(())
    }
}

// The bytes and a picked image after a call, from those before it.
fn after_call(
    alloc: Global,
    bytes: &[u8],
    image: &[u8],
    call: &Call,
    number: u64,
) -> Result<(Vec<u8>, Vec<u8>), AllocError>
    ensures bytes { IfOk result (λ r. r.0.items
        ≡ bytes_after_operation bytes.now call.now.operation call.now.failed) }
    ensures image { IfOk result (λ r. image_after_operation bytes.now
        (λ d. d ≡ image.now) call.now.operation call.now.failed r.1.items) }
{
    match &call.operation {
        Operation::Write { at, bytes: piece } => {
            let image = torn(alloc, image, *at as usize, piece, number)?;
            let within = *at as usize <= bytes.len();
            if call.failed || !within {
                return Ok((bytes.to_vec(alloc)?, image));
            }
            Ok((overwrite(alloc, bytes, *at as usize, piece)?, image))
        }
        Operation::Sync if !call.failed => Ok((bytes.to_vec(alloc)?, bytes.to_vec(alloc)?)),
        _ => Ok((bytes.to_vec(alloc)?, image.to_vec(alloc)?)),
    }
}

// What is left of one write.
fn torn(
    alloc: Global,
    image: &[u8],
    at: usize,
    piece: &[u8],
    number: u64,
) -> Result<Vec<u8>, AllocError>
    ensures { IfOk result (λ left. Torn at (length piece.now) image.now left.items) }
{
    let choice = number / 5;
    let byte = (choice % 256) as u8;
    let left = match number % 5 {
        0 => Vec::new(alloc),
        1 | 4 => piece.to_vec(alloc)?,
        2 => vec![in alloc; byte; piece.len()]?,
        _ => piece[..piece.len().min(choice as usize)].to_vec(alloc)?,
    };
    let past_the_end = if number % 5 == 4 {
        vec![in alloc; byte; 8]?
    } else {
        Vec::new(alloc)
    };
    torn_to(alloc, image, at, piece.len(), &left, &past_the_end)
}

// A write of so many bytes of which these are left, where it begins within the image, with more
// past the end.
fn torn_to(
    alloc: Global,
    image: &[u8],
    at: usize,
    size: usize,
    left: &[u8],
    past_the_end: &[u8],
) -> Result<Vec<u8>, AllocError>
    ensures { IfOk result (λ new. Torn at size image.now new.items) }
{
    if at > image.len() || left.len() > size {
        return image.to_vec(alloc);
    }
    let mut new = overwrite(alloc, image, at, left)?;
    new.extend_from_slice(past_the_end)?;
    Ok(new)
}

// Fills a piece with the bytes from this place on, and answers how many there were.
fn fill(bytes: &[u8], at: u64, into: &mut [u8]) -> usize
    ensures fits { result ≤ length into.old }
    ensures bytes { Fills bytes.now at result into.old into.new }
{
    let from = at.min(bytes.len() as u64) as usize;
    let count = into.len().min(bytes.len() - from);
    into[..count].copy_from_slice(&bytes[from..from + count]);
    count
}
