//! What no clause says: that the calls succeed where the disk does, and bytes from outside; and each image that a cut
//! leaves is opened again.

ghost use Rattle.std.specs.Prelude.{◌≡◌};
ghost use Rattle.cf_disk.specs.Disk.{size_of};
ghost use Rattle.cf_journal.specs.Settled.{HasRoom, IsFitSize};

use cf_base::Choice;
use cf_codec::Format;
use cf_disk::{Disk, MemDisk, TraceDisk};
use cf_journal::*;
use std::alloc::Global;
use std::test::Fail;

const SIZE: u64 = 3_145_728;

fn has_record(opened: &Opened) -> bool {
    let payloads = opened.payloads.as_slice();
    opened.format == Format::Second
        && opened.image.as_slice() == [0].as_slice()
        && payloads.len() == 1
        && payloads[0].as_slice() == b"ab".as_slice()
}

// Whether the disk has this record.
fn opens_with_record<D: Disk>(alloc: Global, disk: &mut D) -> bool {
    if !Journal::is_fit_size(disk.size()) {
        return false;
    }
    match Journal::open(alloc, disk) {
        Ok(opened) => {
            let same = has_record(&opened);
            drop(opened);
            same
        }
        Err(_) => false,
    }
}

// Whether a new journal takes the record.
fn takes_record<D: Disk>(disk: &mut D) -> bool
    requires { IsFitSize (size_of (D.state disk.old)) }
{
    match Journal::format(disk, &[0]) {
        Ok(mut journal) => journal.fits(2) && journal.append(disk, b"ab").is_ok(),
        Err(_) => false,
    }
}

fn keeps_record<D: Disk>(alloc: Global, disk: &mut D) -> bool {
    if !Journal::is_fit_size(disk.size()) {
        return false;
    }
    let taken = takes_record(disk);
    disk.power(Choice::Drop);
    taken && opens_with_record(alloc, disk)
}

#[test]
fn a_record_comes_back(rt: HostRuntime) -> Result<(), Fail> {
    let mut disk = MemDisk::new(rt.alloc(), SIZE)?;
    let kept = keeps_record(rt.alloc(), &mut disk);
    drop(disk);
    assert!(rt; kept);
    Ok(())
}

// The slot of the second image: an open gate, CFVOL02, generation 2, three bytes, the size of the disk.
const SLOT: [u8; 28] = [
    1, 67, 70, 86, 79, 76, 48, 50, 0, 0, 0, 0, 0, 0, 0, 2, 0, 0, 0, 3, 0, 0, 0, 0, 0, 48, 0, 0,
];

fn rewrites<D: Disk>(disk: &mut D) -> bool
    requires { IsFitSize (size_of (D.state disk.old)) }
{
    match Journal::format(disk, b"one") {
        Ok(mut journal) => journal.rewrite(disk, b"two").is_ok(),
        Err(_) => false,
    }
}

fn has_header<D: Disk>(disk: &mut D) -> bool {
    let mut header = [0u8; 28];
    disk.size() == SIZE && disk.read(1_572_864, &mut header).is_ok() && header == SLOT
}

fn has_image<D: Disk>(disk: &mut D) -> bool {
    let mut image = [0u8; 3];
    disk.size() == SIZE && disk.read(1_576_960, &mut image).is_ok() && image == *b"two"
}

fn spells<D: Disk>(disk: &mut D) -> bool {
    Journal::is_fit_size(disk.size()) && rewrites(disk) && has_header(disk) && has_image(disk)
}

#[test]
fn a_slot_is_spelled_so(rt: HostRuntime) -> Result<(), Fail> {
    let mut disk = MemDisk::new(rt.alloc(), SIZE)?;
    let spelled = spells(&mut disk);
    drop(disk);
    assert!(rt; spelled);
    Ok(())
}

fn is_none<D: Disk>(alloc: Global, disk: &mut D) -> bool {
    if !Journal::is_fit_size(disk.size()) {
        return false;
    }
    match Journal::open(alloc, disk) {
        Ok(opened) => {
            drop(opened);
            false
        }
        Err(error) => error == JournalError::NotAVolume,
    }
}

#[test]
fn zeros_are_no_volume(rt: HostRuntime) -> Result<(), Fail> {
    let mut disk = MemDisk::new(rt.alloc(), SIZE)?;
    let none = is_none(rt.alloc(), &mut disk);
    drop(disk);
    assert!(rt; none);
    Ok(())
}

#[derive(Clone, Copy, PartialEq)]
enum Image {
    Old,
    New,
    Other,
}

// What a disk holds that is opened: its image, and how many records.
type Held = (Image, usize);

const OLD: Held = (Image::Old, 0);

const NEW: Held = (Image::New, 0);

const ADDED: Held = (Image::Old, 1);

fn held_by(opened: &Opened) -> Held {
    let bytes = opened.image.as_slice();
    let image = if bytes == b"old".as_slice() {
        Image::Old
    } else if bytes == b"new".as_slice() {
        Image::New
    } else {
        Image::Other
    };
    (image, opened.payloads.as_slice().len())
}

// None where the disk is no volume.
fn found_on<D: Disk>(alloc: Global, disk: &mut D) -> Result<Option<Held>, JournalError> {
    if !Journal::is_fit_size(disk.size()) {
        return Ok(None);
    }
    match Journal::open(alloc, disk) {
        Ok(opened) => {
            let found = held_by(&opened);
            drop(opened);
            Ok(Some(found))
        }
        Err(JournalError::NotAVolume) => Ok(None),
        Err(error) => Err(error),
    }
}

// Formats the disk, and appends to it or rewrites it while so many of its calls pass: whether that succeeds.
fn changes_old<D: Disk>(disk: &mut D, calls: u32, appends: bool) -> Result<bool, JournalError>
    requires { IsFitSize (size_of (D.state disk.old)) }
{
    let mut journal = Journal::format(disk, b"old")?;
    disk.arm(calls);
    Ok(journal.fits(3) && changes(&mut journal, disk, appends))
}

// Whether a device that fails after that many calls of an append or a rewrite, and then loses its power, leaves the content
// before or after, as it is opened again; and the content after where the call succeeded, as it is to do or not.
fn leaves_before_or_after<D: Disk>(
    alloc: Global,
    disk: &mut D,
    calls: u32,
    choice: Choice,
    appends: bool,
    succeeds: bool,
) -> Result<bool, JournalError> {
    if !Journal::is_fit_size(disk.size()) {
        return Ok(false);
    }
    let done = changes_old(disk, calls, appends)?;
    disk.power(choice);
    let left = found_on(alloc, disk)?;
    let after = if appends { ADDED } else { NEW };
    Ok(done == succeeds && (left == Some(after) || (left == Some(OLD) && !done)))
}

// One of the two calls; whether it succeeds.
fn changes<D: Disk>(journal: &mut Journal, disk: &mut D, appends: bool) -> bool
    requires room { HasRoom journal.old 3 }
    requires size { IsFitSize (size_of (D.state disk.old)) }
    ensures { size_of (D.state disk.new) ≡ size_of (D.state disk.old) }
{
    if appends {
        journal.append(disk, b"new").is_ok()
    } else {
        journal.rewrite(disk, b"new").is_ok()
    }
}

// All cuts with one choice. An append makes six calls of the disk, a rewrite nine.
fn all_leave_before_or_after<D: Disk>(
    alloc: Global,
    disk: &mut D,
    choice: Choice,
) -> Result<bool, JournalError> {
    for calls in 0..7 {
        if !leaves_before_or_after(alloc, disk, calls, choice, true, calls == 6)? {
            return Ok(false);
        }
    }
    for calls in 0..10 {
        if !leaves_before_or_after(alloc, disk, calls, choice, false, calls == 9)? {
            return Ok(false);
        }
    }
    Ok(true)
}

fn both_leave_it<D: Disk>(
    alloc: Global,
    disk: &mut D,
    choices: [Choice; 2],
) -> Result<bool, JournalError> {
    let first = all_leave_before_or_after(alloc, disk, choices[0])?;
    Ok(first && all_leave_before_or_after(alloc, disk, choices[1])?)
}

#[test]
fn a_cut_in_memory_leaves_the_content_before_or_after(rt: HostRuntime) -> Result<(), Fail> {
    let mut disk = MemDisk::new(rt.alloc(), SIZE)?;
    let left = both_leave_it(rt.alloc(), &mut disk, [Choice::Keep, Choice::Drop]);
    drop(disk);
    assert!(rt; left?);
    Ok(())
}

#[test]
fn a_cut_in_memory_that_mixes_bytes_does_too(rt: HostRuntime) -> Result<(), Fail> {
    let mut disk = MemDisk::new(rt.alloc(), SIZE)?;
    let left = both_leave_it(rt.alloc(), &mut disk, [Choice::Mix(1), Choice::Mix(77)]);
    drop(disk);
    assert!(rt; left?);
    Ok(())
}

#[test]
fn a_cut_of_a_traced_disk_does_too(rt: HostRuntime) -> Result<(), Fail> {
    let mut disk = TraceDisk::new(rt.alloc(), SIZE, 64, 1_000_000, 1)?;
    let left = both_leave_it(rt.alloc(), &mut disk, [Choice::Keep, Choice::Mix(5)]);
    drop(disk);
    assert!(rt; left?);
    Ok(())
}

// Formats the disk anew while so many of its calls pass: whether that succeeds.
fn formats_again<D: Disk>(disk: &mut D, calls: u32) -> Result<bool, JournalError>
    requires { IsFitSize (size_of (D.state disk.old)) }
{
    Journal::format(disk, b"old")?;
    disk.arm(calls);
    Ok(Journal::format(disk, b"new").is_ok())
}

// Whether a formatting that is cut after that many of its twelve calls leaves what stood there before, no volume, or the new
// one, and the new one where it succeeded.
fn formats_or_not<D: Disk>(
    alloc: Global,
    disk: &mut D,
    calls: u32,
    choice: Choice,
) -> Result<bool, JournalError> {
    if !Journal::is_fit_size(disk.size()) {
        return Ok(false);
    }
    let done = formats_again(disk, calls)?;
    disk.power(choice);
    Ok(match found_on(alloc, disk)? {
        None => !done,
        Some(left) => { done == (calls == 12) && (left == NEW || (left == OLD && calls < 3)) }
    })
}

// Formats the disk, and opens it while so many of its calls pass: whether that succeeds.
fn opens_old<D: Disk>(alloc: Global, disk: &mut D, calls: u32) -> Result<bool, JournalError>
    requires { IsFitSize (size_of (D.state disk.old)) }
{
    Journal::format(disk, b"old")?;
    disk.arm(calls);
    Ok(Journal::open(alloc, disk).is_ok())
}

// Whether an opening that is cut after that many of its five calls leaves the content.
fn opens_again<D: Disk>(
    alloc: Global,
    disk: &mut D,
    calls: u32,
    choice: Choice,
) -> Result<bool, JournalError> {
    if !Journal::is_fit_size(disk.size()) {
        return Ok(false);
    }
    let done = opens_old(alloc, disk, calls)?;
    disk.power(choice);
    Ok(done == (calls == 5) && found_on(alloc, disk)? == Some(OLD))
}

fn are_formatted_or_not(alloc: Global, disk: &mut MemDisk) -> Result<bool, JournalError> {
    for calls in 0..13 {
        for choice in [Choice::Keep, Choice::Drop, Choice::Mix(3)] {
            if !formats_or_not(alloc, disk, calls, choice)? {
                return Ok(false);
            }
        }
    }
    Ok(true)
}

#[test]
fn a_cut_formatting_leaves_the_old_none_or_the_new(rt: HostRuntime) -> Result<(), Fail> {
    let mut disk = MemDisk::new(rt.alloc(), SIZE)?;
    let left = are_formatted_or_not(rt.alloc(), &mut disk);
    drop(disk);
    assert!(rt; left?);
    Ok(())
}

fn stays_when_opened(alloc: Global, disk: &mut MemDisk) -> Result<bool, JournalError> {
    for calls in 0..6 {
        if !opens_again(alloc, disk, calls, Choice::Mix(9))? {
            return Ok(false);
        }
    }
    Ok(true)
}

#[test]
fn a_cut_opening_leaves_the_content(rt: HostRuntime) -> Result<(), Fail> {
    let mut disk = MemDisk::new(rt.alloc(), SIZE)?;
    let left = stays_when_opened(rt.alloc(), &mut disk);
    drop(disk);
    assert!(rt; left?);
    Ok(())
}
