//! The records of a journal, read from the disk one after the other.

ghost use Rattle.std.specs.Prelude.{◌≡◌, ◌≤◌, ◌<◌, ◌+◌, ◌∷◌, length, true, false, IfErr, IfOk, get_or};
ghost use Rattle.std.specs.Int.{w32, to_be_bytes};
ghost use Rattle.cf_disk.specs.Disk.{part, size_of};
ghost use Rattle.cf_journal.specs.Format.{Overruns, Spells, size_of_records};
ghost use Rattle.cf_journal.specs.Records.{IsRecord};
ghost use Rattle.cf_journal.specs.Settled.{IsOpenCause};
ghost use Rattle.cf_journal.specs.Steps.{ReadsOnly};

use crate::failures::JournalError;
use crate::reads::load;
use cf_base::Blob;
use cf_disk::Disk;
use std::alloc::Global;

/// How many bytes of a record stand before its payload: its gate and its length.
const HEAD: usize = 5;

// What stands at a gate: nothing more, a record that does not fit, or the payload of a record.
pub(crate) enum Record {
    End,
    Overrun,
    Payload(Vec<u8>),
}

// The length that the head of a record tells.
fn len_in(head: &[u8; 5]) -> u32
    requires { length head.now ≡ 5 }
    ensures { head.now ≡ get_or head.now 0 0 ∷ to_be_bytes w32 result }
{
    u32::from_be_bytes([head[1], head[2], head[3], head[4]])
}

// What stands at the gate in one of the last bytes of a journal, where no record fits.
fn last_record<D: Disk>(disk: &mut D, at: u64, left: usize) -> Result<Record, JournalError>
    requires some { 0 < left }
    requires few { left ≤ 5 }
    requires room { at + left ≤ 3145728 }
    requires size { 3145728 ≤ size_of (D.state disk.old) }
    ensures found { IfOk result (λ r. IsRecord r at left (D.state disk.old).seen) }
    ensures reads { ReadsOnly (D.state disk.old) (D.state disk.new) }
    ensures cause { IfErr result (λ e. IsOpenCause e (D.state disk.old) (D.state disk.new)) }
{
    let mut gate = [0u8; 1];
    disk.read(at, &mut gate)?;
    if gate[0] == 0 {
        Ok(Record::End)
    } else {
        Ok(Record::Overrun)
    }
}

// What stands at a gate, from which so many bytes of the journal are left. A record needs room for a gate behind it too.
fn next_record<D: Disk>(
    alloc: Global,
    disk: &mut D,
    at: u64,
    left: usize,
) -> Result<Record, JournalError>
    requires some { 0 < left }
    requires room { at + left ≤ 3145728 }
    requires size { 3145728 ≤ size_of (D.state disk.old) }
    ensures found { IfOk result (λ r. IsRecord r at left (D.state disk.old).seen) }
    ensures reads { ReadsOnly (D.state disk.old) (D.state disk.new) }
    ensures cause { IfErr result (λ e. IsOpenCause e (D.state disk.old) (D.state disk.new)) }
{
    if left <= HEAD {
        return last_record(disk, at, left);
    }
    let mut head = [0u8; HEAD];
    disk.read(at, &mut head)?;
    if head[0] == 0 {
        return Ok(Record::End);
    }
    let len = len_in(&head) as usize;
    if len >= left - HEAD {
        return Ok(Record::Overrun);
    }
    let payload = load(alloc, disk, at + HEAD as u64, len)?;
    Ok(Record::Payload(payload))
}

/// The records at the front of a journal.
#[derive(Drop)]
pub(crate) struct Front {
    pub(crate) payloads: Vec<Blob>,
    /// How many bytes they take.
    pub(crate) end: u64,
    /// Whether one that does not fit stands behind them, and not a closed gate.
    pub(crate) overruns: bool,
}

// The records of the journal at a place, up to a closed gate or to one that does not fit. No byte behind them is read but the next gate
// with the length that may stand there.
pub(crate) fn records<D: Disk>(
    alloc: Global,
    disk: &mut D,
    at: u64,
    len: usize,
) -> Result<Front, JournalError>
    requires some { 0 < len }
    requires room { at + len ≤ 3145728 }
    requires size { 3145728 ≤ size_of (D.state disk.old) }
    ensures whole { IfOk result (λ r. r.overruns ≡ false → Spells r.payloads.items (part at len (D.state disk.old).seen)) }
    ensures torn { IfOk result (λ r. r.overruns ≡ true → Overruns r.payloads.items (part at len (D.state disk.old).seen)) }
    ensures end { IfOk result (λ r. r.end ≡ size_of_records r.payloads.items) }
    ensures low { IfOk result (λ r. r.end < len) }
    ensures reads { ReadsOnly (D.state disk.old) (D.state disk.new) }
    ensures cause { IfErr result (λ e. IsOpenCause e (D.state disk.old) (D.state disk.new)) }
{
    let mut payloads = Vec::new(alloc);
    let mut end: usize = 0;
    'records: loop {
        match next_record(alloc, disk, at + end as u64, len - end)? {
            Record::End => {
                return Ok(Front {
                    payloads,
                    end: end as u64,
                    overruns: false,
                });
            }
            Record::Overrun => {
                return Ok(Front {
                    payloads,
                    end: end as u64,
                    overruns: true,
                });
            }
            Record::Payload(payload) => {
                end += HEAD + payload.len();
                payloads.push(Blob::from_vec(payload))?;
            }
        }
    }
}
