//! Images: all that a volume says.

ghost use Rattle.std.specs.Prelude.{◌≡◌, ◌<◌, ◌∷◌, [], IfOk, IfErr, OnOk, All};
ghost use Rattle.cf_codec.specs.Left.{Takes};
ghost use Rattle.cf_model.specs.Formats.{Image, spell_image};
ghost use Rattle.cf_table.specs.Faults.{IsTold};
ghost use Rattle.cf_table.specs.Spelling.{HasRoom};
ghost use Rattle.cf_volume_image.specs.Contents.{image_of};
ghost use Rattle.cf_volume_image.specs.Drafts.{draft_image};
ghost use Rattle.cf_volume_image.specs.Faults.{AtFormat, AtImage};
ghost use Rattle.cf_volume_image.specs.Spelled.{IsImageIn, format_byte, spell_image_in};

use crate::contents::Contents;
use crate::drafts::Draft;
use crate::part_reads::{read_header, read_records};
use crate::part_writes::{put_header, put_records};
use cf_base::{Blob, OutOfMemory};
use cf_codec::{Format, Reader, Writer};
use cf_table::plain_fields::read_1;
use cf_table::{RowError, UnindexedRows};
use std::alloc::Global;

/// The number of the format that is written.
const FORMAT: u8 = 2;

/// Spells what the contents say. Of 4,294,967,296 rows or records and more only the last four bytes of the count are
/// spelled. The rows need names, identities and sets that have room in a spelling, as those that were read do.
pub fn spell_image(alloc: Global, contents: &Contents) -> Result<Blob, OutOfMemory>
    requires { All HasRoom contents.now.rows.rows }
    ensures { IfOk result (λ b. b ≡ spell_image (image_of contents.now)) }
{
    let mut out = Writer::new(alloc);
    out.put_u8(FORMAT)?;
    put_header(&mut out, contents)?;
    contents.rows.spell(&mut out)?;
    put_records(&mut out, &contents.records)?;
    Ok(out.into_blob())
}

fn number_of(format: Format) -> u8
    ensures { result ≡ format_byte format }
{
    match format {
        Format::First => 1,
        Format::Second => FORMAT,
    }
}

fn read_format(r: &mut Reader, format: Format) -> Result<(), RowError>
    ensures took { OnOk result (Takes (format_byte format ∷ []) r.old r.new) }
    ensures fault { IfErr result (AtFormat format r.old) }
{
    let place = r.place();
    let number = number_of(format);
    let byte = read_1(r)?;
    if byte == number {
        Ok(())
    } else {
        Err(RowError::BadField(place))
    }
}

fn image_in(alloc: Global, r: &mut Reader, format: Format) -> Result<Draft, RowError>
    ensures took { IfOk result (λ d. r.old.rest ≡ spell_image_in format (draft_image d)) }
    ensures fits { IfOk result (λ d. IsImageIn format (draft_image d)) }
    ensures room { IfOk result (λ d. All HasRoom d.rows) }
    ensures fault { IfErr result (AtImage format r.old) }
{
    read_format(r, format)?;
    let header = read_header(r, format)?;
    let rows = UnindexedRows::read_front(alloc, r, format)?;
    let records = match read_records(alloc, r) {
        Ok(records) => records,
        Err(error) => {
            drop(rows);
            return Err(error);
        }
    };
    match r.end() {
        Ok(()) => {
            Ok(Draft {
                last: header.last,
                count: header.count,
                clock: header.clock,
                next: header.next,
                rows,
                records,
            })
        }
        Err(error) => {
            drop(rows);
            drop(records);
            Err(RowError::from(error))
        }
    }
}

/// Reads an image as `read_image` does, of which no row has an index yet.
pub(crate) fn read_draft(alloc: Global, b: &[u8], format: Format) -> Result<Draft, RowError>
    ensures spelled { IfOk result (λ d. b.now ≡ spell_image_in format (draft_image d)) }
    ensures fits { IfOk result (λ d. IsImageIn format (draft_image d)) }
    ensures room { IfOk result (λ d. All HasRoom d.rows) }
    ensures fault { IfErr result (AtImage format (record { place = 0; rest = b.now })) }
{
    let mut r = Reader::new(b);
    image_in(alloc, &mut r, format)
}

/// Reads an image of the format, in format 2 what `spell_image` writes. Short or BadField exactly where the bytes spell no
/// image, at the first field that lacks bytes or has a value that is not spelled, where ids or keys do not rise, or at the
/// first byte that is left over. An image that is read need not be that of a volume; `read_contents` tests that. OutOfMemory
/// where there is none.
pub fn read_image(alloc: Global, b: &[u8], format: Format) -> Result<Contents, RowError>
    ensures spelled { IfOk result (λ c. b.now ≡ spell_image_in format (image_of c)) }
    ensures fits { IfOk result (λ c. IsImageIn format (image_of c)) }
    ensures room { IfOk result (λ c. All HasRoom c.rows.rows) }
    ensures fault { IfErr result (AtImage format (record { place = 0; rest = b.now })) }
    ensures none { IfErr result (λ e. IsTold e → (i : Image) → IsImageIn format i → b.now ≡ spell_image_in format i → ⊥) }
{
    let draft = read_draft(alloc, b, format)?;
    Ok(draft.into_contents()?)
}
