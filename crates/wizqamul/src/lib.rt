// The C library: the calls that the host program links, over byte slices and numbers. A slice is a pointer and a length, `used` one pointer.
// The C interface is these pointers and lengths, so what travels together stays apart here: lines, slips and used, a table with its count, the five fields of a key.
#![tactic(auto)]

ghost use Rattle.std.specs.Prelude.{◌≡◌, [], ◌∷◌};
ghost use Rattle.record.specs.Read.{outcome as read, check};
ghost use Rattle.writing.specs.Write.{outcome as written, write};
ghost use Rattle.parts.specs.Read.{outcome as told, read_parts};
ghost use Rattle.parts.specs.Write.{write_parts};
ghost use Rattle.book.specs.Lent.{lent};
ghost use Rattle.book.specs.Booking.{outcome as booked, book};
ghost use Rattle.book.specs.Asked.{line_asked};
ghost use Rattle.save.specs.Saved.{written as saved, save};
ghost use Rattle.save.specs.Load.{outcome as loaded, load};
ghost use Rattle.save.specs.Moves.{to_new, to_old};
ghost use Rattle.roster.specs.Schools.{account_told};

use book::answer::{Booked, Told};
use parts::answer::PartsRead;
use record::answer::Checked;
use roster::schools::{Account, AccountTold, School, said};
use save::answer::{Loaded, Saved};
use writing::answer::Written;

// Reads a record: its answer and place, and its optional fields in the table, three numbers each.
#[unsafe(no_mangle)]
pub extern "C" fn wq_check(record: &[u8], table: &mut [usize]) -> Checked
    ensures { read result table.new ≡ check «record».now table.old }
{
    reader::check(record, table)
}

// Writes a record from its fixed part, a table of optional fields and the bytes that hold their contents.
#[unsafe(no_mangle)]
pub extern "C" fn wq_write(
    fixed: &[u8],
    table: &[usize],
    fields: usize,
    contents: &[u8],
    out: &mut [u8],
) -> Written
    ensures { written result out.new ≡ write fixed.now table.now fields contents.now out.old }
{
    writer::write(fixed, table, fields, contents, out)
}

// Reads the parts of a bundle into a room, 68 bytes each.
#[unsafe(no_mangle)]
pub extern "C" fn wq_parts(record: &[u8], parts: &mut [u8]) -> PartsRead
    ensures { told result parts.new ≡ read_parts «record».now parts.old }
{
    unpacking::read_parts(record, parts)
}

// Writes a record with parts behind the fields of its table.
#[unsafe(no_mangle)]
pub extern "C" fn wq_write_parts<'a>(
    fixed: &'a [u8],
    table: &[usize],
    fields: usize,
    contents: &'a [u8],
    parts: &'a [u8],
    count: usize,
    out: &mut [u8],
) -> Written
    ensures { written result out.new ≡ write_parts fixed.now table.now fields contents.now parts.now count out.old }
{
    packing::write_parts(fixed, table, fields, contents, parts, count, out)
}

// Books a record, for a school of the roster, into the lent book.
#[unsafe(no_mangle)]
pub extern "C" fn wq_book(
    record: &[u8],
    roster: &[u8],
    lines: &mut [u8],
    slips: &mut [u8],
    used: &mut [usize; 2],
) -> Booked
    ensures { booked result (lent lines.new slips.new used.new) ≡ book «record».now roster.now (lent lines.old slips.old used.old) }
{
    booking::book(record, roster, lines, slips, used)
}

// The figures of the line with a key.
#[unsafe(no_mangle)]
pub extern "C" fn wq_line<'a>(
    school: &'a [u8],
    school_qualifier: &'a [u8],
    supplier: &'a [u8],
    supplier_qualifier: &'a [u8],
    reference: &'a [u8],
    lines: &[u8],
    slips: &[u8],
    used: &[usize; 2],
) -> Told
    ensures { result ≡ line_asked (school.now ∷ school_qualifier.now ∷ supplier.now ∷ supplier_qualifier.now ∷ reference.now ∷ []) (lent lines.now slips.now used.now) }
{
    asking::line(
        school,
        school_qualifier,
        supplier,
        supplier_qualifier,
        reference,
        lines,
        slips,
        used,
    )
}

// What the roster says of an account.
#[unsafe(no_mangle)]
#[tactic(auto, using(roster::proofs::Told::told_is))]
pub extern "C" fn wq_account(schools: &[School], address: &[u8], qualifier: &[u8]) -> AccountTold
    ensures { result ≡ account_told schools.now address.now qualifier.now }
{
    AccountTold::from(said(schools, Account { address, qualifier }))
}

// Saves the lent book at the front of the output, in the new form.
#[unsafe(no_mangle)]
pub extern "C" fn wq_save(lines: &[u8], slips: &[u8], used: &[usize; 2], out: &mut [u8]) -> Saved
    ensures { saved result out.new ≡ save (lent lines.now slips.now used.now) out.old }
{
    saving::save(lines, slips, used, out)
}

// Loads a save of either form into a lent book of any contents.
#[unsafe(no_mangle)]
pub extern "C" fn wq_load(
    save: &[u8],
    lines: &mut [u8],
    slips: &mut [u8],
    used: &mut [usize; 2],
) -> Loaded
    ensures { loaded result (lent lines.new slips.new used.new) ≡ load save.now (lent lines.old slips.old used.old) }
{
    saving::load(save, lines, slips, used)
}

// Moves a save of the old form to the new one, at the front of the output.
#[unsafe(no_mangle)]
pub extern "C" fn wq_to_new(save: &[u8], out: &mut [u8]) -> Saved
    ensures { saved result out.new ≡ to_new save.now out.old }
{
    moving::to_new(save, out)
}

// Moves a save of the new form back to the old one, at the front of the output.
#[unsafe(no_mangle)]
pub extern "C" fn wq_to_old(save: &[u8], out: &mut [u8]) -> Saved
    ensures { saved result out.new ≡ to_old save.now out.old }
{
    moving::to_old(save, out)
}
