// The parts of a bundle, printed with their values, and the record written back from them.
#![tactic(auto)]

ghost use Rattle.std.specs.Prelude.{◌≡◌, OnOk};
ghost use Rattle.std.specs.Io.KnownBytes.{Appends};
ghost use Rattle.shown_parts.specs.Shown.{how_written, written_line};

use cells::{part, same};
use lent_parts::entries::LentParts;
use packing::write_parts;
use parts::entry::PART_WIDTH;
use parts::loops::{LOOP_FIELDS, MOST_PARTS};
use parts::part::{Medium, Part, PartArticle, PartPrice};
use record::layout::{DELIVERY_WIDTH, MOST_BYTES};
use std::io;
use std::io::Write;
use unpacking::{FULL_TABLE, read_parts};
use writing::answer::Written;

// Room for the parts of every record.
const FULL_ROOM: usize = MOST_PARTS * PART_WIDTH;

// A record and the table that a check filled with its optional fields: how many, and three numbers each.
#[derive(Clone, Copy, PartialEq, Eq, Debug)]
pub struct Listed<'a> {
    pub record: &'a [u8],
    pub table: &'a [usize; FULL_TABLE],
    pub fields: usize,
}

fn show_price<W: Write>(out: &mut W, name: &str, p: &PartPrice) -> io::Result<()> {
    write!(out, "    {name} {} in {} digits [", p.amount.0, p.digits)?;
    out.write_all(&p.qualifier)?;
    out.write_all(b"] [")?;
    out.write_all(&p.currency)?;
    out.write_all(b"]\n")
}

fn show_article<W: Write>(out: &mut W, a: &PartArticle) -> io::Result<()> {
    out.write_all(b"    article [")?;
    out.write_all(part(&a.bytes, 0, a.length as usize))?;
    out.write_all(b"] [")?;
    out.write_all(&a.qualifier)?;
    out.write_all(b"]\n")
}

fn show_part<W: Write>(out: &mut W, p: &Part) -> io::Result<()> {
    let medium = match p.medium {
        Medium::Physical => "physical",
        Medium::Digital => "digital",
    };
    write!(out, "  {medium} part, tax [")?;
    out.write_all(&[p.tax])?;
    out.write_all(b"]\n")?;
    show_price(out, "net", &p.net)?;
    show_price(out, "list", &p.list)?;
    show_article(out, &p.article)
}

// How a record was written into `copy`: refused, as the record's bytes again, or as others.
#[tactic(auto, unfolding(crate::specs::Shown::how_written))]
fn how_written(written: Written, copy: &[u8; MOST_BYTES], record: &[u8]) -> &'static str
    ensures { result.now ≡ how_written written copy.now «record».now }
{
    if written.answer != 0 {
        "refused"
    } else if same(part(copy, 0, written.length), record) {
        "written back"
    } else {
        "written otherwise"
    }
}

// A line that tells what was written and whether it is the record again.
#[tactic(auto, unfolding(crate::specs::Shown::written_line))]
pub fn show_written<W: Write>(
    out: &mut W,
    what: &str,
    written: Written,
    copy: &[u8; MOST_BYTES],
    record: &[u8],
) -> io::Result<()>
    ensures { OnOk result (Appends (W.contents out.old) (W.contents out.new)
        (written_line what.now (how_written written copy.now «record».now))) }
{
    writeln!(out, "  {what} {}", how_written(written, copy, record))
}

// The record written back from the fields before its parts, and from these.
fn write_back<W: Write>(out: &mut W, listed: Listed, parts: LentParts) -> io::Result<()> {
    let Listed {
        record,
        table,
        fields,
    } = listed;
    let LentParts { room, count } = parts;
    let Some(others) = fields.checked_sub(count * LOOP_FIELDS) else {
        return Ok(());
    };
    let mut copy = [0; MOST_BYTES];
    let fixed = part(record, 0, DELIVERY_WIDTH);
    let written = write_parts(fixed, table, others, record, room, count, &mut copy);
    show_written(out, "parts", written, &copy, record)
}

// The parts of a record; nothing of one that has none.
pub fn show_parts<W: Write>(out: &mut W, listed: Listed) -> io::Result<()> {
    let record = listed.record;
    let mut room = [0; FULL_ROOM];
    let count = read_parts(record, &mut room).parts.min(MOST_PARTS);
    if count == 0 {
        return Ok(());
    }
    let parts = LentParts { room: &room, count };
    for i in 0..count {
        show_part(out, &parts.nth(i).part())?;
    }
    write_back(out, listed, parts)
}
