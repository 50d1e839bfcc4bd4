// Reads the records on standard input, one to a CR LF, prints of each the answer, the typed values and the optional fields, and writes it back.
#![tactic(auto)]

ghost use Rattle.std.specs.Prelude.{◌≤◌, ◌<◌, length};

use cells::part;
use fixed::FixedPart;
use reader::{Typed, check, read_typed};
use record::fields::ENTRY_WIDTH;
use record::layout::{KIND_WIDTH, Kind, MOST_BYTES, fixed_width, kind_of};
use record::values::{Delivery, Order, Report};
use shown::show_values;
use shown_parts::{Listed, show_parts, show_written};
use std::io;
use std::io::{Read, Write};
use unpacking::FULL_TABLE;
use writer::{write, write_typed};
use writing::answer::Written;

// Of a longer input no more is read.
const MOST_INPUT: usize = 65536;

// The optional fields; their contents may be no text, so they are written as they are.
fn show_fields<W: Write>(out: &mut W, listed: Listed) -> io::Result<()> {
    let Listed {
        record,
        table,
        fields,
    } = listed;
    for entry in table.chunks_exact(ENTRY_WIDTH).take(fields) {
        if let &[id, place, width] = entry {
            write!(out, "  *{id} [")?;
            out.write_all(part(record, place, place.saturating_add(width)))?;
            out.write_all(b"]\n")?;
        }
    }
    Ok(())
}

// A record written from its typed values, as they are read.
fn write_values<const N: usize, T: Typed + FixedPart<N>>(
    listed: Listed,
    copy: &mut [u8; MOST_BYTES],
) -> Written {
    let Listed {
        record,
        table,
        fields,
    } = listed;
    write_typed(read_typed::<T>(record).value, table, fields, record, copy)
}

// The record written from its fixed part's bytes, and from its typed values, with the table that the check filled.
fn write_back<W: Write>(out: &mut W, listed: Listed) -> io::Result<()> {
    let Listed {
        record,
        table,
        fields,
    } = listed;
    let Some(kind) = kind_of(record) else {
        return writeln!(out, "  unknown kind");
    };
    let mut copy = [0; MOST_BYTES];
    let fixed = part(record, 0, fixed_width(kind));
    let written = write(fixed, table, fields, record, &mut copy);
    show_written(out, "bytes", written, &copy, record)?;
    let (what, written) = match kind {
        Kind::Order => ("order", write_values::<_, Order>(listed, &mut copy)),
        Kind::Goods => ("delivery", write_values::<_, Delivery>(listed, &mut copy)),
        Kind::Closing => (
            "closing record",
            write_values::<_, Delivery>(listed, &mut copy),
        ),
        Kind::Report => ("report", write_values::<_, Report>(listed, &mut copy)),
    };
    show_written(out, what, written, &copy, record)
}

// A record by its answer, values and optional fields.
fn show<W: Write>(out: &mut W, record: &[u8]) -> io::Result<()> {
    let mut table = [0; FULL_TABLE];
    let checked = check(record, &mut table);
    let listed = Listed {
        record,
        table: &table,
        fields: checked.fields,
    };
    out.write_all(part(record, 0, KIND_WIDTH))?;
    writeln!(
        out,
        " answer {} place {} fields {}",
        checked.answer, checked.place, checked.fields
    )?;
    show_values(out, record)?;
    show_fields(out, listed)?;
    write_back(out, listed)?;
    show_parts(out, listed)
}

// The first line, without the CR LF that ends it, and what stands behind that.
fn first_line(s: &[u8]) -> (&[u8], &[u8])
    ensures { 0 < length s.now → length result.1.now < length s.now }
{
    match s.windows(2).position(|pair| matches!(pair, b"\r\n")) {
        Some(end) => (&s[..end], &s[end + 2..]),
        None => (s, b""),
    }
}

// Each line in turn. A loop over what is left: no iterator of std splits at two bytes, and `split` at one would end lines elsewhere.
fn show_all<W: Write>(out: &mut W, s: &[u8]) -> io::Result<()> {
    let mut rest = s;
    while !rest.is_empty() {
        let (line, behind) = first_line(rest);
        show(out, line)?;
        rest = behind;
    }
    Ok(())
}

// Reads until the room is full or the input ends: how many bytes came, and how the last read went.
// std reads to the end into a vector, which may fail for lack of memory; this program takes none.
fn read_full<R: Read>(input: &mut R, room: &mut [u8]) -> (usize, io::Result<()>)
    ensures { result.0 ≤ length room.new }
{
    let mut n = 0;
    for _ in 0..u64::MAX {
        if n == room.len() {
            break;
        }
        match input.read(&mut room[n..]) {
            Ok(0) => break,
            Ok(came) => n += came,
            Err(e) => return (n, Err(e)),
        }
    }
    (n, Ok(()))
}

// What came before a failed read is shown all the same.
fn main(rt: HostRuntime) -> io::Result<()> {
    let mut room = [0; MOST_INPUT];
    let (n, read) = read_full(&mut rt.stdin(), &mut room);
    show_all(&mut rt.stdout(), part(&room, 0, n))?;
    read
}
