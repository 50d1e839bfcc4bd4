// The typed values of a record, printed.
#![tactic(auto)]

use reader::{read_delivery, read_order, read_report};
use record::layout::{Kind, kind_of};
use record::values::{Article, Delivery, Order, Party, Report};
use rules::expected::Expected;
use std::io;
use std::io::Write;

// A field's bytes may be no text, so they are written as they are.
fn named<W: Write>(out: &mut W, name: &str, field: &[u8]) -> io::Result<()> {
    write!(out, "  {name} [")?;
    out.write_all(field)?;
    out.write_all(b"]\n")
}

fn party<W: Write>(out: &mut W, name: &str, p: &Party) -> io::Result<()> {
    named(out, name, &p.address)?;
    named(out, "qualifier", &p.qualifier)
}

fn article<W: Write>(out: &mut W, a: &Article) -> io::Result<()> {
    named(out, "article", &a.number)?;
    named(out, "qualifier", &a.qualifier)
}

fn show_order<W: Write>(out: &mut W, o: &Order) -> io::Result<()> {
    party(out, "sender", &o.sender)?;
    party(out, "recipient", &o.recipient)?;
    writeln!(out, "  date {}", o.date)?;
    named(out, "reference", &o.reference)?;
    article(out, &o.article)?;
    writeln!(out, "  copies {}", o.quantity.0)?;
    named(out, "measure", &o.measure)
}

fn show_delivery<W: Write>(out: &mut W, d: &Delivery) -> io::Result<()> {
    party(out, "sender", &d.sender)?;
    party(out, "recipient", &d.recipient)?;
    writeln!(out, "  date {}", d.date)?;
    named(out, "slip", &d.slip)?;
    named(out, "position", &d.position)?;
    named(out, "reference", &d.reference)?;
    article(out, &d.article)?;
    writeln!(out, "  copies {}", d.quantity.0)?;
    writeln!(out, "  price {}", d.price.0)?;
    named(out, "pricing", &d.pricing)?;
    named(out, "currency", &d.currency)?;
    writeln!(out, "  discount {}", d.discount.0)?;
    named(out, "tax", &[d.tax])
}

fn show_report<W: Write>(out: &mut W, r: &Report) -> io::Result<()> {
    party(out, "sender", &r.sender)?;
    party(out, "recipient", &r.recipient)?;
    named(out, "slip", &r.slip)?;
    named(out, "reference", &r.reference)?;
    article(out, &r.article)?;
    writeln!(out, "  message {}", r.message)?;
    named(out, "hold", &[r.hold])?;
    match r.expected {
        Expected::On(day) => writeln!(out, "  expected {day}"),
        Expected::Zeros => writeln!(out, "  expected zeros"),
        Expected::Blanks => writeln!(out, "  expected blanks"),
    }
}

pub fn show_values<W: Write>(out: &mut W, s: &[u8]) -> io::Result<()> {
    match kind_of(s) {
        Some(Kind::Order) => show_order(out, &read_order(s).value),
        Some(Kind::Goods | Kind::Closing) => show_delivery(out, &read_delivery(s).value),
        Some(Kind::Report) => show_report(out, &read_report(s).value),
        None => writeln!(out, "  unknown kind"),
    }
}
