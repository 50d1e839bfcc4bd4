// A part into the entry that is lent for it.
ghost use Rattle.std.specs.Prelude.{◌≡◌, ◌+◌, ◌≤◌, length};
ghost use Rattle.std.proofs.lemmas.List.Edits.{sets};
ghost use Rattle.parts.specs.Part.{price_bytes, price_width, part_bytes, part_width};

use cells::little::put;
use cells::paste_at;
use parts::entry::{
    ARTICLE, ARTICLE_QUALIFIER, CURRENCY, DIGITS, LENGTH, LIST, MEDIUM, NET, PRICE_QUALIFIER,
};
use parts::part::{Part, PartPrice};
use writing::digits::put_byte;

// A price into its fourteen bytes.
fn put_price(out: &mut [u8], at: usize, p: PartPrice)
    requires { at + price_width ≤ length out.old }
    ensures { out.new ≡ sets out.old at (price_bytes p) }
{
    put::<8>(out, at, p.amount.0);
    put_byte(out, at + DIGITS, p.digits);
    paste_at(out, at + PRICE_QUALIFIER, &p.qualifier);
    paste_at(out, at + CURRENCY, &p.currency);
}

// A part into its entry.
pub fn put_part(out: &mut [u8], at: usize, p: Part)
    requires { at + part_width ≤ length out.old }
    ensures { out.new ≡ sets out.old at (part_bytes p) }
{
    put_byte(out, at, p.tax);
    put_byte(out, at + MEDIUM, p.medium.into());
    put_price(out, at + NET, p.net);
    put_price(out, at + LIST, p.list);
    put_byte(out, at + LENGTH, p.article.length);
    paste_at(out, at + ARTICLE, &p.article.bytes);
    paste_at(out, at + ARTICLE_QUALIFIER, &p.article.qualifier);
}
