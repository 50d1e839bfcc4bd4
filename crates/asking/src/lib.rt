// The call by key: the figures of a line. The fields are of their lengths, and make the key of a line.
#![tactic(auto)]

ghost use Rattle.std.specs.Prelude.{◌≡◌, true, false, [], ◌∷◌, MatchOption};
ghost use Rattle.entry.specs.Keyed.{fields_of};
ghost use Rattle.book.specs.Lent.{lent};
ghost use Rattle.book.specs.Asked.{key_widths, are_wide, line_asked};

use book::answer::{Refused, Told};
use entry::key::{ADDRESS_WIDTH, QUALIFIER_WIDTH, REFERENCE_WIDTH};
use entry::line_key::LineKey;
use finding::lent::LentBook;
use finding::sound::SoundBook;

// The key of five fields, each of its length, or nothing.
#[tactic(auto, unfolding(book::specs::Asked::are_wide))]
fn key_of<'a>(
    school: &'a [u8],
    school_qualifier: &'a [u8],
    supplier: &'a [u8],
    supplier_qualifier: &'a [u8],
    reference: &'a [u8],
) -> Option<LineKey<'a>>
    ensures { let fields = school.now ∷ school_qualifier.now ∷ supplier.now ∷ supplier_qualifier.now ∷ reference.now ∷ [] in MatchOption result (are_wide key_widths fields ≡ false) (λ k. (are_wide key_widths fields ≡ true) × (fields_of k ≡ fields)) }
{
    let wide = (school.len() == ADDRESS_WIDTH)
        & ((school_qualifier.len() == QUALIFIER_WIDTH)
            & ((supplier.len() == ADDRESS_WIDTH)
                & ((supplier_qualifier.len() == QUALIFIER_WIDTH)
                    & (reference.len() == REFERENCE_WIDTH))));
    if !wide {
        return None;
    }
    Some(LineKey {
        school,
        school_qualifier,
        supplier,
        supplier_qualifier,
        reference,
    })
}

// The figures of the first line with a key: 20, then 16. A field of another length matches no line.
// The fields of the key and the rooms stay apart here, as C lends them.
#[tactic(auto, unfolding(book::specs::Asked::line_asked, book::specs::Asked::figures_of_key, book::specs::Asked::figures_at))]
pub fn line<'a>(
    school: &'a [u8],
    school_qualifier: &'a [u8],
    supplier: &'a [u8],
    supplier_qualifier: &'a [u8],
    reference: &'a [u8],
    lines: &[u8],
    slips: &[u8],
    used: &[usize; 2],
) -> Told
    ensures { result ≡ line_asked (school.now ∷ school_qualifier.now ∷ supplier.now ∷ supplier_qualifier.now ∷ reference.now ∷ []) (lent lines.now slips.now used.now) }
{
    let Some(book) = SoundBook::of(LentBook { lines, slips, used }) else {
        return Told::from(Refused::Unsound);
    };
    let Some(key) = key_of(
        school,
        school_qualifier,
        supplier,
        supplier_qualifier,
        reference,
    ) else {
        return Told::from(Refused::NoLine);
    };
    match book.line_with(key) {
        None => Told::from(Refused::NoLine),
        Some(i) => Told::from(book.line(i)),
    }
}
