// The listed contents and the groups of optional fields.
ghost use Rattle.std.specs.Prelude.{◌≡◌, ◌&&◌, []};
ghost use Rattle.signs.specs.Class.{barred};
ghost use Rattle.rules.specs.Rule.{keeps};
ghost use Rattle.record.specs.Contents.{content_rule, guarded, next_member, previous_member, is_wanted, group_kept};

use crate::layout::Kind;
use rules::rule::{Rule, Texts, is_day, is_day_count, is_one_of};
use signs::{Class, belongs_to, of_class};

// The rule of an ID's content; an ID not listed is kept with any content.
#[tactic(auto, unfolding(crate::specs::Contents::content_rule, crate::specs::Contents::contents, crate::specs::Contents::rule_in, crate::specs::Contents::is_in))]
pub fn content_rule(id: usize) -> Rule
    ensures { result ≡ content_rule id }
{
    match id {
        1001 | 1003 | 1101 => Rule::Of(Class::Any, 1, 35),
        1005 | 1007 | 1013 | 1018 | 1030 | 1102 | 1108 | 1114 | 1116 | 1202 | 1204 => {
            Rule::Of(Class::Capital, 2, 2)
        }
        1009 => Rule::Of(Class::Any, 3, 3),
        1017 => Rule::Of(Class::Any, 1, 39),
        9010 => Rule::Of(Class::Any, 1, 40),
        1019 => Rule::OneOf(Texts::PartTax),
        1021 | 1045 => Rule::OneOf(Texts::HoldMark),
        1025 => Rule::Of(Class::Digit, 5, 8),
        1029 => Rule::Of(Class::Digit, 5, 15),
        1032 => Rule::Of(Class::Capital, 3, 3),
        1047 => Rule::OneOf(Texts::YesOnly),
        9003 => Rule::OneOf(Texts::YesOrU),
        1051 | 1113 => Rule::Of(Class::Any, 1, 5),
        1107 | 9007 => Rule::Of(Class::Digit, 1, 4),
        1115 => Rule::Of(Class::Any, 1, 10),
        1129 => Rule::Of(Class::Digit, 1, 6),
        1131 => Rule::Of(Class::Any, 1, 3),
        1151 => Rule::OneOf(Texts::Medium),
        1201 => Rule::Date,
        1203 => Rule::DayCount,
        9001 => Rule::Of(Class::Any, 1, 1),
        9011 => Rule::Of(Class::Digit, 1, 14),
        9012 => Rule::Of(Class::Digit, 13, 13),
        9016 => Rule::Of(Class::Digit, 1, 4),
        _ => Rule::Free,
    }
}

// Whether a content keeps the rule of its ID; no content has one of the other rules. A match of its own: a second caller of `keeps_rule` makes checking and writing a tenth slower (docs/PERFORMANCE.md).
#[tactic(auto, unfolding(rules::specs::Rule::keeps))]
pub fn rule_kept(id: usize, content: &[u8]) -> bool
    ensures { result ≡ keeps (content_rule id) [] content.now }
{
    match content_rule(id) {
        Rule::Of(c, least, most) => of_class(c, least, most, content),
        Rule::OneOf(t) => is_one_of(t, content),
        Rule::DayCount => is_day_count(content),
        Rule::Date => is_day(content),
        _ => true,
    }
}

// Whether the bytes * + : ? ' may not stand in a field.
#[tactic(auto, unfolding(crate::specs::Contents::guarded, crate::specs::Contents::guarded_ids, crate::specs::Contents::is_in))]
pub fn is_guarded(k: Kind, id: usize) -> bool
    ensures { result ≡ guarded k id }
{
    matches!((k, id), (Kind::Order, 1001 | 1003 | 1051 | 9010))
}

// Whether a byte is one that a guarded field may not hold.
#[tactic(auto, using(crate::proofs::Barred::not_unbarred))]
pub fn is_barred(guard: bool, b: u8) -> bool
    ensures { result ≡ (guard && barred b) }
{
    guard & !belongs_to(Class::Unbarred, b)
}

// The member of its group that has to follow an ID, where one has to.
#[tactic(auto, unfolding(crate::specs::Contents::next_member, crate::specs::Contents::next_in, crate::specs::Contents::first_of, crate::specs::Contents::group_with, crate::specs::Contents::groups, crate::specs::Contents::is_in))]
pub fn next_member(id: usize) -> Option<usize>
    ensures { result ≡ next_member id }
{
    match id {
        1017 => Some(1018),
        1029 => Some(1030),
        1030 => Some(1032),
        1101 => Some(1102),
        1107 => Some(1108),
        1113 => Some(1114),
        1115 => Some(1116),
        1201 => Some(1202),
        1203 => Some(1204),
        _ => None,
    }
}

// The member of its group that has to stand before an ID, where one has to.
#[tactic(auto, unfolding(crate::specs::Contents::previous_member, crate::specs::Contents::previous_in, crate::specs::Contents::group_with, crate::specs::Contents::groups, crate::specs::Contents::is_in))]
pub fn previous_member(id: usize) -> Option<usize>
    ensures { result ≡ previous_member id }
{
    match id {
        1018 => Some(1017),
        1030 => Some(1029),
        1032 => Some(1030),
        1102 => Some(1101),
        1108 => Some(1107),
        1114 => Some(1113),
        1116 => Some(1115),
        1202 => Some(1201),
        1204 => Some(1203),
        _ => None,
    }
}

// Whether a neighbour is the member wanted, where one is.
#[tactic(auto, unfolding(crate::specs::Contents::is_wanted))]
fn is_wanted(member: Option<usize>, neighbour: Option<usize>) -> bool
    ensures { result ≡ is_wanted member neighbour }
{
    member.is_none() | (neighbour == member)
}

// Whether a field stands unbroken in its group, between the field before it, where there is one, and the field after it.
#[tactic(auto, unfolding(crate::specs::Contents::group_kept))]
pub fn group_kept(before: Option<usize>, id: usize, after: usize) -> bool
    ensures { result ≡ group_kept before id after }
{
    is_wanted(next_member(id), Some(after)) & is_wanted(previous_member(id), before)
}
