// Lines of a save that keep the rules.
ghost use Rattle.std.specs.Prelude.{◌≡◌, true};
ghost use Rattle.save.specs.Entries.{lines_kept};
ghost use Rattle.save.specs.Saved.{line_in};

use save::lines::Lines;

// Lines that keep the rules, each with a key of its own.
#[derive(Clone, Copy, PartialEq, Eq, Debug)]
pub struct KeptLines<'a> {
    pub lines: Lines<'a>,
    pub ghost kept: { lines_kept lines.count (line_in lines.form lines.bytes.now) ≡ true },
}
