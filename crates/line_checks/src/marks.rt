// Check 12: the mark of the variable that a line names suits its kind.
ghost use Rattle.std.specs.Prelude.{◌≡◌, ◌+◌, ◌*◌, ◌<◌, length};
ghost use Rattle.kinds.specs.Kinds.{machine_of};
ghost use Rattle.kinds.specs.Code.{table_in, InSorts};
ghost use Rattle.line_checks.specs.Rules.{breaks12};
ghost use Rattle.line_checks.specs.Code.{line_suits};

use kinds::{Lines, POINTER, UINT, is_marked, suits_mark};

fn line_suits(words: &[u32], reduced: bool, line: usize) -> bool
    requires { 4 * line + 3 < length words.now }
    ensures { result ≡ line_suits words.now reduced line }
{
    let w = 4 * line;
    let a = words[w + 1];
    let u = is_marked(words, UINT, a);
    let p = is_marked(words, POINTER, a);
    suits_mark(words[w], reduced, u, p)
}

// 12
pub fn breaks_12(lines: Lines, reduced: bool, line: usize) -> bool
    requires in_sorts { InSorts (table_in lines) }
    requires line_in_bounds { 4 * line + 3 < length lines.words.now }
    ensures { result ≡ breaks12 (machine_of reduced) (table_in lines.entry) line }
{
    if line < lines.counts.decls {
        return false;
    }
    !line_suits(lines.words, reduced, line)
}
