ghost use Rattle.std.specs.Prelude.{◌≡◌, length};
ghost use Rattle.common.specs.Limits.{line_count, largest_figure};
ghost use Rattle.sections.specs.Rule.{Lawful, Within};

use crate::section::Section;

// What every section keeps: a sheet has 32 lines, each figure is in its range, and its rule refuses a bad line before it asks
// anything else.
pub fn section_laws<S: Section>()
    ensures lines { (s : S) → length (S.Section.figures s) ≡ line_count }
    ensures bounded { (s : S) → Within largest_figure (S.Section.figures s) }
    ensures lawful { Lawful S.Section.rule }
{}
