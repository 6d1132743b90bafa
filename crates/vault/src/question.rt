ghost use Rattle.std.specs.Prelude.{◌≤◌, ◌*◌, []};
ghost use Rattle.column_defs.specs.Objects.{stripes};
ghost use Rattle.file_layout.specs.Files.{shaped_object};

use file_layout::FileShape;

/// What an ask is for: a file with rows, the number of the audit, the round, and how many rows it picks.
#[derive(Clone, Copy)]
pub struct Question {
    pub file: FileShape,
    pub number: u64,
    pub round: u32,
    pub picks: u32,
    ghost rows: { 1 ≤ stripes (shaped_object [] file) file.length * file.profile.size },
    ghost some_picks: { 1 ≤ picks },
    ghost few_picks: { picks ≤ 64 },
}
