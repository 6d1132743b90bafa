// The line on standard error, by the status.
ghost use Rattle.std.specs.Prelude.{◌≡◌, IsTrue};
ghost use Rattle.program_words.specs.Text.{status_text, speaks_of_place};

use exit_statuses::{
    ALREADY_SET_UP, BAD_FRAME, BAD_JOURNAL, BAD_KEY, BAD_NAME, BAD_SCHEDULE, BAD_SETUP, DISK_FAULT,
    JOURNAL_FULL, LOST_ROW, NEW_VERSION, NO_SUCH_NAME, NOT_SET_UP, NOTHING_DUE, OLD_VERSION,
    PACK_TOO_LONG, PROVIDER_FAULT, REPAIR_DUE, SINK_FAULT, SOURCE_FAULT, TOO_FEW_PROVIDERS,
    TOO_LONG, TOO_MANY_FILES, USAGE,
};

/// The text of a status other than 0.
pub fn text_of(status: u8) -> &'static str
    ensures { result.now ≡ status_text status }
{
    match status {
        USAGE => "hail: usage",
        NO_SUCH_NAME => "hail: no such name",
        LOST_ROW => "hail: lost row",
        REPAIR_DUE => "hail: repair due",
        NOTHING_DUE => "hail: nothing due",
        BAD_JOURNAL => "hail: bad journal at",
        NOT_SET_UP => "hail: not set up",
        ALREADY_SET_UP => "hail: already set up",
        JOURNAL_FULL => "hail: journal full",
        DISK_FAULT => "hail: disk fault",
        PROVIDER_FAULT => "hail: provider fault",
        SOURCE_FAULT => "hail: source fault",
        SINK_FAULT => "hail: sink fault",
        TOO_LONG => "hail: too long",
        BAD_NAME => "hail: bad name",
        BAD_KEY => "hail: bad key",
        BAD_SCHEDULE => "hail: bad schedule line",
        BAD_SETUP => "hail: bad setup",
        TOO_MANY_FILES => "hail: too many files",
        TOO_FEW_PROVIDERS => "hail: too few providers",
        OLD_VERSION => "hail: old journal version",
        NEW_VERSION => "hail: new journal version",
        BAD_FRAME => "hail: bad frame at",
        PACK_TOO_LONG => "hail: journal too long to pack",
        _ => "hail: no memory",
    }
}

/// Whether the text of a status is followed by the place that the status speaks of.
pub fn has_place(status: u8) -> bool
    ensures { result ≡ speaks_of_place status }
{
    match status {
        LOST_ROW | BAD_JOURNAL | PROVIDER_FAULT | BAD_SCHEDULE | BAD_FRAME => true,
        _ => false,
    }
}
