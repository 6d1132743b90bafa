// The lines of an adversary's changes and of a stop.
ghost use Rattle.std.specs.Prelude.{◌≡◌};
ghost use Rattle.machine_defs.specs.Events.{Stopped};
ghost use Rattle.machine_defs.specs.Lines.{lines_of};
ghost use Rattle.hail_client.specs.Outcomes.{replace_outcome};

/// The line of an alteration or a loss: whether what it meets was held.
pub fn replace_line(replaced: bool) -> &'static [u8]
    ensures { result.now ≡ lines_of (replace_outcome replaced) }
{
    if replaced {
        b"replaced\n"
    } else {
        b"nothing held\n"
    }
}

/// The line of a stop.
pub fn stop_line() -> &'static [u8]
    ensures { result.now ≡ lines_of Stopped }
{
    b"stopped\n"
}
