//! Laws of the trial.
ghost use Rattle.std.specs.Prelude.{◌≡◌, length, codes};
ghost use Rattle.machine_defs.specs.Lines.{hex};
ghost use Rattle.trial_maker.specs.Draws.{draw, bytes_behind};
ghost use Rattle.trial_maker.specs.Trials.{losing_provider, trial_key, trial_bytes, trial_commands};

/// Each trial has 225 events, and its file 65,536 bytes.
pub fn sizes_of_a_trial(number: u64)
    ensures events { length (trial_commands number) ≡ 225 }
    ensures bytes { length (trial_bytes number) ≡ 65536 }
{}

/// The trial of the seed 7: the first draw, the providers that lose their blocks, the key, and how the file
/// begins.
pub fn trial_of_seven()
    ensures draw { draw 7 1 ≡ 9098160460397411210 }
    ensures first { losing_provider 7 0 ≡ 2 }
    ensures second { losing_provider 7 1 ≡ 3 }
    ensures third { losing_provider 7 2 ≡ 4 }
    ensures key { hex (trial_key 7)
        ≡ codes "f4e84544236752fbb56b8f31a23a10e42814f5f55ca037cdcc11c64c9a3b2949" }
    ensures front { hex (bytes_behind 7 33 8) ≡ codes "c1bb607003146117" }
{}
