//! Worked rows: values of the definitions that were computed by hand.
ghost use Rattle.std.specs.Prelude.{◌≡◌, true, false, [], ◌∷◌, ◌++◌, replicate, codes, Some, None};
ghost use Rattle.record_defs.specs.Records.{SetUp, PutStart, PutDone, Drop, AuditStart, AuditDone, RepairDone, PutDoneIn, Version, Resume, InEffect, RepairDue, is_setup, is_in_grammar};
ghost use Rattle.record_defs.specs.Spellings.{spelling};
ghost use Rattle.record_defs.specs.Journal.{text, text_size};
ghost use Rattle.record_defs.specs.Table.{next_id, next_audit, file_of, files_of, running_audit, due_of};
ghost use Rattle.record_defs.specs.Acceptance.{refused, NoSetup, SecondSetup, BadId, NotStarted, NoName, BadAudit, NoRepair, OldKind, OldVersion, NewVersion, BadResume, NameTwice};
ghost use Rattle.record_defs.specs.Packed.{packed};
ghost use Rattle.record_defs.specs.Examples.{four, first_put, second_put, audited};

/// The bytes of one record of each kind, and of the text of a setup alone.
#[tactic(auto, unfolding(crate::specs::Spellings::spelling))]
pub fn spellings()
    ensures setup { spelling (SetUp (record four { tolerance = 4096 }))
        ≡ (1 ∷ 4 ∷ 1 ∷ 1 ∷ 0 ∷ 1 ∷ 1 ∷ 0 ∷ 16 ∷ []) ++ replicate 32 0 }
    ensures put_start { spelling (PutStart 1 (codes "notes.txt"))
        ≡ 2 ∷ 1 ∷ 0 ∷ 0 ∷ 0 ∷ 0 ∷ 0 ∷ 0 ∷ 0 ∷ 9 ∷ codes "notes.txt" }
    ensures put_done { spelling (PutDone 1 100) ≡ 3 ∷ 1 ∷ 0 ∷ 0 ∷ 0 ∷ 0 ∷ 0 ∷ 0 ∷ 0 ∷ 100 ∷ 0 ∷ 0 ∷ 0 ∷ [] }
    ensures largest { spelling (PutDone 1 4194304) ≡ 3 ∷ 1 ∷ 0 ∷ 0 ∷ 0 ∷ 0 ∷ 0 ∷ 0 ∷ 0 ∷ 0 ∷ 0 ∷ 64 ∷ 0 ∷ [] }
    ensures dropped { spelling (Drop (codes "a")) ≡ 4 ∷ 1 ∷ 97 ∷ [] }
    ensures audit_start { spelling (AuditStart 1) ≡ 5 ∷ 1 ∷ 0 ∷ 0 ∷ 0 ∷ 0 ∷ 0 ∷ 0 ∷ 0 ∷ [] }
    ensures audit_done { spelling (AuditDone 1 0 (0 ∷ 0 ∷ 1 ∷ 0 ∷ []))
        ≡ 6 ∷ 1 ∷ 0 ∷ 0 ∷ 0 ∷ 0 ∷ 0 ∷ 0 ∷ 0 ∷ 0 ∷ 0 ∷ 0 ∷ 0 ∷ 4 ∷ 0 ∷ 0 ∷ 0 ∷ 0 ∷ 0 ∷ 0 ∷ 0 ∷ 0 ∷ 1 ∷ 0 ∷ 0
        ∷ 0 ∷ 0 ∷ 0 ∷ 0 ∷ 0 ∷ [] }
    ensures repair_done { spelling (RepairDone 1) ≡ 7 ∷ 1 ∷ 0 ∷ 0 ∷ 0 ∷ 0 ∷ 0 ∷ 0 ∷ 0 ∷ [] }
    ensures put_done_in { spelling (PutDoneIn 1 100 4)
        ≡ 8 ∷ 1 ∷ 0 ∷ 0 ∷ 0 ∷ 0 ∷ 0 ∷ 0 ∷ 0 ∷ 100 ∷ 0 ∷ 0 ∷ 0 ∷ 4 ∷ [] }
    ensures version { spelling Version ≡ 9 ∷ 2 ∷ [] }
    ensures resume { spelling (Resume 3 2)
        ≡ 10 ∷ 3 ∷ 0 ∷ 0 ∷ 0 ∷ 0 ∷ 0 ∷ 0 ∷ 0 ∷ 2 ∷ 0 ∷ 0 ∷ 0 ∷ 0 ∷ 0 ∷ 0 ∷ 0 ∷ [] }
    ensures in_effect { spelling (InEffect 1 100 0 (codes "a"))
        ≡ 11 ∷ 1 ∷ 0 ∷ 0 ∷ 0 ∷ 0 ∷ 0 ∷ 0 ∷ 0 ∷ 100 ∷ 0 ∷ 0 ∷ 0 ∷ 0 ∷ 1 ∷ 97 ∷ [] }
    ensures repair_due { spelling (RepairDue 1 (0 ∷ 0 ∷ 1 ∷ 0 ∷ []))
        ≡ 12 ∷ 1 ∷ 0 ∷ 0 ∷ 0 ∷ 0 ∷ 0 ∷ 0 ∷ 0 ∷ 4 ∷ 0 ∷ 0 ∷ 0 ∷ 0 ∷ 0 ∷ 0 ∷ 0 ∷ 0 ∷ 1 ∷ 0 ∷ 0 ∷ 0 ∷ 0 ∷ 0 ∷ 0
        ∷ 0 ∷ [] }
    ensures text { text (SetUp four ∷ [])
        ≡ codes "HAILJRN1" ++ (1 ∷ 1 ∷ 4 ∷ 1 ∷ 1 ∷ 0 ∷ 1 ∷ 1 ∷ 0 ∷ 0 ∷ []) ++ replicate 32 0 ++ 0 ∷ [] }
    ensures text_size { text_size (SetUp four ∷ []) ≡ 51 }
{}

/// Records on the border of the grammar, inside and outside.
pub fn grammar()
    ensures largest { is_in_grammar (PutDone 1 4194304) ≡ true }
    ensures too_long { is_in_grammar (PutDone 1 4194305) ≡ false }
    ensures slash { is_in_grammar (Drop (47 ∷ [])) ≡ false }
    ensures no_name { is_in_grammar (Drop []) ≡ false }
    ensures longest_name { is_in_grammar (Drop (replicate 64 97)) ≡ true }
    ensures name_too_long { is_in_grammar (Drop (replicate 65 97)) ≡ false }
    ensures three_counts { is_in_grammar (AuditDone 1 0 (replicate 3 0)) ≡ false }
    ensures sixteen_counts { is_in_grammar (AuditDone 1 0 (replicate 16 0)) ≡ true }
    ensures seventeen_counts { is_in_grammar (AuditDone 1 0 (replicate 17 0)) ≡ false }
    ensures setup { is_in_grammar (SetUp four) ≡ true }
    ensures two_of_five { is_setup (record four { n = 5; l = 2; b = 2 }) ≡ false }
    ensures no_profile { is_setup (record four { profile = 5 }) ≡ false }
    ensures version { is_in_grammar Version ≡ true }
    ensures profile { is_in_grammar (PutDoneIn 1 4194304 4) ≡ true }
    ensures sixth_profile { is_in_grammar (PutDoneIn 1 0 5) ≡ false }
    ensures resume { is_in_grammar (Resume 1 1) ≡ true }
    ensures in_effect { is_in_grammar (InEffect 1 4194304 4 (codes "a")) ≡ true }
    ensures in_effect_sixth { is_in_grammar (InEffect 1 0 5 (codes "a")) ≡ false }
    ensures four_due { is_in_grammar (RepairDue 1 (replicate 4 0)) ≡ true }
    ensures three_due { is_in_grammar (RepairDue 1 (replicate 3 0)) ≡ false }
    ensures tolerance { is_setup (record four { tolerance = 4097 }) ≡ false }
{}

/// A put, a second one over it, an audit whose repair is due, and what then is dropped and repaired.
pub fn tables()
    ensures first { file_of first_put (codes "a")
        ≡ Some (record { name = codes "a"; id = 1; size = 3; profile = 0 }) }
    ensures second { file_of audited (codes "a")
        ≡ Some (record { name = codes "a"; id = 2; size = 5; profile = 0 }) }
    ensures dropped { file_of (Drop (codes "a") ∷ audited) (codes "a") ≡ None }
    ensures only_started { file_of (PutStart 3 (codes "b") ∷ audited) (codes "b") ≡ None }
    ensures files { files_of audited ≡ record { name = codes "a"; id = 2; size = 5; profile = 0 } ∷ [] }
    ensures next_id { next_id audited ≡ 3 }
    ensures next_audit { next_audit audited ≡ 2 }
    ensures due { due_of audited ≡ Some (record { number = 1; counts = 0 ∷ 0 ∷ 1 ∷ 0 ∷ [] }) }
    ensures repaired { due_of (RepairDone 1 ∷ audited) ≡ None }
    ensures packed { packed (Version ∷ audited)
        ≡ RepairDue 1 (0 ∷ 0 ∷ 1 ∷ 0 ∷ []) ∷ InEffect 2 5 0 (codes "a") ∷ Resume 3 2 ∷ Version ∷ SetUp four
        ∷ [] }
    ensures running { running_audit (AuditStart 1 ∷ second_put) ≡ Some 1 }
{}

/// Each refusal once, but for that of a full table.
pub fn refusals()
    ensures no_setup { refused [] (AuditStart 1) ≡ Some NoSetup }
    ensures second_setup { refused first_put (SetUp four) ≡ Some SecondSetup }
    ensures bad_id { refused first_put (PutStart 3 (codes "b")) ≡ Some BadId }
    ensures not_started { refused first_put (PutDone 1 3) ≡ Some NotStarted }
    ensures no_name { refused first_put (Drop (codes "b")) ≡ Some NoName }
    ensures while_due { refused audited (AuditStart 2) ≡ Some BadAudit }
    ensures not_running { refused audited (AuditDone 1 0 (replicate 4 0)) ≡ Some BadAudit }
    ensures five_counts { refused (AuditStart 1 ∷ second_put) (AuditDone 1 0 (replicate 5 0))
        ≡ Some BadAudit }
    ensures no_repair { refused second_put (RepairDone 1) ≡ Some NoRepair }
    ensures repair { refused audited (RepairDone 1) ≡ None }
    ensures old_kind { refused (Version ∷ SetUp four ∷ []) (PutDone 1 3) ≡ Some OldKind }
    ensures old_version { refused first_put (InEffect 1 3 0 (codes "b")) ≡ Some OldVersion }
    ensures new_version { refused (Version ∷ first_put) Version ≡ Some NewVersion }
    ensures lower_resume { refused (Version ∷ first_put) (Resume 1 1) ≡ Some BadResume }
    ensures name_twice { refused (InEffect 1 3 0 (codes "a") ∷ Resume 3 2 ∷ Version ∷ SetUp four ∷ [])
        (InEffect 2 3 0 (codes "a")) ≡ Some NameTwice }
{}
