//! Worked rows: values of the definitions, computed by the checker.
ghost use Rattle.std.specs.Prelude.{◌≡◌, ◌+◌, [], ◌∷◌, ◌++◌, codes, replicate, Some, None};
ghost use Rattle.record_defs.specs.Records.{Version};
ghost use Rattle.record_defs.specs.Areas.{A, B};
ghost use Rattle.record_defs.specs.Table.{files_of, file_as};
ghost use Rattle.machine_defs.specs.Jobs.{PutJob, GetJob, DropJob, AuditJob, RepairJob, UpgradeJob};
ghost use Rattle.machine_defs.specs.Answers.{Put, Got, Dropped, Audited, Repaired, Upgraded, Packed, DiskFault};
ghost use Rattle.machine_defs.specs.Refusals.{BadName, BadProfile, OldVersion, NoSuchName, RepairDue, NothingDue, NewVersion};
ghost use Rattle.machine_defs.specs.Examples.{one_file, flagged_file, hundred};
ghost use Rattle.command_defs.specs.Lines.{ready_line, list_lines, text_of, pack_text};
ghost use Rattle.command_defs.specs.Opens.{object_in_effect, stripes_in_effect};
ghost use Rattle.command_defs.specs.Ran.{profile_among};
ghost use Rattle.command_defs.specs.Refusals.{refusal_over, pack_refusal_over};

/// What the commands write.
pub fn lines()
    ensures ready { ready_line ≡ codes "ready" ++ 10 ∷ [] }
    ensures stored { text_of 0 (PutJob (codes "notes.txt") hundred) Put
        ≡ codes "stored notes.txt 100" ++ 10 ∷ [] }
    ensures got { text_of 0 (GetJob (codes "notes.txt")) (Got hundred) ≡ hundred }
    ensures dropped { text_of 0 (DropJob (codes "a")) Dropped ≡ codes "dropped a" ++ 10 ∷ [] }
    ensures audited { text_of 0 AuditJob (Audited 1 0 (4 ∷ 0 ∷ []))
        ≡ codes "audit 1 undecided 0" ++ 10 ∷ codes "provider 0 count 4 flagged"
        ++ 10 ∷ codes "provider 1 count 0 ok" ++ 10 ∷ [] }
    ensures repaired { text_of 0 RepairJob (Repaired 1) ≡ codes "repaired 1" ++ 10 ∷ [] }
    ensures upgraded { text_of 0 UpgradeJob Upgraded ≡ codes "upgraded" ++ 10 ∷ [] }
    ensures packed { pack_text (Packed 120 64) ≡ codes "packed 120 64" ++ 10 ∷ [] }
    ensures not_packed { pack_text DiskFault ≡ [] }
    ensures listed { list_lines (files_of one_file) ≡ codes "notes.txt 100" ++ 10 ∷ [] }
    ensures fault { text_of 0 (GetJob (codes "notes.txt")) DiskFault ≡ [] }
{}

/// Why jobs are refused, in order.
pub fn refusals()
    ensures bad_name { refusal_over A one_file (PutJob (codes "a/b") hundred) None ≡ Some BadName }
    ensures stored { refusal_over A one_file (PutJob (codes "a") hundred) None ≡ None }
    ensures no_name { refusal_over A one_file (GetJob (codes "a")) None ≡ Some NoSuchName }
    ensures bad_before_none { refusal_over A one_file (DropJob []) None ≡ Some BadName }
    ensures got { refusal_over A one_file (GetJob (codes "notes.txt")) None ≡ None }
    ensures due { refusal_over A flagged_file AuditJob None ≡ Some RepairDue }
    ensures repaired { refusal_over A flagged_file RepairJob None ≡ None }
    ensures nothing_due { refusal_over A one_file RepairJob None ≡ Some NothingDue }
    ensures upgraded { refusal_over A one_file UpgradeJob None ≡ None }
    ensures new_version { refusal_over A (Version ∷ one_file) UpgradeJob None ≡ Some NewVersion }
    ensures old_version { refusal_over A one_file (PutJob (codes "a") hundred) (Some 0) ≡ Some OldVersion }
    ensures own_profile { refusal_over A (Version ∷ one_file) (PutJob (codes "a") hundred) (Some 0) ≡ None }
    ensures bad_profile { refusal_over A (Version ∷ one_file) (PutJob (codes "a") hundred) (Some 5)
        ≡ Some BadProfile }
    ensures name_first { refusal_over A one_file (PutJob (codes "a/b") hundred) (Some 5) ≡ Some BadName }
    ensures second_area { refusal_over B one_file (PutJob (codes "a") hundred) None ≡ None }
    ensures old_pack { pack_refusal_over A one_file ≡ Some OldVersion }
    ensures packed { pack_refusal_over A (Version ∷ one_file) ≡ None }
    ensures packed_again { pack_refusal_over B (Version ∷ one_file) ≡ None }
{}

/// A file's object and its stripes are those of its own profile; a number that no file has is given the other
/// profile.
pub fn objects()
    ensures own { (object_in_effect one_file (file_as (codes "a") 7 100 3)).profile.keep ≡ 48 }
    ensures first { (object_in_effect one_file (file_as (codes "a") 7 100 0)).profile.keep ≡ 2 }
    ensures fewer { stripes_in_effect one_file (file_as (codes "a") 7 1000 3) ≡ 1 }
    ensures found { profile_among 4
        (file_as (codes "a") 1 5 2 ∷ file_as (codes "b") 2 5 0 ∷ []) 2 ≡ 0 }
    ensures other { profile_among 4
        (file_as (codes "a") 1 5 2 ∷ file_as (codes "b") 2 5 0 ∷ []) 3 ≡ 4 }
{}
