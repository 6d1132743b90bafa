//! What follows from the definitions of words and keys.
ghost use Rattle.std.specs.Prelude.{◌≡◌, ◌≤◌, ℕ, List, length, String};
ghost use Rattle.std.specs.declared.alloc.Global.{Global};
ghost use Rattle.command_defs.specs.Words.{IsNumberWord};
ghost use Rattle.command_defs.specs.Forms.{Command, IsForm};
ghost use Rattle.command_defs.specs.Keys.{IsKeyForm};

/// A number word has at most 39 digits.
pub fn number_word_is_short()
    ensures { (text : List ℕ) (number : ℕ) → IsNumberWord text number → length text ≤ 39 }
{}

/// Words spell at most one command.
pub fn words_spell_one_command()
    ensures { (words : List (String Global)) (command other : Command) → IsForm words command
        → IsForm words other → command ≡ other }
{}

/// A text is the form of at most one master key.
pub fn text_spells_one_key()
    ensures { (text key other : List ℕ) → IsKeyForm text key → IsKeyForm text other → key ≡ other }
{}
